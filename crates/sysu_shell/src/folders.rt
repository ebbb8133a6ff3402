//! Files below one folder.
ghost use Rattle.std.specs.Prelude.{◌≡◌, ◌↔◌, IfOk, IsSome, IsTrue};
ghost use Rattle.std.specs.Path.{PathStartsWith, path_bytes};
ghost use Rattle.sysu_shell.specs.inside.Folders.{GoesUp, StaysBelow};

use std::alloc::Global;
use std::fs;
use std::fs::Files;
use std::path::{Component, Path};
use su_base::{NoMemory, Str};

/// Whether a name of the path is `..`.
fn goes_up(path: Path<'_>) -> bool
    ensures { IsTrue result ↔ GoesUp (path_bytes path.entry) }
{
    let mut parts = path.components();
    while let Some(part) = parts.next() {
        if let Component::ParentDir = part {
            return true;
        }
    }
    false
}

/// Whether the path is relative and never goes up.
fn stays_below(path: &str) -> bool
    ensures { IsTrue result ↔ StaysBelow path.now }
{
    let path = Path::new(path);
    path.is_relative() && !goes_up(path)
}

/// Whether the path begins with the names of the folder's.
fn is_within(path: &str, folder: &str) -> bool
    ensures { IsTrue result ↔ PathStartsWith path.now folder.now }
{
    Path::new(path).starts_with(folder)
}

/// The path of the file below the folder, with every link followed; none where it lies elsewhere or isn't there.
pub fn below(rt: HostRuntime, folder: &Str, path: &Str) -> Result<Option<Str>, NoMemory>
    ensures { IfOk result (λ found. IsSome found → StaysBelow path.now) }
{
    let alloc = rt.alloc();
    if !stays_below(path.as_str()) {
        return Ok(None);
    }
    let Ok(top) = rt.canonicalize(alloc, folder.as_str()) else {
        return Ok(None);
    };
    let Ok(joined) = format!(in alloc; "{}/{}", folder.as_str(), path.as_str()) else {
        return Err(NoMemory);
    };
    let Ok(real) = rt.canonicalize(alloc, joined.as_str()) else {
        return Ok(None);
    };
    if !is_within(real.as_str(), top.as_str()) {
        return Ok(None);
    }
    Ok(Some(Str::new(alloc, real.as_str())?))
}
