//! The picture of a text.
ghost use Rattle.std.specs.Prelude.{◌≡◌, ◌⊎◌, IfOk, IfErr};
ghost use Rattle.su_draw.specs.Pictures.{IsPictureOf, IsKeptPictureOf};
ghost use Rattle.su_explained.specs.LineFaults.{IsFaultOf};

use crate::drawing::draw;
use crate::terms::only_kept;
use crate::writing::write;
use std::alloc::Global;
use su_base::List;
use su_explained::{Fault, read};

/// The picture of an explanation or of a schema as SVG in ASCII, or the first line at fault.
pub fn picture_of(alloc: Global, text: &[u8]) -> Result<List<u8>, Fault>
    ensures picture { IfOk result (IsPictureOf text.now) }
    ensures fault { IfErr result (λ fault. (fault ≡ Fault.NoMemory) ⊎ IsFaultOf text.now fault) }
{
    let lines = match read(alloc, text) {
        Ok(lines) => lines,
        Err(fault) => return Err(fault),
    };
    let Ok(picture) = draw(alloc, lines.as_slice()) else {
        return Err(Fault::NoMemory);
    };
    match write(alloc, &picture) {
        Ok(svg) => Ok(svg),
        Err(_) => Err(Fault::NoMemory),
    }
}

/// The picture of an explanation without the rows that aren't kept and without folds; that of a schema is
/// the whole one.
pub fn kept_picture_of(alloc: Global, text: &[u8]) -> Result<List<u8>, Fault>
    ensures picture { IfOk result (IsKeptPictureOf text.now) }
    ensures fault { IfErr result (λ fault. (fault ≡ Fault.NoMemory) ⊎ IsFaultOf text.now fault) }
{
    let lines = match read(alloc, text) {
        Ok(lines) => lines,
        Err(fault) => return Err(fault),
    };
    let Ok(kept) = only_kept(alloc, lines.as_slice()) else {
        return Err(Fault::NoMemory);
    };
    let Ok(picture) = draw(alloc, kept.as_slice()) else {
        return Err(Fault::NoMemory);
    };
    match write(alloc, &picture) {
        Ok(svg) => Ok(svg),
        Err(_) => Err(Fault::NoMemory),
    }
}
