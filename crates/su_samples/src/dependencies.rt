//! Dependencies from the numbers of their attributes.
ghost use Rattle.std.specs.Prelude.{◌≡◌, IfOk, length};
ghost use Rattle.su_samples.specs.Sets.{IsMadeOf};

use crate::sets::set_of;
use std::alloc::Global;
use su_base::{List, NoMemory};
use su_fd::Fd;

/// A dependency: its left and its right side.
pub type Sides = (&'static [u8], &'static [u8]);

/// The dependency of these two sides.
pub fn fd(left: &[u8], right: &[u8]) -> Fd
    ensures left { IsMadeOf left.now result.left }
    ensures right { IsMadeOf right.now result.right }
{
    Fd {
        left: set_of(left),
        right: set_of(right),
    }
}

/// A dependency for each two sides.
pub fn fds_of(alloc: Global, sides: &[Sides]) -> Result<List<Fd>, NoMemory>
    ensures { IfOk result (λ fds. length fds ≡ length sides.now) }
{
    let mut fds = List::new(alloc);
    for side in sides {
        fds.push(fd(side.0, side.1))?;
    }
    Ok(fds)
}
