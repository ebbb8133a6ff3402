//! Rows of codes that are gathered one by one.
ghost use Rattle.std.specs.Prelude.{◌≡◌, [], IfOk};

use std::alloc::{AllocError, Global};
use su_reduce::Distinct;

/// Rows of codes, each once, and room for one more.
#[derive(Drop)]
pub struct Gathered {
    pub rows: Distinct,
    pub cells: Vec<u32>,
}

impl Gathered {
    /// No rows.
    pub fn new(alloc: Global, width: usize) -> Result<Gathered, AllocError>
        ensures { IfOk result (λ g. g.rows ≡ record { width = width; rows = [] }) }
    {
        let rows = Distinct::new(alloc, width)?;
        Ok(Gathered {
            rows,
            cells: Vec::new(alloc),
        })
    }
}
