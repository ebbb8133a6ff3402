//! A sink in memory that holds all back until it is flushed, and tells the pieces that it was handed.
ghost use Rattle.std.specs.Prelude.{◌≡◌, ◌≤◌, ◌++◌, ◌∷◌, [], Some, None, true, cond, take, length};
ghost use Rattle.su_io.specs.Ends.{says};
ghost use Rattle.su_io.specs.Fronts.{joined_front};
ghost use Rattle.su_io.specs.WrittenTexts.{joined};

use crate::{Failed, Sink};
use std::alloc::Global;
use su_base::List;

/// Pieces in memory, each taken whole. A flush hands over those that were taken before it. Its calls
/// never fail: where there is no memory for a piece it tells nothing from there on.
#[derive(Drop)]
pub struct HoldingSink {
    alloc: Global,
    pieces: Vec<List<u8>>,
    over: usize,
    told: bool,
    ghost within: { over ≤ length pieces.items },
}

impl HoldingSink {
    /// A sink that was handed nothing.
    pub fn new(alloc: Global) -> HoldingSink
        ensures { (result.pieces.items ≡ []) × (result.over ≡ 0) × (result.told ≡ true) }
    {
        HoldingSink {
            alloc,
            pieces: Vec::new(alloc),
            over: 0,
            told: true,
        }
    }

    /// The pieces that its calls were handed, as long as there was memory for them.
    pub fn pieces(&self) -> &[List<u8>]
        ensures { result.now ≡ self.now.pieces.items }
    {
        self.pieces.as_slice()
    }

    /// How many of them are over.
    pub fn over(&self) -> usize
        ensures { result ≡ self.now.over }
    {
        self.over
    }

    /// Keeps a piece, and tells whether there was memory for it.
    fn keep(&mut self, bytes: &[u8]) -> bool
        ensures rest { (self.new.over ≡ self.old.over) × (self.new.told ≡ self.old.told) }
        ensures kept { self.new.pieces.items ≡ cond result (self.old.pieces.items ++ bytes.now ∷ []) self.old.pieces.items }
    {
        match bytes.to_vec(self.alloc) {
            Ok(piece) => self.pieces.push(List::from_vec(piece)).is_ok(),
            Err(_) => false,
        }
    }
}

impl Sink for HoldingSink {
    ghost written = { λ s. says s.told (joined s.pieces.items) };

    ghost handed = { λ s. cond s.told (Some s.pieces.items) None };

    ghost over = { λ s. says s.told (joined (take s.over s.pieces.items)) };

    ghost faults = { λ s. 0 };

    fn write(&mut self, bytes: &[u8]) -> Result<usize, Failed> {
        let kept = self.keep(bytes);
        self.told &= kept;
        Ok(bytes.len())
    }

    fn flush(&mut self) -> Result<(), Failed> {
        self.over = self.pieces.len();
        Ok(())
    }

    ghost front = { λ s. joined_front s.told s.over s.pieces.items };
}
