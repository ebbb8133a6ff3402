//! How it is talked.
ghost use Rattle.std.specs.Prelude.{◌≤◌};

/// How it is talked.
#[derive(Clone, Copy, Debug)]
pub struct Manner {
    /// Replies stand in frames, and an open text at the end of the input is not carried out.
    pub frames: bool,
    pub workers: u8,
    ghost least: { 1 ≤ workers },
    ghost most: { workers ≤ 16 },
}
