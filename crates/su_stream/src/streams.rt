//! The bytes that have come and are still held.
ghost use Rattle.std.specs.Prelude.{◌≡◌, ◌≤◌, ◌<◌, ◌+◌, ◌^◌, false, vec_len};

use crate::fronts::{Front, front_of};
use crate::pieces::Piece;
use crate::scanning::scan;
use crate::states::State;
use std::alloc::Global;
use su_base::NoMemory;
use su_lex::Span;

/// An input that comes in pieces.
#[derive(Drop)]
pub struct Stream {
    alloc: Global,
    /// The bytes of the input from place `base` on.
    held: Vec<u8>,
    base: usize,
    /// Where the open text begins, and how far it was looked at, both among what is held.
    from: usize,
    seen: usize,
    state: State,
    /// Whether it is known if a byte order mark stands at the front.
    begun: bool,
    ghost ordered: { from ≤ seen },
    ghost within: { seen ≤ vec_len held },
    ghost fits: { base + vec_len held < 2 ^ 64 },
    ghost first: { begun ≡ false → from ≡ 0 },
}

impl Stream {
    ghost use Rattle.std.specs.Prelude.{◌-◌, ℕ, List as Items, [], length, get_or, MatchOption, IfSome, IfNone, OnOk, OnErr, true};
    ghost use Rattle.su_stream.specs.declared.pieces.Piece.{Piece as APiece};
    ghost use Rattle.su_stream.specs.declared.fronts.Front.TheVariants.{Unknown};
    ghost use Rattle.su_stream.specs.Ended.{text_at};
    ghost use Rattle.su_stream.specs.Coming.{HasCome, IsSameInput, Takes, Gives, Closes, HasLookedAtAll, IsUpToDate, Holds, StaysHeld, open_text};
    ghost use Rattle.su_stream.specs.inside.Held.{looked_at};
    ghost use Rattle.su_stream.specs.inside.Fronts.{front_at};
    ghost use Rattle.su_stream.specs.inside.Texts.{IsText};
    ghost use Rattle.su_stream.specs.inside.Steps.{ends_at};

    /// Nothing has come.
    pub fn new(alloc: Global) -> Stream
        ensures { HasCome [] [] result }
    {
        Stream {
            alloc,
            held: Vec::new(alloc),
            base: 0,
            from: 0,
            seen: 0,
            state: State::new(),
            begun: false,
        }
    }

    /// Lets go of the pieces that have ended.
    fn let_go(&mut self) -> Result<(), NoMemory>
        ensures same { OnOk result (IsSameInput self.old self.new) }
        ensures held { OnOk result (vec_len self.new.held ≡ length (open_text self.old)) }
        ensures unchanged { OnErr result (self.new ≡ self.old) }
    {
        let mut kept = Vec::new(self.alloc);
        kept.extend_from_slice(&self.held[self.from..])?;
        self.base += self.from;
        self.seen -= self.from;
        self.from = 0;
        self.held = kept;
        Ok(())
    }

    /// Takes bytes behind those that are held.
    #[tactic(auto, using(crate::proofs::Fields::kept_same))]
    fn append(&mut self, bytes: &[u8]) -> Result<(), NoMemory>
        requires { self.old.base + vec_len self.old.held + length bytes.now < 2 ^ 64 }
        ensures took { OnOk result (Takes bytes.now self.old self.new) }
        ensures held { OnOk result (vec_len self.new.held ≡ vec_len self.old.held + length bytes.now) }
        ensures same { OnErr result (IsSameInput self.old self.new) }
    {
        self.held.extend_from_slice(bytes)?;
        Ok(())
    }

    /// Takes a piece of the input. The texts of pieces that have ended before are not held any longer,
    /// whatever it answers. It finds no memory either where more than 2^64 - 1 bytes would have come.
    pub fn push(&mut self, bytes: &[u8]) -> Result<(), NoMemory>
        ensures took { OnOk result (Takes bytes.now self.old self.new) }
        ensures held { OnOk result (vec_len self.new.held ≡ length (open_text self.old) + length bytes.now) }
        ensures same { OnErr result (IsSameInput self.old self.new) }
    {
        if self.from > 0 {
            self.let_go()?;
        }
        let end = self.base + self.held.len();
        if bytes.len() > usize::MAX - end {
            return Err(NoMemory);
        }
        self.append(bytes)
    }

    /// Whether it is known where the first statement begins.
    fn begin(&mut self) -> bool
        ensures begun { result ≡ self.new.begun }
        ensures same { IsSameInput self.old self.new }
        ensures held { self.new.held ≡ self.old.held }
        ensures base { self.new.base ≡ self.old.base }
        ensures unknown { self.new.begun ≡ false → front_at self.new.held.items ≡ Unknown }
        ensures from { length (open_text self.new) ≤ length (open_text self.old) }
    {
        if self.begun {
            return true;
        }
        match front_of(self.held.as_slice()) {
            Front::Unknown => false,
            Front::Mark => {
                self.from = 3;
                self.seen = 3;
                self.state = State::new();
                self.begun = true;
                true
            }
            Front::Other => {
                self.begun = true;
                true
            }
        }
    }

    /// Looks at what is held up to the `;` that ends the open text, or to the end.
    fn advance(&mut self)
        ensures same { IsSameInput self.old self.new }
        ensures held { self.new.held ≡ self.old.held }
        ensures base { self.new.base ≡ self.old.base }
        ensures begun { self.new.begun ≡ self.old.begun }
        ensures from { self.new.from ≡ self.old.from }
        ensures ended { self.new.seen < vec_len self.new.held → ends_at self.new.state (get_or self.new.held.items self.new.seen 0) ≡ true }
    {
        let scanned = scan(self.state, &self.held[self.seen..]);
        self.seen += scanned.count;
        self.state = scanned.state;
    }

    /// Cuts off the open text, which ends where it was looked at up to.
    fn cut_off(&mut self) -> Piece
        requires begun { self.old.begun ≡ true }
        requires within { self.old.seen < vec_len self.old.held }
        requires ended { ends_at self.old.state (get_or self.old.held.items self.old.seen 0) ≡ true }
        ensures gives { Gives result self.old self.new }
        ensures holds { Holds self.new result.span }
        ensures held { self.new.held ≡ self.old.held }
        ensures base { self.new.base ≡ self.old.base }
        ensures shorter { length (open_text self.new) < length (open_text self.old) }
    {
        let piece = self.piece();
        self.seen += 1;
        self.from = self.seen;
        self.state = State::new();
        piece
    }

    /// The open text up to where it was looked at, as a piece.
    fn piece(&self) -> Piece
        ensures is { IsText self.now.state (looked_at self.now) (self.now.base + self.now.from) result }
        ensures holds { Holds self.now result.span }
    {
        Piece {
            span: Span {
                start: self.base + self.from,
                end: self.base + self.seen,
            },
            blank: self.state.is_blank(),
        }
    }

    /// The next piece that has ended, if there is one.
    pub fn next(&mut self) -> Option<Piece>
        ensures gives { MatchOption result (IsSameInput self.old self.new) (λ piece. Gives piece self.old self.new) }
        ensures all { IfNone result (HasLookedAtAll self.new) }
        ensures ended { IfNone result (IsUpToDate self.new) }
        ensures holds { IfSome result (λ piece. Holds self.new piece.span) }
        ensures held { StaysHeld self.old self.new }
        ensures shorter { IfSome result (λ piece. length (open_text self.new) < length (open_text self.old)) }
    {
        let begun = self.begin();
        self.advance();
        if !begun || self.seen == self.held.len() {
            return None;
        }
        Some(self.cut_off())
    }

    /// The piece that the end of the input ends.
    pub fn last(&self) -> Piece
        requires { HasLookedAtAll self.now }
        ensures closes { Closes self.now result }
        ensures len { result.span.end - result.span.start ≡ length (open_text self.now) }
        ensures holds { Holds self.now result.span }
    {
        self.piece()
    }

    /// How many bytes the open text has: what was pushed and stands behind the last piece that was given.
    pub fn open_len(&self) -> usize
        ensures { result ≡ length (open_text self.now) }
    {
        self.held.len() - self.from
    }

    /// The bytes of a piece that has ended since the last `push`.
    pub fn text(&self, span: Span) -> &[u8]
        requires { Holds self.now span }
        ensures { (come : Items ℕ) (pieces : Items APiece) → HasCome come pieces self.now → result.now ≡ text_at come span }
    {
        &self.held[span.start - self.base..span.end - self.base]
    }
}
