//! A text as lines of words.
ghost use Rattle.std.specs.Prelude.{◌≡◌, ◌-◌, ◌<◌, ◌^◌, ◌==◌, ◌&&◌, length, IfOk, OnOk};
ghost use Rattle.su_explained.specs.Pieces.{nothing_cut, word_ended, line_ended, grown, counted, with_byte, cut_of, text_of};

use std::alloc::Global;
use std::mem;
use su_base::{List, NoMemory};

/// A line: its number, as an editor counts, and its words.
#[derive(Drop)]
pub struct Piece {
    pub number: usize,
    pub words: List<List<u8>>,
}

/// What has been cut of a text: the lines that have ended, and of the line that has begun its number,
/// the words that have ended and the word that has begun. `next` is the number of the next line, and
/// `quoted` whether a quote is open.
#[derive(Drop)]
pub struct Cut {
    pub pieces: List<Piece>,
    pub number: usize,
    pub words: List<List<u8>>,
    pub word: List<u8>,
    pub next: usize,
    pub quoted: bool,
}

impl Cut {
    /// Nothing has been cut yet.
    fn new(alloc: Global) -> Cut
        ensures { result ≡ nothing_cut }
    {
        Cut {
            pieces: List::new(alloc),
            number: 1,
            words: List::new(alloc),
            word: List::new(alloc),
            next: 1,
            quoted: false,
        }
    }

    /// The word that has begun ends.
    fn end_word(&mut self, alloc: Global) -> Result<(), NoMemory>
        ensures { OnOk result (self.new ≡ word_ended self.old) }
    {
        let word = mem::replace(&mut self.word, List::new(alloc));
        self.words.push(word)?;
        Ok(())
    }

    /// The line that has begun ends, with its last word.
    fn end_line(&mut self, alloc: Global) -> Result<(), NoMemory>
        ensures { OnOk result (self.new ≡ line_ended self.old) }
    {
        self.end_word(alloc)?;
        let words = mem::replace(&mut self.words, List::new(alloc));
        self.pieces.push(Piece {
            number: self.number,
            words,
        })?;
        self.number = self.next;
        Ok(())
    }

    /// One more byte of the word that has begun.
    fn grow(&mut self, byte: u8) -> Result<(), NoMemory>
        ensures { OnOk result (self.new ≡ grown self.old byte) }
    {
        self.word.push(byte)?;
        if byte == b'\'' {
            self.quoted = !self.quoted;
        }
        Ok(())
    }

    /// A line feed is counted.
    fn count(&mut self, byte: u8)
        requires { self.old.next < 2 ^ 64 - 1 }
        ensures { self.new ≡ counted self.old byte }
    {
        if byte == b'\n' {
            self.next += 1;
        }
    }

    /// The next byte.
    fn take(&mut self, alloc: Global, byte: u8) -> Result<(), NoMemory>
        requires { self.old.next < 2 ^ 64 - 1 }
        ensures { OnOk result (self.new ≡ with_byte self.old byte) }
    {
        self.count(byte);
        if self.quoted || byte != b'\n' && byte != b' ' {
            return self.grow(byte);
        }
        if byte == b'\n' {
            return self.end_line(alloc);
        }
        self.end_word(alloc)
    }

    /// Whether the text ended with a line's end.
    pub fn is_whole(&self) -> bool
        ensures { result ≡ (length self.now.words == 0 && length self.now.word == 0) }
    {
        self.words.is_empty() && self.word.is_empty()
    }
}

/// Cuts a text: a word ends at a blank and a line at a line feed, outside quotes. It takes memory for
/// each word, and time in proportion to the text.
pub fn cut_text(alloc: Global, text: &[u8]) -> Result<Cut, NoMemory>
    ensures cut { IfOk result (λ c. c ≡ cut_of text.now) }
    ensures lossless { IfOk result (λ c. text_of c ≡ text.now) }
{
    let mut cut = Cut::new(alloc);
    for byte in text {
        cut.take(alloc, *byte)?;
    }
    Ok(cut)
}
