//! What is known of a text that is still open.
ghost use Rattle.std.specs.Prelude.{◌≡◌, true};
ghost use Rattle.su_stream.specs.inside.Steps.{state_of, after_whole, after_byte, is_whole, ends_at, is_blank_piece};
ghost use Rattle.su_lex.specs.Blanks.{is_space};

/// Which part the text ends within.
#[derive(Clone, Copy, PartialEq, Eq, Debug)]
pub enum Mode {
    /// In none: its parts are whole.
    Plain,
    /// In a minus sign, with which a comment begins where another follows.
    Dash,
    /// In a text in quotes.
    Quoted,
    /// In a comment.
    Comment,
}

/// Where an open text stands.
#[derive(Clone, Copy, PartialEq, Eq, Debug)]
pub struct State {
    pub mode: Mode,
    /// Whether no more than white space and comments stand before the part that isn't whole.
    pub blank: bool,
}

fn space(byte: u8) -> bool
    ensures { result ≡ is_space byte }
{
    byte == b' ' || byte == b'\t' || byte == b'\n' || byte == b'\r'
}

/// Behind whole parts and one byte more.
fn after_whole(blank: bool, byte: u8) -> State
    ensures { result ≡ after_whole blank byte }
{
    if byte == b'\'' {
        return State {
            mode: Mode::Quoted,
            blank,
        };
    }
    if byte == b'-' {
        return State {
            mode: Mode::Dash,
            blank,
        };
    }
    State {
        mode: Mode::Plain,
        blank: blank && space(byte),
    }
}

impl State {
    /// Of an empty text.
    pub fn new() -> State
        ensures { result ≡ state_of Mode.Plain true }
    {
        State {
            mode: Mode::Plain,
            blank: true,
        }
    }

    /// Behind one byte more, which doesn't end the text.
    pub fn after(self, byte: u8) -> State
        ensures { result ≡ after_byte self byte }
    {
        let blank = self.blank;
        match self.mode {
            Mode::Plain => after_whole(blank, byte),
            Mode::Dash if byte == b'-' => State {
                mode: Mode::Comment,
                blank,
            },
            Mode::Dash => after_whole(false, byte),
            Mode::Quoted if byte == b'\'' => State {
                mode: Mode::Plain,
                blank: false,
            },
            Mode::Comment if byte == b'\n' => State {
                mode: Mode::Plain,
                blank,
            },
            _ => self,
        }
    }

    /// Whether a `;` would end the text here.
    fn is_whole(self) -> bool
        ensures { result ≡ is_whole self }
    {
        self.mode == Mode::Plain || self.mode == Mode::Dash
    }

    /// Whether the byte ends the text.
    pub fn ends(self, byte: u8) -> bool
        ensures { result ≡ ends_at self byte }
    {
        byte == b';' && self.is_whole()
    }

    /// Whether the text is blank, where it ends here.
    pub fn is_blank(self) -> bool
        ensures { result ≡ is_blank_piece self }
    {
        self.blank && (self.mode == Mode::Plain || self.mode == Mode::Comment)
    }
}
