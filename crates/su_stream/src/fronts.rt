//! The byte order mark that may stand at the front of an input.
ghost use Rattle.std.specs.Prelude.{◌≡◌, if◌then◌else◌};
ghost use Rattle.su_stream.specs.inside.Fronts.{front_at};

/// Whether a byte order mark stands at the front.
#[derive(Clone, Copy, PartialEq, Eq, Debug)]
pub enum Front {
    Mark,
    Other,
    /// What has come is no more than a front of the mark.
    Unknown,
}

fn unknown_if(is_front: bool) -> Front
    ensures { result ≡ (if is_front then Front.Unknown else Front.Other) }
{
    if is_front {
        Front::Unknown
    } else {
        Front::Other
    }
}

pub fn front_of(held: &[u8]) -> Front
    ensures { result ≡ front_at held.now }
{
    match held {
        [] => Front::Unknown,
        [a] => unknown_if(*a == 0xef),
        [a, b] => unknown_if(*a == 0xef && *b == 0xbb),
        [a, b, c, ..] => {
            if *a == 0xef && *b == 0xbb && *c == 0xbf {
                Front::Mark
            } else {
                Front::Other
            }
        }
    }
}
