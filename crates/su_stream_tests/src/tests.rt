ghost use Rattle.std.specs.Prelude.{◌≤◌, OnOk};
ghost use Rattle.su_stream.specs.Coming.{HasLookedAtAll, Holds};

use std::alloc::Global;
use std::test::Fail;
use su_base::NoMemory;
use su_stream::{Piece, Stream};

/// An input, and its statements, each with a line feed behind it.
const INPUTS: &[(&[u8], &[u8])] = &[
    (b"a; b", b"a\n b\n"),
    (b"a;b;", b"a\nb\n"),
    (b";; \t\r\n;-- only this", b""),
    (b"'it''s; so';b", b"'it''s; so'\nb\n"),
    (
        b"a -- no; cut 'here\n b; c",
        b"a -- no; cut 'here\n b\n c\n",
    ),
    (b"a; 'open; to the end", b"a\n 'open; to the end\n"),
    (b"a - b; -", b"a - b\n -\n"),
    (b"-;--;\n-'-;'", b"-\n--;\n-'-;'\n"),
    (b"\xef\xbb\xbfa;b", b"a\nb\n"),
    (b"\xef\xbb\xbf\xef\xbb\xbfa", b"\xef\xbb\xbfa\n"),
    (b"a;\xef\xbb\xbf;b", b"a\n\xef\xbb\xbf\nb\n"),
    (b"\xef\xbb", b"\xef\xbb\n"),
];

/// Puts the bytes of a statement, and a line feed, behind those before it.
fn put(all: &mut Vec<u8>, stream: &Stream, piece: Piece) -> Result<(), NoMemory>
    requires { Holds stream.now piece.span }
{
    if !piece.blank {
        all.extend_from_slice(stream.text(piece.span))?;
        all.extend_from_slice(b"\n")?;
    }
    Ok(())
}

/// Puts the statements that have ended.
fn put_ended(all: &mut Vec<u8>, stream: &mut Stream) -> Result<(), NoMemory>
    ensures { OnOk result (HasLookedAtAll stream.new) }
{
    while let Some(piece) = stream.next() {
        put(all, stream, piece)?;
    }
    Ok(())
}

/// The statements of an input that comes in pieces of this size.
fn statements(alloc: Global, input: &[u8], size: usize) -> Result<Vec<u8>, NoMemory>
    requires { 1 ≤ size }
{
    let mut all = Vec::new(alloc);
    let mut stream = Stream::new(alloc);
    for bytes in input.chunks(size) {
        stream.push(bytes)?;
        put_ended(&mut all, &mut stream)?;
    }
    put_ended(&mut all, &mut stream)?;
    put(&mut all, &stream, stream.last())?;
    Ok(all)
}

#[test]
fn statements_are_the_same_whatever_the_pieces(rt: HostRuntime) -> Result<(), Fail> {
    for (input, want) in INPUTS {
        for size in 1..6 {
            assert_eq!(rt; statements(rt.alloc(), input, size)?.as_slice(), *want);
        }
    }
    Ok(())
}
