use std::alloc::Global;
use std::test::Fail;
use su_base::{List, NoMemory, Str};
use su_io::{
    BufferedSink, File, FileShelf, HoldingSink, MemoryShelf, MemorySink, ReadEnd, Sink,
    SteadyShelf, SteadySink, read_all, write_all,
};

fn numbers(alloc: Global, all: &[u64]) -> Result<List<u64>, NoMemory> {
    Ok(List::from_vec(all.to_vec(alloc)?))
}

fn two_files(alloc: Global) -> Result<List<File>, NoMemory> {
    let mut files = List::new(alloc);
    for (name, bytes) in [("a", b"alpha".as_slice()), ("b", b"beta!?".as_slice())] {
        let file = File {
            name: Str::new(alloc, name)?,
            bytes: List::from_vec(bytes.to_vec(alloc)?),
        };
        files.push(file)?;
    }
    Ok(files)
}

#[test]
fn reads_whole_files(rt: HostRuntime) -> Result<(), Fail> {
    let alloc = rt.alloc();
    // the file, the calls that fail, the limit, and what is read
    let cases = [
        ("b", [].as_slice(), 6, Ok(b"beta!?".as_slice())),
        ("b", [].as_slice(), 5, Err(ReadEnd::TooLong)),
        ("c", [].as_slice(), 5, Err(ReadEnd::Failed)),
        ("a", [2].as_slice(), 9, Err(ReadEnd::Failed)),
    ];
    for (name, fails, limit, want) in cases {
        let fails = numbers(alloc, fails)?;
        let mut shelf = MemoryShelf::new(two_files(alloc)?, fails, 4);
        let got = read_all(alloc, &mut shelf, Str::new(alloc, name)?, limit);
        match (got, want) {
            (Ok(got), Ok(want)) => assert_eq!(rt; got.as_slice(), want, "{name}"),
            (Err(got), Err(want)) => assert_eq!(rt; got, want, "{name}"),
            _ => panic!(rt; "{name} at {limit}"),
        }
    }
    Ok(())
}

#[test]
fn writes_in_pieces(rt: HostRuntime) -> Result<(), Fail> {
    let alloc = rt.alloc();
    let mut sink = MemorySink::new(alloc, numbers(alloc, &[2])?, 4, 100)?;
    assert!(rt; write_all(&mut sink, b"rows 0\nB").is_ok());
    assert!(rt; write_all(&mut sink, b"ANK").is_err());
    assert_eq!(rt; sink.written(), b"rows 0\nB".as_slice());
    Ok(())
}

/// A text each, `/` where the sink is flushed, and the pieces that the sink below is handed of them: three bytes are held.
const HELD: &[(&[&str], &[&str])] = &[
    (&["a", "b"], &[]),
    (&["a", "b", "/"], &["ab"]),
    (&["ab", "cd", "e", "/"], &["ab", "cd", "e"]),
    (&["abcd", "e", "/", "/"], &["abcd", "e"]),
    (&["abc", "d"], &["abc", "d"]),
];

/// Whether these are the pieces that a sink is handed by one that holds three bytes above it.
fn hands_on(alloc: Global, texts: &[&str], want: &[&str]) -> bool {
    let mut sink = BufferedSink::new(alloc, HoldingSink::new(alloc), 3);
    let mut all = true;
    for text in texts {
        all &= if *text == "/" {
            sink.flush().is_ok()
        } else {
            write_all(&mut sink, text.as_bytes()).is_ok()
        };
    }
    let got = sink.below().pieces();
    all &= got.len() == want.len();
    for (piece, want) in got.iter().zip(want.iter()) {
        all &= piece.as_slice() == want.as_bytes();
    }
    all
}

#[test]
fn short_pieces_are_held(rt: HostRuntime) -> Result<(), Fail> {
    for (i, (texts, want)) in HELD.iter().enumerate() {
        assert!(rt; hands_on(rt.alloc(), texts, want), "case {i}");
    }
    Ok(())
}

#[test]
fn what_was_not_taken_is_held(rt: HostRuntime) -> Result<(), Fail> {
    let alloc = rt.alloc();
    let below = MemorySink::new(alloc, numbers(alloc, &[1])?, 2, 100)?;
    let mut sink = BufferedSink::new(alloc, below, 10);
    let held = write_all(&mut sink, b"abcde").is_ok();
    // call 0 takes two bytes, call 1 fails, and call 2 goes on behind them
    let failed = sink.flush().is_err();
    let over = sink.flush().is_ok();
    assert!(rt; held && failed && over);
    assert_eq!(rt; sink.below().written(), b"abcde".as_slice());
    Ok(())
}

#[test]
fn a_missing_file_of_the_system_is_a_fault(rt: HostRuntime) -> Result<(), Fail> {
    let alloc = rt.alloc();
    let mut shelf = FileShelf::new(rt);
    let got = read_all(alloc, &mut shelf, Str::new(alloc, "none.txt")?, 10);
    assert!(rt; matches!(got, Err(ReadEnd::Failed)));
    std::fs::write(&rt, "some.txt", b"some bytes".as_slice())?;
    match read_all(alloc, &mut shelf, Str::new(alloc, "some.txt")?, 10) {
        Ok(bytes) => assert_eq!(rt; bytes.as_slice(), b"some bytes".as_slice()),
        Err(end) => panic!(rt; "{end:?}"),
    }
    Ok(())
}

#[test]
fn steady_objects_never_fail(rt: HostRuntime) -> Result<(), Fail> {
    let alloc = rt.alloc();
    let mut shelf = SteadyShelf::new(two_files(alloc)?);
    let mut sink = SteadySink::new(alloc, 9)?;
    for name in ["b", "c", "a"] {
        match read_all(alloc, &mut shelf, Str::new(alloc, name)?, 6) {
            Ok(bytes) => assert!(rt; write_all(&mut sink, bytes.as_slice()).is_ok()),
            Err(end) => panic!(rt; "{name}: {end:?}"),
        }
    }
    // the room ends within the second file
    assert_eq!(rt; sink.written(), b"beta!?alp".as_slice());
    Ok(())
}
