//! Runs over an outside of which one call fails. The script has a print before a load and one behind it.
use crate::top::run;
use std::alloc::Global;
use std::test::Fail;
use std::thread::Threads;
use su_base::{List, NoMemory, Str};
use su_io::{File, HoldingSink, MemoryShelf, MemorySink, Outside, Shelf, Sink, Status};
use su_par::OpenGate;

pub(crate) const BANK: &str =
    "attribute BANK text; attribute ACCT int; attribute CUST text; attribute BAL int; attribute LOAN int; attribute AMT int; attribute ADDR text; relation BA (BANK text, ACCT int); relation AC (ACCT int, CUST text); relation AB (ACCT int, BAL int); relation BL (BANK text, LOAN int); relation LC (LOAN int, CUST text); relation LA (LOAN int, AMT int); relation CA (CUST text, ADDR text); object BANK_ACCT (BANK, ACCT) from BA (BANK, ACCT); object ACCT_CUST (ACCT, CUST) from AC (ACCT, CUST); object ACCT_BAL (ACCT, BAL) from AB (ACCT, BAL); object BANK_LOAN (BANK, LOAN) from BL (BANK, LOAN); object LOAN_CUST (LOAN, CUST) from LC (LOAN, CUST); object LOAN_AMT (LOAN, AMT) from LA (LOAN, AMT); object CUST_ADDR (CUST, ADDR) from CA (CUST, ADDR); fd ACCT -> BANK; fd ACCT -> BAL; fd LOAN -> BANK; fd LOAN -> AMT; fd CUST -> ADDR;";

const SCRIPT: &str = "print BA; load AB from 'g.csv'; print AB;";

const LOADED: &str = "ACCT,BAL\n1,100\n2,250\n";

const CERTIFICATE: &str = "certificate 1 kinds int";

const USAGE: &str =
    "usage: sysu run SCHEMA SCRIPT [--workers N] | sysu generate N | sysu check FILE\n";

/// The files on the shelf, by their names.
const FILES: &[(&str, &str)] = &[
    ("s", BANK),
    ("t", SCRIPT),
    ("g.csv", LOADED),
    ("c", CERTIFICATE),
];

/// What is asked for, and what it comes to where no call fails.
struct Asked {
    words: &'static [&'static str],
    /// The files in the order they are read, each with how many replies are written before it.
    reads: &'static [(&'static str, &'static str, usize)],
    replies: &'static [&'static str],
    status: Status,
}

const RUNS: &[Asked] = &[
    Asked {
        words: &["run", "s", "t"],
        reads: &[("s", BANK, 0), ("t", SCRIPT, 0), ("g.csv", LOADED, 1)],
        replies: &[
            "rows 0\nBANK,ACCT\n",
            "loaded 2 of 2\n",
            "rows 2\nACCT,BAL\n1,100\n2,250\n",
        ],
        status: Status::Done,
    },
    Asked {
        words: &["run", "g.csv", "t"],
        reads: &[("g.csv", LOADED, 0)],
        replies: &["schema refused: statement 1: syntax\n"],
        status: Status::BadSchema,
    },
    Asked {
        words: &["check", "c"],
        reads: &[("c", CERTIFICATE, 0)],
        replies: &["yes terms 0\n"],
        status: Status::Done,
    },
    Asked {
        words: &[],
        reads: &[],
        replies: &[USAGE],
        status: Status::Usage,
    },
];

pub(crate) fn words(alloc: Global, all: &[&str]) -> Result<List<Str>, NoMemory> {
    let mut words = List::new(alloc);
    for word in all {
        words.push(Str::new(alloc, word)?)?;
    }
    Ok(words)
}

fn file(alloc: Global, name: &str, text: &str) -> Result<File, NoMemory> {
    Ok(File {
        name: Str::new(alloc, name)?,
        bytes: List::from_vec(text.as_bytes().to_vec(alloc)?),
    })
}

fn files(alloc: Global) -> Result<List<File>, NoMemory> {
    let mut files = List::new(alloc);
    for (name, text) in FILES {
        files.push(file(alloc, name, text)?)?;
    }
    Ok(files)
}

/// The shelf reads in pieces of 100, and its call number k fails.
fn shelf_failing_at(alloc: Global, k: u64) -> Result<MemoryShelf, NoMemory> {
    let mut fails = List::new(alloc);
    fails.push(k)?;
    Ok(MemoryShelf::new(files(alloc)?, fails, 100))
}

/// The sink takes pieces of 4, and its call number k fails.
fn sink_failing_at(alloc: Global, k: u64) -> Result<MemorySink, NoMemory> {
    let mut fails = List::new(alloc);
    fails.push(k)?;
    MemorySink::new(alloc, fails, 4, 1000)
}

/// What a run comes to: its status, how many pieces of 4 bytes are written, and the file that is begun last.
#[derive(Clone, Copy)]
struct End {
    status: Status,
    pieces: u64,
    begun: Option<&'static str>,
}

/// The first so many pieces of the replies.
fn front(alloc: Global, replies: &[&str], pieces: u64) -> Result<Vec<u8>, NoMemory> {
    let mut front = Vec::new(alloc);
    let mut left = pieces;
    for reply in replies {
        for piece in reply.as_bytes().chunks(4) {
            if left == 0 {
                return Ok(front);
            }
            front.extend_from_slice(piece)?;
            left -= 1;
        }
    }
    Ok(front)
}

/// The bank's outside, of which a call of the shelf and one of the sink fail.
fn failing_at(
    alloc: Global,
    fails: (u64, u64),
) -> Result<Outside<MemoryShelf, MemorySink>, NoMemory> {
    let sink = sink_failing_at(alloc, fails.1)?;
    let shelf = shelf_failing_at(alloc, fails.0)?;
    Ok(Outside { shelf, sink })
}

/// The run, without its promises.
fn ran<R: Threads + Sync, H: Shelf, K: Sink>(
    rt: &R,
    alloc: Global,
    words: &[Str],
    outside: &mut Outside<H, K>,
) -> Status {
    run(rt, alloc, words, outside, &OpenGate)
}

/// Whether these bytes are written and this file is begun last.
fn is_left(
    outside: &Outside<MemoryShelf, MemorySink>,
    written: &[u8],
    begun: Option<&str>,
) -> bool {
    outside.sink.written() == written && outside.shelf.begun().map(Str::as_str) == begun
}

/// Whether it ends so where a call of the shelf and one of the sink fail.
fn ends_so<R: Threads + Sync>(
    rt: &R,
    alloc: Global,
    asked: &Asked,
    fails: (u64, u64),
    end: End,
) -> Result<bool, NoMemory> {
    let written = front(alloc, asked.replies, end.pieces)?;
    let words = words(alloc, asked.words)?;
    let mut outside = failing_at(alloc, fails)?;
    let status = ran(rt, alloc, words.as_slice(), &mut outside);
    Ok(status == end.status && is_left(&outside, written.as_slice(), end.begun))
}

/// In how many pieces the first so many replies are written.
fn pieces(replies: &[&str], count: usize) -> u64 {
    let mut pieces = 0u64;
    for (i, reply) in replies.iter().enumerate() {
        if i < count {
            pieces = pieces.wrapping_add((reply.len() as u64).div_ceil(4));
        }
    }
    pieces
}

/// How many calls a file takes in pieces of 100: one to begin it, one a piece, and one to find its end.
fn calls(text: &str) -> u64 {
    (text.len() as u64).div_ceil(100).wrapping_add(2)
}

/// How it ends where call number k of the shelf fails, or where there are fewer.
fn end_at_shelf(asked: &Asked, k: u64) -> End {
    let mut left = k;
    let mut begun = None;
    for (name, text, before) in asked.reads {
        begun = Some(*name);
        let needed = calls(text);
        if left < needed {
            return End {
                status: Status::ReadFault,
                pieces: pieces(asked.replies, *before),
                begun,
            };
        }
        left -= needed;
    }
    End {
        status: asked.status,
        pieces: u64::MAX,
        begun,
    }
}

/// How it ends where call number k of the sink fails, or where there are fewer: one call hands over
/// before the file of a load, which has replies before it, and one behind the last piece.
fn end_at_sink(asked: &Asked, k: u64) -> End {
    let mut begun = None;
    let mut loads = 0u64;
    for (name, _, before) in asked.reads {
        let through = loads.wrapping_add(u64::from(*before > 0));
        if pieces(asked.replies, *before).wrapping_add(through) <= k {
            begun = Some(*name);
            loads = through;
        }
    }
    let last = pieces(asked.replies, asked.replies.len()).wrapping_add(loads);
    let status = if k <= last {
        Status::WriteFault
    } else {
        asked.status
    };
    End {
        status,
        pieces: k.wrapping_sub(loads),
        begun,
    }
}

/// What a run leaves at a sink that holds back until it is flushed: its status, and how many replies
/// are written, each as one piece, and handed over.
#[derive(Clone, Copy)]
struct Left {
    status: Status,
    replies: usize,
    over: usize,
}

/// Whether the sink was handed the first so many replies, each as one piece, and so many are over.
fn holds_so(sink: &HoldingSink, asked: &Asked, left: Left) -> bool {
    let mut all = sink.pieces().len() == left.replies && sink.over() == left.over;
    for (piece, reply) in sink.pieces().iter().zip(asked.replies.iter()) {
        all &= piece.as_slice() == reply.as_bytes();
    }
    all
}

/// Whether that is left where call number k of the shelf fails.
fn leaves_so<R: Threads + Sync>(
    rt: &R,
    alloc: Global,
    asked: &Asked,
    k: u64,
    left: Left,
) -> Result<bool, NoMemory> {
    let words = words(alloc, asked.words)?;
    let shelf = shelf_failing_at(alloc, k)?;
    let sink = HoldingSink::new(alloc);
    let mut outside = Outside { shelf, sink };
    let status = ran(rt, alloc, words.as_slice(), &mut outside);
    Ok(status == left.status && holds_so(&outside.sink, asked, left))
}

/// More calls than the shelf or the sink gets.
const MANY: u64 = 24;

/// The first failing call of the shelf with another end.
fn otherwise_at_shelf<R: Threads + Sync>(
    rt: &R,
    alloc: Global,
    asked: &Asked,
) -> Result<Option<u64>, NoMemory> {
    for k in 0..MANY {
        if !ends_so(rt, alloc, asked, (k, MANY), end_at_shelf(asked, k))? {
            return Ok(Some(k));
        }
    }
    Ok(None)
}

/// The first failing call of the sink with another end.
fn otherwise_at_sink<R: Threads + Sync>(
    rt: &R,
    alloc: Global,
    asked: &Asked,
) -> Result<Option<u64>, NoMemory> {
    for k in 0..MANY {
        if !ends_so(rt, alloc, asked, (MANY, k), end_at_sink(asked, k))? {
            return Ok(Some(k));
        }
    }
    Ok(None)
}

#[test]
fn each_failing_call_of_the_shelf_leaves_the_replies_before_it(
    rt: HostRuntime,
) -> Result<(), Fail> {
    for (i, asked) in RUNS.iter().enumerate() {
        let call = otherwise_at_shelf(&rt, rt.alloc(), asked)?;
        assert_eq!(rt; call, None, "run {i}");
    }
    Ok(())
}

#[test]
fn each_failing_call_of_the_sink_leaves_a_front(rt: HostRuntime) -> Result<(), Fail> {
    for (i, asked) in RUNS.iter().enumerate() {
        let call = otherwise_at_sink(&rt, rt.alloc(), asked)?;
        assert_eq!(rt; call, None, "run {i}");
    }
    Ok(())
}

#[test]
fn each_reply_is_one_piece_and_handed_over(rt: HostRuntime) -> Result<(), Fail> {
    let all = Left {
        status: Status::Done,
        replies: 3,
        over: 3,
    };
    let first = Left {
        status: Status::ReadFault,
        replies: 1,
        over: 1,
    };
    let load = calls(BANK).wrapping_add(calls(SCRIPT));
    for (k, left) in [(MANY, all), (load, first)] {
        let so = leaves_so(&rt, rt.alloc(), &RUNS[0], k, left)?;
        assert!(rt; so, "call {k}");
    }
    Ok(())
}
