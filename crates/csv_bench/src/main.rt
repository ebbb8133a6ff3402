//! `csv_bench COLUMNS WIDTH RECORDS`: how long `su_csv::read` takes beside `csv` alone.
//!
//! A text of so many records is made in memory, whose columns are numbers and texts of WIDTH bytes in
//! turn. It is then gone through four times, and the processor time of each is printed: the records
//! passed through one buffer, each given in a buffer of its own and let go, the rows read, and all
//! records kept. What is kept is let go after the time is taken. Only times of one run compare. Of
//! 1,000,001 records no rows are read, and the fault is printed.
#![tactic(auto)]

mod passes;
mod texts;

use passes::{give, keep, pass, read};
use std::alloc::Global;
use std::time::CpuClock;
use std::{env, io};
use texts::{Shape, columns, text};

/// The shape that the words give, if they are three numbers in range.
fn shape(rt: &HostRuntime) -> io::Result<Option<Shape>> {
    let mut numbers = Vec::new(rt.alloc());
    for word in env::args(rt)?.skip(1) {
        numbers.push(word.as_str().parse::<u32>().unwrap_or(0))?;
    }
    Ok(match numbers.as_slice() {
        [columns, width, records] => Shape::new(*columns, *width, *records),
        _ => None,
    })
}

// What one of the four comes by, and the milliseconds of processor time that it takes.
macro_rules! timed {
    ($rt:ident, $way:expr) => {{
        let start = $rt.thread_cpu_time()?;
        let found = $way;
        let time = $rt.thread_cpu_time()?.saturating_sub(start).as_millis();
        (found, time)
    }};
}

fn run(rt: HostRuntime, shape: Shape) -> io::Result<()> {
    let alloc: Global = rt.alloc();
    let text = text(alloc, shape)?;
    let bytes = text.as_bytes();
    let Ok(columns) = columns(alloc, shape) else {
        return Err(io::ErrorKind::OutOfMemory.into());
    };
    println!(rt; "bytes: {}", bytes.len())?;
    let (count, time) = timed!(rt, pass(alloc, bytes));
    println!(rt; "records passed: {count} in {time} ms")?;
    let (count, time) = timed!(rt, give(alloc, bytes));
    println!(rt; "records given: {count} in {time} ms")?;
    let (rows, time) = timed!(rt, read(alloc, bytes, columns.as_slice()));
    match rows {
        Ok(rows) => println!(rt; "rows read: {} in {time} ms", rows.len())?,
        Err(fault) => println!(rt; "no rows read: {fault}")?,
    }
    let (records, time) = timed!(rt, keep(alloc, bytes)?);
    println!(rt; "records kept: {} in {time} ms", records.len())?;
    Ok(())
}

fn main(rt: HostRuntime) -> io::Result<()> {
    match shape(&rt)? {
        Some(shape) => run(rt, shape),
        None => println!(rt; "usage: csv_bench COLUMNS WIDTH RECORDS"),
    }
}
