ghost use Rattle.std.specs.Prelude.{◌≡◌, IfOk, length};

use std::alloc::Global;
use std::test::Fail;
use su_base::{Column, Kind, List, NoMemory, Row, Str};
use su_csv::{CsvFault, read, write};

fn column(alloc: Global, name: &str, kind: Kind) -> Result<Column, NoMemory> {
    Ok(Column {
        name: Str::new(alloc, name)?,
        kind,
    })
}

/// A column T of texts and a column N of numbers.
fn text_and_number(alloc: Global) -> Result<List<Column>, NoMemory>
    ensures { IfOk result (λ columns. length columns ≡ 2) }
{
    let mut columns = List::new(alloc);
    columns.push(column(alloc, "T", Kind::Text)?)?;
    columns.push(column(alloc, "N", Kind::Int)?)?;
    Ok(columns)
}

/// Their names.
fn names(alloc: Global) -> Result<List<Str>, NoMemory> {
    let mut names = List::new(alloc);
    for name in ["T", "N"] {
        names.push(Str::new(alloc, name)?)?;
    }
    Ok(names)
}

/// Whether the rows are written as this text.
fn are_written_as(alloc: Global, rows: &[Row], wanted: &[u8]) -> Result<bool, NoMemory> {
    let names = names(alloc)?;
    let text = write(alloc, names.as_slice(), rows)?;
    Ok(text.as_slice() == wanted)
}

/// Whether a file of texts and numbers is read as what is written as this text, or has this fault.
fn is_read_as(
    alloc: Global,
    columns: &[Column],
    file: &[u8],
    wanted: &Result<&[u8], CsvFault>,
) -> Result<bool, NoMemory>
    requires { length columns.now ≡ 2 }
{
    match read(alloc, file, columns) {
        Ok(rows) => match wanted {
            Ok(text) => are_written_as(alloc, rows.as_slice(), text),
            Err(_) => Ok(false),
        },
        Err(found) => match wanted {
            Ok(_) => Ok(false),
            Err(fault) => Ok(found == *fault),
        },
    }
}

/// Files and what they are read as, written again, or their first fault.
const FILES: &[(&[u8], Result<&[u8], CsvFault>)] = &[
    (b"T,N\na,1\n", Ok(b"T,N\na,1\n")),
    (b"T,N\r\na,1\r\nb,2\r\n", Ok(b"T,N\na,1\nb,2\n")),
    (b"\xef\xbb\xbfT,N\na,1", Ok(b"T,N\na,1\n")),
    (b"\n\nT,N\n\n\na,1\n\n", Ok(b"T,N\na,1\n")),
    (b"T,N\n\"a,b\",1\n", Ok(b"T,N\n\"a,b\",1\n")),
    (
        b"T,N\n\"say \"\"hi\"\"\",1\n",
        Ok(b"T,N\n\"say \"\"hi\"\"\",1\n"),
    ),
    (b"T,N\n\"a\nb\r\",1\n", Ok(b"T,N\n\"a\nb\r\",1\n")),
    (b"\"T\",\"N\"\n\"\",\"1\"\n", Ok(b"T,N\n,1\n")),
    (b"T,N\n\xc3\xa9,1\n", Ok(b"T,N\n\xc3\xa9,1\n")),
    (b"T,N\n\"a,1\n", Err(CsvFault::Width { number: 1 })),
    (b"T,N\n,0007\n,-0\n", Ok(b"T,N\n,7\n,0\n")),
    (
        b"T,N\n,-9223372036854775808\n,9223372036854775807\n",
        Ok(b"T,N\n,-9223372036854775808\n,9223372036854775807\n"),
    ),
    (
        b"T,N\n,9223372036854775808\n",
        Err(CsvFault::NotInt {
            number: 1,
            column: 1,
        }),
    ),
    (
        b"T,N\n,-9223372036854775809\n",
        Err(CsvFault::NotInt {
            number: 1,
            column: 1,
        }),
    ),
    (
        b"T,N\n,+1\n",
        Err(CsvFault::NotInt {
            number: 1,
            column: 1,
        }),
    ),
    (
        b"T,N\n, 1\n",
        Err(CsvFault::NotInt {
            number: 1,
            column: 1,
        }),
    ),
    (
        b"T,N\na,1\nb,2\nc,x\nd\n",
        Err(CsvFault::NotInt {
            number: 3,
            column: 1,
        }),
    ),
    (
        b"T,N\na,1\n\xff,2\n",
        Err(CsvFault::NotText {
            number: 2,
            column: 0,
        }),
    ),
    (
        b"T,N\n\xff,x\n",
        Err(CsvFault::NotInt {
            number: 1,
            column: 1,
        }),
    ),
    (b"T,N\na,1,2\n\xff,x\n", Err(CsvFault::Width { number: 1 })),
    (b"T,N\na\n", Err(CsvFault::Width { number: 1 })),
    (b"", Err(CsvFault::Header)),
    (b"\xef\xbb\xbf", Err(CsvFault::Header)),
    (b"N,T\na,1\n", Err(CsvFault::Header)),
    (b"T,N,M\na\n", Err(CsvFault::Header)),
];

#[test]
fn files_read_as_rows_or_their_first_fault(rt: HostRuntime) -> Result<(), Fail> {
    let columns = text_and_number(rt.alloc())?;
    for (i, (file, wanted)) in FILES.iter().enumerate() {
        let right = is_read_as(rt.alloc(), columns.as_slice(), file, wanted)?;
        assert!(rt; right, "file {i}");
    }
    Ok(())
}
