//! CSV files: rows are read under a header of column names, and written.
//!
//! Records and row texts are those of the `csv` crate at its default settings. The first record
//! with a fault decides, and no row is kept beside a fault. A file is read in one pass, with one
//! record in memory beside the rows, and rows are written into one buffer, each in the time of its
//! bytes. At most 1,000,000 rows of one column or more, of the columns' kinds and with texts of at
//! most 4,096 bytes, read back from what was written under the column names, unless the first name
//! begins with a byte order mark. No file is opened here, and no relation is looked up.
#![tactic(auto)]

mod crossing;
mod faults;
mod fields;
mod reading;
mod records;
mod rows;
mod writing;

pub use faults::CsvFault;
pub use reading::read;
pub use writing::{write, write_behind};
