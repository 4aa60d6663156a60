//! Tables of rows, which programs run, and what is told of them.
//!
//! The arguments of such a program are the names of tables. A table is a file in the folder where the program runs, and is named
//! by the calls that its rows make. A row is a line whose cells are parted by tabs: what the call is given, and at the end what is
//! due. A line that starts with `#` is a heading.
//!
//! | In a cell | Stands for |
//! |---|---|
//! | `\t`, `\n`, `\r` | a tab, a line feed, a carriage return |
//! | `\xHH` | the byte of these two digits |
//! | `\{N*TEXT}` | N times this text, which has neither `}` nor a backslash |
//!
//! A backslash is written `\x5C`. Where all rows are as due the program ends with status 0, else with 1.
#![tactic(auto)]

mod cells;
mod tables;
mod texts;

pub use cells::Cell;
pub use tables::run_tables;
pub use texts::{owned, push_name, quoted, words_of, yes_or_no};
