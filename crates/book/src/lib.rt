// Books as records and as bytes: the tests, the reader, a pattern's part of the bytes, the writer.
#![tactic(auto)]

mod cells;
mod part;
mod reader;
mod record;
mod scanner;
mod writer;

pub use cells::cell;
pub use part::{part_outcome, part_place, pattern_part};
pub use reader::{empty_pattern, read_book};
pub use record::{entry_number, record_outcome};
pub use writer::write_book;
