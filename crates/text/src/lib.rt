// What the program writes: the two lines of a plan, or the line of a refusal.
#![tactic(auto)]

mod lines;
mod program;

pub use lines::{planned_text, refused_text};
pub use program::program_text;

// A text of at most 80 bytes, of which the first `length` count; the others are 0.
#[derive(Clone, Copy)]
pub struct Text {
    pub bytes: [u8; 80],
    pub length: usize,
}
