// What the program writes for the bytes that it reads.
ghost use Rattle.std.specs.Prelude.{◌≡◌};
ghost use Rattle.scope.specs.Program.{program_text};
ghost use Rattle.text.specs.Texts.{text_of, AlsoOfLonger};

use crate::Text;
use crate::lines::{planned_text, refused_text};
use book::read_book;
use finder::find;

// The text for a book's bytes. Of an input that is longer than any book its first 2,066 bytes are enough.
pub fn program_text(s: &[u8]) -> Text
    ensures text { result ≡ text_of (program_text s.now) }
    ensures longer { AlsoOfLonger s.now result }
{
    let reading = read_book(s);
    let outcome = reading.outcome;
    if let Err(r) = outcome {
        return refused_text(r);
    }
    let book = reading.book;
    planned_text(find(book, 1, 1024))
}
