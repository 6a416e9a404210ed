// The lines of an answer. The numbers go by `itoa`: `write!` does not say when it succeeds, and these functions cannot fail.
ghost use Rattle.std.specs.Prelude.{◌≡◌, ◌++◌, ◌+◌, ◌≤◌, length};
ghost use Rattle.std.specs.Fmt.{decimal};
ghost use Rattle.arrayvec.specs.ArrayString.{array_string_len};
ghost use Rattle.scope.specs.Program.{plan_lines, refused_line, plan_text};
ghost use Rattle.text.specs.Texts.{text_of};

use crate::Text;
use arrayvec::ArrayString;
use itoa::Buffer;
use scope::{Plan, Refusal, number_of};

// The lines while they are put together.
type Lines = ArrayString<80>;

// Puts the text s and the decimal digits of n, of which there are at most 20.
fn put_number(lines: &mut Lines, s: &str, n: u64)
    requires { array_string_len lines.old + length s.now + 20 ≤ 80 }
    ensures bytes { lines.new.bytes ≡ lines.old.bytes ++ s.now ++ decimal n }
    ensures len { array_string_len lines.new ≡ array_string_len lines.old + length s.now + length (decimal n) }
{
    let mut digits = Buffer::new();
    lines.push_str(s);
    lines.push_str(digits.format(n));
}

// The lines as a text.
fn finished(lines: Lines) -> Text
    ensures { result ≡ text_of lines.bytes }
{
    let mut bytes = [0; 80];
    let length = lines.len();
    bytes[..length].copy_from_slice(lines.as_str().as_bytes());
    Text { bytes, length }
}

// The lines of a plan.
#[tactic(auto, using(crate::proofs::LineParts::printed_at_most, crate::proofs::LineParts::printed_at_most_10))]
fn plan_text(p: Plan) -> Text
    ensures { result ≡ text_of (plan_lines p) }
{
    let mut lines = Lines::new();
    put_number(&mut lines, "banks ", p.banks());
    put_number(&mut lines, "\nplan ", p.a as u64);
    put_number(&mut lines, " ", p.b as u64);
    put_number(&mut lines, " ", p.d as u64);
    lines.push_str("\n");
    finished(lines)
}

// The line of a refusal.
#[tactic(auto, using(crate::proofs::LineParts::printed_at_most))]
pub fn refused_text(r: Refusal) -> Text
    ensures { result ≡ text_of (refused_line r) }
{
    let mut lines = Lines::new();
    put_number(&mut lines, "refused ", number_of(r));
    lines.push_str("\n");
    finished(lines)
}

// What the program writes for the finder's answer.
pub fn planned_text(p: Result<Plan, Refusal>) -> Text
    ensures { result ≡ text_of (plan_text p) }
{
    match p {
        Ok(q) => plan_text(q),
        Err(r) => refused_text(r),
    }
}
