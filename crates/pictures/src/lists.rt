// A list of calls in numbers, made one after the other. The book, and whether the plan suits each pattern, are
// tested once.
ghost use Rattle.std.specs.Prelude.{◌≡◌, ◌*◌, ◌/◌, ◌≤◌, false, min, length, MatchOption};
ghost use Rattle.std.proofs.Math.Option.{none};
ghost use Rattle.scope.specs.Calls.{lent};
ghost use Rattle.pictures.specs.Lists.{setting, coordinate_of, call_read, room_read, is_call_at, IsRead, list_fault, list_test, listed_by, buffers, made_list, run_list, SumsDemanded, Begun, OneMade};

use crate::banks::{clear, sum};
use crate::fetching::{fetch_rest, start_answer};
use crate::places::picture_outcome;
use crate::rows::{answer_row, fetched_row, put_row};
use crate::sums::{make_sums, read_sum};
use crate::words::{load, store};
use book::entry_number;
use finder::{Suited, book_outcome};
use scope::{Book, FetchAnswer, Plan};

// Why a list was not made, and nothing changed: the numbers from this place on are no call's, or the outputs or the replies are too
// short.
#[derive(Clone, Copy)]
pub enum ListFault {
    NotCalls(u64),
    Short,
}

// The last 16 bits of a number, in two's complement.
fn coordinate(x: u64) -> i16
    ensures { result ≡ coordinate_of x }
{
    ((x % 65536) as u16).cast_signed()
}

// A call of a list. Only a fetch has room for an output.
#[derive(Clone, Copy)]
enum ListCall {
    Store {
        i: i16,
        j: i16,
        x: u16,
    },
    Clear {
        bank: u64,
    },
    Load {
        i: i16,
        j: i16,
    },
    Fetch {
        ring: bool,
        i: i16,
        j: i16,
        pattern: u64,
        room: u64,
    },
    MakeSums,
    Sum {
        bank: u64,
    },
    ReadSum {
        bank: u64,
    },
}

impl ListCall {
    // The call of five numbers, as C hands them in: its kind, its column and row, its word, bank or pattern, and its room. None where
    // they are no call's.
    fn read(numbers: &[u64]) -> Option<ListCall>
        requires { length numbers.now ≡ 5 }
        ensures { MatchOption result (is_call_at numbers.now ≡ false) (λ call. IsRead numbers.now call) }
    {
        let kind = numbers[0];
        let column = numbers[1];
        let row = numbers[2];
        let n = numbers[3];
        let room = numbers[4];
        if 65535 < column {
            return None;
        }
        if 65535 < row {
            return None;
        }
        let i = coordinate(column);
        let j = coordinate(row);
        match kind {
            0 => Some(ListCall::Store {
                i,
                j,
                x: u16::try_from(n).ok()?,
            }),
            1 => Some(ListCall::Clear { bank: n }),
            2 => Some(ListCall::Load { i, j }),
            3 | 4 => Some(ListCall::Fetch {
                ring: kind == 4,
                i,
                j,
                pattern: n,
                room,
            }),
            5 => Some(ListCall::MakeSums),
            6 => Some(ListCall::Sum { bank: n }),
            7 => Some(ListCall::ReadSum { bank: n }),
            _ => None,
        }
    }

    // The room of its output.
    fn room(self) -> u64
        ensures { result ≡ room_read self }
    {
        match self {
            ListCall::Fetch { room, .. } => room,
            _ => 0,
        }
    }
}

// The first numbers that are no call's, or the first fetch whose room is not there.
fn list_fault(numbers: &[u64], outs: usize) -> Result<(), ListFault>
    ensures { result ≡ listed_by (list_fault (length numbers.now / 5) 0 numbers.now outs) }
{
    let mut room = outs;
    for (n, five) in numbers.chunks_exact(5).enumerate() {
        let Some(call) = ListCall::read(five) else {
            return Err(ListFault::NotCalls((5 * n) as u64));
        };
        let own = call.room();
        if (room as u64) < own {
            return Err(ListFault::Short);
        }
        room -= own as usize;
    }
    Ok(())
}

// Whether the numbers are a list of calls, with outputs and replies that are long enough.
fn list_outcome(numbers: &[u64], outs: usize, rows: usize) -> Result<(), ListFault>
    ensures { result ≡ listed_by (list_test numbers.now outs rows) }
{
    list_fault(numbers, outs)?;
    let calls = numbers.len() / 5;
    if numbers.len() % 5 != 0 {
        return Err(ListFault::NotCalls((5 * calls) as u64));
    }
    if rows / 12 < calls {
        return Err(ListFault::Short);
    }
    Ok(())
}

// What a fetch of the pattern numbers 0 to 16 begins with; the record has no entry 16.
fn starts_of(book: Book, r: u32, p: Plan, w: u32, h: u32, words: usize) -> [Suited; 17]
    ensures { Begun book r p w h words result }
{
    let tested = book_outcome(book, r);
    let picture = picture_outcome(p, w, h, words);
    let none = Suited {
        outcome: Ok(()),
        positions: [0; 9],
    };
    let mut starts = [none; 17];
    for n in 0..17 {
        let k = entry_number(n);
        let t = book.patterns[k];
        starts[n] = start_answer(tested, picture, book.count, t, r, p, n);
    }
    starts
}

// Which of these is that of pattern number n: from 16 on all are alike.
fn start_number(n: u64) -> usize
    ensures { result ≡ min n 16 }
{
    n.min(16) as usize
}

// Makes a call. Only a fetch uses the output, what it begins with and the record of its pattern.
fn make_call(
    book: &Book,
    starts: &[Suited; 17],
    r: u32,
    p: Plan,
    w: u32,
    h: u32,
    mem: &mut [u16],
    sums: &mut [u64],
    call: ListCall,
    out: &mut [u16],
) -> [u64; 12]
    requires { Begun book.now r p w h (length mem.old) starts.now }
    ensures { OneMade (setting book.now r p w h) (lent mem.old sums.old) (call_read call out.old) out.old result (lent mem.new sums.new) out.new }
{
    match call {
        ListCall::Store { i, j, x } => answer_row(store(p, w, h, mem, sums, i, j, x)),
        ListCall::Clear { bank } => answer_row(clear(p, w, h, mem, sums, bank)),
        ListCall::Load { i, j } => answer_row(load(p, w, h, mem, i, j)),
        ListCall::Fetch {
            ring,
            i,
            j,
            pattern,
            ..
        } => {
            let s = start_number(pattern);
            let start = starts[s];
            let e = entry_number(pattern as usize);
            let t = book.patterns[e];
            let positions = start.positions;
            let counted = fetch_rest(start.outcome, ring, t, p, w, h, mem, i, j, out);
            fetched_row(FetchAnswer { counted, positions }, r)
        }
        ListCall::MakeSums => answer_row(make_sums(p, w, h, mem, sums)),
        ListCall::Sum { bank } => answer_row(sum(p, w, h, mem, bank)),
        ListCall::ReadSum { bank } => answer_row(read_sum(p, sums, bank)),
    }
}

// Makes the calls of a list of numbers, five to a call, one after the other.
fn make_calls(
    book: Book,
    starts: [Suited; 17],
    r: u32,
    p: Plan,
    w: u32,
    h: u32,
    mem: &mut [u16],
    sums: &mut [u64],
    numbers: &[u64],
    outs: &mut [u16],
    rows: &mut [u64],
)
    requires { Begun book r p w h (length mem.old) starts × (list_fault (length numbers.now / 5) 0 numbers.now (length outs.old) ≡ none) × (12 * (length numbers.now / 5) ≤ length rows.old) }
    ensures { buffers mem.new sums.new outs.new rows.new ≡ made_list (setting book r p w h) numbers.now (buffers mem.old sums.old outs.old rows.old) }
{
    let mut at = 0;
    for (c, five) in numbers.chunks_exact(5).enumerate() {
        let Some(call) = ListCall::read(five) else {
            unreachable!();
        };
        let end = at + call.room() as usize;
        let row = make_call(
            &book,
            &starts,
            r,
            p,
            w,
            h,
            mem,
            sums,
            call,
            &mut outs[at..end],
        );
        put_row(row, &mut rows[12 * c..]);
        at = end;
    }
}

// Makes a list of calls on a picture, five numbers to a call, each on the memory and the sums as the one before left them, and puts
// twelve numbers to a reply. After a call that makes the sums afresh and is not turned down, each sum is the walk's figure.
pub fn run_list(
    book: Book,
    r: u32,
    p: Plan,
    w: u32,
    h: u32,
    mem: &mut [u16],
    sums: &mut [u64],
    numbers: &[u64],
    outs: &mut [u16],
    rows: &mut [u64],
) -> Result<(), ListFault>
    ensures answer { result ≡ (run_list (setting book r p w h) numbers.now (buffers mem.old sums.old outs.old rows.old)).answer }
    ensures left { buffers mem.new sums.new outs.new rows.new ≡ (run_list (setting book r p w h) numbers.now (buffers mem.old sums.old outs.old rows.old)).content }
    ensures kept { SumsDemanded result (setting book r p w h) numbers.now (buffers mem.old sums.old outs.old rows.old) (buffers mem.new sums.new outs.new rows.new) }
{
    list_outcome(numbers, outs.len(), rows.len())?;
    let starts = starts_of(book, r, p, w, h, mem.len());
    make_calls(book, starts, r, p, w, h, mem, sums, numbers, outs, rows);
    Ok(())
}
