// A reply to its bytes: the line that a run sheet prints for it, by the definition of sheet_law,
// put into a lent buffer.
// The public functions take any buffer and any place in it, and write nothing where the longest line would not fit.
#![tactic(auto)]

ghost use Rattle.std.specs.Prelude.{◌+◌, ◌≤◌, ◌≡◌, leb, length};
ghost use Rattle.sheet_law.specs.Text.{text, last_digit, decimal};
ghost use Rattle.sheet_law.specs.Printing.{printed_max, with_one, with_two, pitch_text, walk_text, reply_text, printed_line};
ghost use Rattle.sheet_printing.specs.Buffer.{Added, Printed};
ghost use Rattle.sheet_printing.specs.Lines.{answer_text};

use calls::{Pitch, Reply, WalkReply};
use sheet_law::PRINTED_MAX;

// The most digits that a number of 64 bits has.
const DIGITS: usize = 20;

// Puts a text at a place of the buffer, and says where the next byte goes.
// Buffer and place are passed one by one: a struct that holds a `&mut` needs a further clause in each function that takes it.
fn put(out: &mut [u8], at: usize, s: &[u8]) -> usize
    requires { at + length s.now ≤ length out.old }
    ensures { Added (length s.now) s.now out.old at out.new result }
{
    let end = at + s.len();
    out[at..end].copy_from_slice(s);
    end
}

fn digit(n: u64) -> u8
    ensures { result ≡ last_digit n }
{
    b'0' + (n % 10) as u8
}

// A number's digits, at the end of an array.
fn spell(bytes: &mut [u8; DIGITS], n: u64) -> &[u8]
    ensures few { length result.now ≤ 20 }
    ensures digits { result.now ≡ decimal n }
{
    let mut left = n;
    let mut at = DIGITS;
    // It ends at the first digit of the number, and no range of places is known before.
    loop {
        at -= 1;
        bytes[at] = digit(left);
        left /= 10;
        if left == 0 {
            break;
        }
    }
    &bytes[at..]
}

fn put_number(out: &mut [u8], at: usize, n: u64) -> usize
    requires { at + 20 ≤ length out.old }
    ensures { Added 20 (decimal n) out.old at out.new result }
{
    let mut bytes = [0; DIGITS];
    put(out, at, spell(&mut bytes, n))
}

// Puts a word and a number.
fn put_one(out: &mut [u8], at: usize, word: &[u8], n: u64) -> usize
    requires { at + (length word.now + 20) ≤ length out.old }
    ensures { Added (length word.now + 20) (with_one word.now n) out.old at out.new result }
{
    let next = put(out, at, word);
    put_number(out, next, n)
}

// Puts a word and two numbers, with a space between them.
fn put_two(out: &mut [u8], at: usize, word: &[u8], n: u64, m: u64) -> usize
    requires { at + (length word.now + 41) ≤ length out.old }
    ensures { Added (length word.now + 41) (with_two word.now n m) out.old at out.new result }
{
    let next = put_one(out, at, word, n);
    put_one(out, next, b" ", m)
}

fn put_pitch(out: &mut [u8], at: usize, v: Pitch) -> usize
    requires { at + 50 ≤ length out.old }
    ensures { Added 50 (pitch_text v) out.old at out.new result }
{
    let size = u64::from(v.unsigned_abs());
    if v < 0 {
        put_one(out, at, b"pitch -", size)
    } else {
        put_one(out, at, b"pitch ", size)
    }
}

fn put_walk_reply(out: &mut [u8], at: usize, reply: WalkReply) -> usize
    requires { at + 50 ≤ length out.old }
    ensures { Added 50 (walk_text reply) out.old at out.new result }
{
    match reply {
        WalkReply::Waiting(awaited) => put_one(out, at, b"waiting ", awaited),
        WalkReply::Spent => put(out, at, b"spent"),
        WalkReply::Quiet => put(out, at, b"quiet"),
        WalkReply::Returned(looks, waits) => put_two(out, at, b"returned ", looks, waits),
    }
}

fn put_reply(out: &mut [u8], at: usize, reply: Reply) -> usize
    requires { at + 50 ≤ length out.old }
    ensures { Added 50 (reply_text reply) out.old at out.new result }
{
    match reply {
        Reply::Made => put(out, at, b"made"),
        Reply::At(place) => put_one(out, at, b"at ", place),
        Reply::Pitch(v) => put_pitch(out, at, v),
        Reply::Left => put(out, at, b"left"),
        Reply::Claimed(slot) => put_one(out, at, b"claimed ", slot),
        Reply::Written(n) => put_one(out, at, b"written ", n),
        Reply::Swapped(slot) => put_one(out, at, b"swapped ", slot),
        Reply::Synced(mark) => put_one(out, at, b"synced ", mark),
        Reply::Raised => put(out, at, b"raised"),
        Reply::Shared => put(out, at, b"shared"),
        Reply::Walked(reply) => put_walk_reply(out, at, reply),
        Reply::Freed(slot, releases) => put_two(out, at, b"freed ", slot, releases),
        Reply::Refused(n) => put_one(out, at, b"refused ", n),
        Reply::Picked(slot) => put_one(out, at, b"picked ", slot),
    }
}

// Whether the longest line fits at a place of the buffer.
pub fn fits(out: &[u8], at: usize) -> bool
    ensures { result ≡ leb (at + printed_max) (length out.now) }
{
    let n = out.len();
    n >= PRINTED_MAX && at <= n - PRINTED_MAX
}

// What a line says after its number.
fn put_answer(out: &mut [u8], at: usize, reply: Option<Reply>) -> usize
    requires { at + 50 ≤ length out.old }
    ensures { Added 50 (answer_text reply) out.old at out.new result }
{
    match reply {
        Some(reply) => put_reply(out, at, reply),
        None => put(out, at, b"unread"),
    }
}

// A line, `(n reply)`; with no reply, `(n unread)`. Inlined, since passing the option on takes instructions.
#[inline(always)]
fn print_line(out: &mut [u8], at: usize, n: u64, reply: Option<Reply>) -> usize
    ensures { Printed (printed_line n (answer_text reply)) out.old at out.new result }
{
    if !fits(out, at) {
        return at;
    }
    let next = put_one(out, at, b"(", n);
    let next = put(out, next, b" ");
    let end = put_answer(out, next, reply);
    put(out, end, b")\n")
}

// The line for a reply, and for a line that is unread.
pub fn print_reply(out: &mut [u8], at: usize, n: u64, a: Reply) -> usize
    ensures { Printed (printed_line n (reply_text a)) out.old at out.new result }
{
    print_line(out, at, n, Some(a))
}

pub fn print_unread(out: &mut [u8], at: usize, n: u64) -> usize
    ensures { Printed (printed_line n (text "unread")) out.old at out.new result }
{
    print_line(out, at, n, None)
}
