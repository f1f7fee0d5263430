// The run-sheet program: a sheet on standard input, and a line for each of its lines on standard output,
// with the first table that the file `card` has, in the folder where the program is started.
// It has the reading of the card's bytes, the loop of reads and writes, and nothing else;
// the card's lines are read by `card`, and the sheet's lines, commands and replies are read and printed by `sheet`.
#![tactic(auto)]

ghost use Rattle.std.specs.Prelude.{◌≤◌, ◌≡◌, IfOk, is_ok, length, take};
ghost use Rattle.sheet_law.specs.Printing.{printed_max};
ghost use Rattle.card_law.specs.Card.{card_kept, card_of};
ghost use Rattle.sheet.specs.Feeds.{SameLent, sheet_state_of};
ghost use Rattle.run_sheet.specs.TakenFrom.{TakenFrom, TakenFromSome};
ghost use Rattle.run_sheet.specs.ReadFed.{ReadFed};

use calls::{Pitch, TABLE};
use card_law::{CARD_KEPT, CARD_READ};
use layout::WORDS;
use sheet::{Kept, ROOM, Sheet};
use std::fmt::Display;
use std::fs::{File, Files};
use std::io::{Read, Write};
use std::{io, str};

// So many bytes at most are read of the sheet at once, and so many of the output written.
const BUFFER: usize = 65536;

// A line on standard error. Where it cannot be written the program goes on.
fn say<D: Display + Drop>(rt: &impl Eprint, line: D) {
    let _ = rt.eprintln(line);
}

// A message with the system's reason: what std prints of the error, up to the error's number.
fn say_failed(rt: &impl Eprint, what: &str, error: io::Error) {
    let mut text = [0u8; 256];
    let mut room = &mut text[..];
    let _ = write!(room, "{error}");
    let whole = str::from_utf8(&text).unwrap_or("").trim_end_matches('\0');
    let (reason, _) = whole.rsplit_once(" (os error ").unwrap_or((whole, ""));
    say(rt, format_args!("{what}: {reason}"));
}

// Why a card cannot be read.
#[derive(Drop)]
enum CardError {
    Open(io::Error),
    Read(io::Error),
    CutShort,
}

fn say_card_error(rt: &impl Eprint, error: CardError) {
    match error {
        CardError::Open(error) => say_failed(
            rt,
            "run_sheet: card, looked for in the folder where run_sheet was started",
            error,
        ),
        CardError::Read(error) => say_failed(rt, "run_sheet: card cannot be read", error),
        CardError::CutShort => say(rt, "run_sheet: card cannot be read: a read was cut short"),
    }
}

// Why a card of so many bytes and these entries, or with this bad line, has not the 32 lines of a first table;
// nothing where it has.
fn say_why(rt: &impl Eprint, size: usize, entries: Result<usize, usize>) {
    match entries {
        _ if size >= CARD_READ => say(rt, "run_sheet: card is too long: a first table is 32 lines"),
        Err(line) => say(rt, format_args!("run_sheet: card: line {line} is no pitch")),
        Ok(count) if count > TABLE => say(
            rt,
            "run_sheet: card has more than 32 lines, and a first table is 32",
        ),
        Ok(count) if count < TABLE => say(
            rt,
            format_args!("run_sheet: card has {count} lines, and a first table is 32"),
        ),
        Ok(_) => {}
    }
}

// Reads until the room is full, the file ends or a read fails; how many bytes it put at the start.
fn read_full(file: &mut impl Read, bytes: &mut [u8]) -> usize
    ensures { result ≤ length bytes.new }
{
    // (how far a read goes is known only after it, so that no `for` counts it)
    let mut done: usize = 0;
    while done < bytes.len() {
        match file.read(&mut bytes[done..]) {
            Ok(0) | Err(_) => break,
            Ok(n) => done += n,
        }
    }
    done
}

// That the card ends behind the bytes that were read.
fn card_ends(file: &mut impl Read) -> Result<(), CardError> {
    let mut more = [0u8; 1];
    match file.read(&mut more).map_err(CardError::Read)? {
        0 => Ok(()),
        _ => Err(CardError::CutShort),
    }
}

// The first bytes of the card, as many as there is room for: how many.
fn read_card_file(rt: &impl Files, bytes: &mut [u8]) -> Result<usize, CardError>
    ensures { IfOk result (λ size. size ≤ length bytes.new) }
{
    let mut file = File::open(rt, "card").map_err(CardError::Open)?;
    let size = read_full(&mut file, bytes);
    if size < bytes.len() {
        card_ends(&mut file)?;
    }
    Ok(size)
}

// How many bytes were read of the card, and how many entries these have.
#[derive(Drop)]
struct CardTaken {
    size: usize,
    count: usize,
}

// The entries of a card's first bytes, as many as there is room for: how many; a message where they are no first table.
fn take_entries(rt: &impl Eprint, bytes: &[u8], room: &mut [Pitch]) -> usize
    ensures within { result ≤ length room.old }
    ensures entries { take result room.new ≡ take (length room.old) (card_of bytes.now) }
{
    let entries = card::read_card(bytes, room);
    say_why(rt, bytes.len(), entries);
    entries.unwrap_or(0)
}

// The card's first bytes, and their entries; a message where the card cannot be read, or is no first table.
fn take_card(rt: &(impl Files + Eprint), bytes: &mut [u8], room: &mut [Pitch]) -> CardTaken
    requires { length room.old ≡ card_kept }
    ensures { TakenFrom bytes.new result.size room.new result.count }
{
    match read_card_file(rt, bytes) {
        Ok(size) => {
            let count = take_entries(rt, &bytes[..size], room);
            CardTaken { size, count }
        }
        Err(error) => {
            say_card_error(rt, error);
            CardTaken { size: 0, count: 0 }
        }
    }
}

// The card's entries: how many. The bytes read of the card take no stack while the sheet is played, since this function is called.
#[inline(never)]
fn take_first_table(rt: &(impl Files + Eprint), room: &mut [Pitch]) -> usize
    requires { length room.old ≡ card_kept }
    ensures { TakenFromSome room.new result }
{
    let mut bytes = [0u8; CARD_READ];
    take_card(rt, &mut bytes, room).count
}

// One read: how many bytes it brought, 0 at the end of the input and, with a message, where it failed.
fn read_some(rt: &impl Eprint, stdin: &mut impl Read, input: &mut [u8]) -> usize
    ensures within { result ≤ length input.new }
    ensures prefix { result ≡ length (take result input.new) }
{
    match stdin.read(input) {
        Ok(n) => n,
        Err(_) => {
            say(rt, "run_sheet: standard input cannot be read");
            0
        }
    }
}

// The bytes of one read: the output is written whenever it is full, and at their end.
// The sheet's state is then what the bytes fed make of it: the first of the read, and all of them if all could be written.
fn feed_read(rt: &impl Print, sheet: &mut Sheet, input: &[u8], out: &mut [u8]) -> io::Result<()>
    requires { printed_max ≤ length out.old }
    ensures fed { ReadFed sheet.old.table.now
        (sheet_state_of sheet.old)
        input.now
        (sheet_state_of sheet.new)
        (is_ok result) }
    ensures lent { SameLent sheet.old sheet.new }
{
    let mut rest = input;
    while !rest.is_empty() {
        let fed = sheet.feed(rest, out);
        rest = &rest[fed.used..];
        rt.write_all(&out[..fed.made])?;
    }
    Ok(())
}

// The sheet on standard input, to its end, with a first table. An error is one of writing.
// A proved loop has to end, and nothing says that the input does:
// the loop counts its reads, up to a number that no run uses up.
fn play_sheet(
    rt: &(impl Print + Eprint),
    stdin: &mut impl Read,
    table: &[Pitch],
) -> io::Result<()> {
    let mut words = [0u64; WORDS];
    let mut room: [Pitch; ROOM] = [0; ROOM];
    let mut sheet = Sheet {
        words: &mut words,
        room: &mut room,
        table,
        kept: Kept::new(),
    };
    let mut input = [0u8; BUFFER];
    let mut out = [0u8; BUFFER];
    for _ in 0..u64::MAX {
        let n = read_some(rt, stdin, &mut input);
        if n == 0 {
            break;
        }
        feed_read(rt, &mut sheet, &input[..n], &mut out)?;
    }
    let made = sheet.finish(&mut out).made;
    rt.write_all(&out[..made])
}

fn main(rt: HostRuntime) {
    let mut room: [Pitch; CARD_KEPT] = [0; CARD_KEPT];
    let count = take_first_table(&rt, &mut room);
    if count != TABLE {
        say(
            &rt,
            "run_sheet: without a first table each store line is refused with 40, or with a number that is tested before it",
        );
    }
    if play_sheet(&rt, &mut rt.stdin(), &room[..count]).is_err() {
        say(&rt, "run_sheet: standard output cannot be written");
    }
}
