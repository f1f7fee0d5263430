// A run sheet's line to a command, by the definition of sheet_law.
// A word, its arguments, and the whole line; only `parse` is for others.
#![tactic(auto)]

ghost use Rattle.std.specs.Prelude.{◌≡◌};
ghost use Rattle.sheet_law.specs.Reading.{keyword as Reading·keyword, narrow as Reading·narrow, kind_named, store_line, store_line_rest, command as Reading·command, line_of};

use calls::{Call, KIND_NEW, KIND_OLD, KIND_REST, NUMBER_MAX};
use sheet_fields::{angle, number, same, split_at_space};
use sheet_law::{Command, Keyword, LINE_MAX, NARROW_MAX};

const OPEN: u8 = b'(';

const CLOSE: u8 = b')';

// The word that begins a line.
// (a `match` on the words leaves a goal open for each byte that it compares)
#[tactic(auto, unfolding(sheet_law::specs::Reading::named_in))]
fn keyword(s: &[u8]) -> Option<Keyword>
    ensures { result ≡ Reading·keyword s.now }
{
    if same(s, b"store") {
        Some(Keyword::Store)
    } else if same(s, b"enter") {
        Some(Keyword::Enter)
    } else if same(s, b"look") {
        Some(Keyword::Look)
    } else if same(s, b"leave") {
        Some(Keyword::Leave)
    } else if same(s, b"claim") {
        Some(Keyword::Claim)
    } else if same(s, b"write") {
        Some(Keyword::Write)
    } else if same(s, b"swap") {
        Some(Keyword::Swap)
    } else if same(s, b"sync") {
        Some(Keyword::Sync)
    } else if same(s, b"raise") {
        Some(Keyword::Raise)
    } else if same(s, b"walk") {
        Some(Keyword::Walk)
    } else if same(s, b"release") {
        Some(Keyword::Release)
    } else if same(s, b"pick") {
        Some(Keyword::Pick)
    } else if same(s, b"checkpoint") {
        Some(Keyword::Checkpoint)
    } else if same(s, b"defer") {
        Some(Keyword::Defer)
    } else {
        None
    }
}

// The number of the kind that a word names.
#[tactic(auto, unfolding(sheet_law::specs::Reading::named_in))]
fn kind(s: &[u8]) -> Option<u16>
    ensures { result ≡ kind_named s.now }
{
    if same(s, b"new") {
        Some(KIND_NEW as u16)
    } else if same(s, b"old") {
        Some(KIND_OLD as u16)
    } else if same(s, b"rest") {
        Some(KIND_REST as u16)
    } else {
        None
    }
}

// An argument of 16 bits.
#[tactic(auto, using(sheet_law::proofs::Widths::at_most_bound))]
fn narrow(s: &[u8]) -> Option<u16>
    ensures { result ≡ Reading·narrow s.now }
{
    Some(number(s, NARROW_MAX)? as u16)
}

// The kind and the readers, with the sizes after them.
fn store_line(s: &[u8]) -> Option<Command>
    ensures { result ≡ store_line s.now }
{
    let (k, rest) = split_at_space(s);
    let (readers, sizes) = split_at_space(rest);
    store_line_rest(kind(k)?, narrow(readers)?, sizes)
}

// The publishers, the slots and the first version.
fn store_line_rest(kind: u16, readers: u16, s: &[u8]) -> Option<Command>
    ensures { result ≡ store_line_rest kind readers s.now }
{
    let (publishers, rest) = split_at_space(s);
    let (slots, version) = split_at_space(rest);
    Some(Command::Make(
        kind,
        readers,
        narrow(publishers)?,
        narrow(slots)?,
        number(version, NUMBER_MAX)?,
    ))
}

// A word with its arguments: all of the text as one number,
// or a number up to the space and a number or a pitch after it.
fn command(w: Keyword, s: &[u8]) -> Option<Command>
    ensures { result ≡ Reading·command w s.now }
{
    let (before, after) = split_at_space(s);
    Some(Command::Run(match w {
        Keyword::Store => return store_line(s),
        Keyword::Enter => Call::Enter(narrow(s)?),
        Keyword::Look => Call::Look(narrow(before)?, narrow(after)?),
        Keyword::Leave => Call::Leave(narrow(s)?),
        Keyword::Claim => Call::Claim(narrow(before)?, narrow(after)?),
        Keyword::Write => Call::Write(narrow(before)?, angle(after)?),
        Keyword::Swap => Call::Swap(narrow(s)?),
        Keyword::Sync => Call::Sync(narrow(s)?),
        Keyword::Raise => Call::Raise(narrow(s)?),
        Keyword::Walk => Call::Walk(narrow(before)?, narrow(after)?),
        Keyword::Release => Call::Release(narrow(s)?),
        Keyword::Pick => Call::Pick(narrow(s)?),
        Keyword::Checkpoint => Call::Checkpoint(narrow(s)?),
        Keyword::Defer => Call::Defer(narrow(s)?),
    }))
}

// A line, without its newline.
#[tactic(auto, unfolding(sheet_law::specs::Reading::line_of))]
pub fn parse(line: &[u8]) -> Option<Command>
    ensures { result ≡ line_of line.now }
{
    if line.len() > LINE_MAX {
        return None;
    }
    let [OPEN, inner @ .., CLOSE] = line else {
        return None;
    };
    let (word, arguments) = split_at_space(inner);
    command(keyword(word)?, arguments)
}
