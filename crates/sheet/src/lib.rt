// A run sheet from bytes to bytes, by the definition of sheet_law, however the input is cut into reads,
// on the lent words of a store and the lent room for its entries, with the lent first table.
// `feed` takes the bytes of a read and prints a line for each line that ends in them, as far as the output has room;
// `finish` is for the end of the input. Both are methods of a sheet, and functions for whoever keeps a line in lent bytes.
#![tactic(auto)]

ghost use Rattle.std.specs.Prelude.{◌≤◌, ◌≡◌, [], length, take};
ghost use Rattle.lines_law.specs.Lines.{ending, is_empty, joined};
ghost use Rattle.sheet_law.specs.Reading.{line_of};
ghost use Rattle.sheet_law.specs.Sheet.{next_line, sheet_reader};
ghost use Rattle.sheet.specs.Begun.{begun};

use calls::{Pitch, SLOTS_MAX, TABLE};
use sheet_law::{Command, LINE_MAX};
use sheet_playing::{known, play};
use sheet_printing::{fits, print_reply, print_unread};
use sheet_reading::parse;
use std::marker::Model;

mod lent;

pub use lent::{LentFed, feed, finish};

const NEWLINE: u8 = b'\n';

// How many bytes of a line are kept: one more than a line may have.
pub const KEPT: usize = LINE_MAX + 1;

// Room for the entries of the largest store.
pub const ROOM: usize = SLOTS_MAX as usize * TABLE;

// What is kept from read to read: how many lines were read, and of the next line its first bytes.
#[derive(Drop)]
pub struct Kept {
    pub lines: u64,
    pub bytes: [u8; KEPT],
    // how many of the bytes are the line's
    pub count: usize,
}

impl Model for Kept {
    ghost use Rattle.std.specs.Prelude.{take};
    ghost use Rattle.sheet.specs.Begun.{Begun, begun};

    ghost Value = { Begun };

    ghost view = { λ k. begun k.lines (take k.count k.bytes) };
}

impl Kept {
    // Before the first line.
    pub fn new() -> Self
        ensures { result ≡ begun 0 [] }
    {
        Kept {
            lines: 0,
            bytes: [0; KEPT],
            count: 0,
        }
    }

    // After so many lines, with a line begun in these bytes.
    pub fn from_bytes(lines: u64, bytes: [u8; KEPT], count: usize) -> Self
        ensures { result ≡ begun lines (take count bytes) }
    {
        Kept {
            lines,
            bytes,
            count,
        }
    }

    // A byte joins its line, which is the same with every table.
    fn keep(&mut self, b: u8)
        ensures { self.new ≡ begun self.old.lines (joined (sheet_reader []) self.old.bytes b) }
    {
        if self.count < KEPT {
            self.bytes[self.count] = b;
            self.count += 1;
        }
    }

    // What the line that is kept says.
    fn line(&self) -> Option<Command>
        ensures { result ≡ line_of self.now.bytes }
    {
        parse(self.bytes.get(..self.count)?)
    }

    // The line ends: its number.
    fn end_line(&mut self) -> u64
        ensures number { result ≡ next_line self.old.lines }
        ensures next { self.new ≡ begun (next_line self.old.lines) [] }
    {
        self.lines = self.lines.wrapping_add(1);
        self.count = 0;
        self.lines
    }

    // Puts the line into lent bytes: how many lines were read, and how many of the bytes are the line's.
    fn put(&self, bytes: &mut [u8; KEPT]) -> (u64, usize)
        ensures { begun result.0 (take result.1 bytes.new) ≡ self.now }
    {
        let held = self.bytes;
        *bytes = held;
        (self.lines, self.count)
    }

    fn is_empty(&self) -> bool
        ensures { result ≡ is_empty self.now.bytes }
    {
        self.count == 0
    }
}

// How far the input was taken and the output printed.
#[derive(Drop)]
pub struct Fed {
    // how many bytes of the input were taken
    pub used: usize,
    // how many bytes of the output were printed
    pub made: usize,
}

// A sheet that is played: the lent words of a store, the lent room for its entries, the lent first table,
// and what is kept from read to read.
#[derive(Drop)]
pub struct Sheet<'a> {
    pub words: &'a mut [u64],
    pub room: &'a mut [Pitch],
    pub table: &'a [Pitch],
    pub kept: Kept,
}

impl Sheet<'_> {
    ghost use Rattle.sheet.specs.Feeds.{Feeds, SameLent, sheet_state_of};

    // The bytes of a read: each line that ends in them is played, and its line printed, from the start of the output on,
    // as far as there is room.
    pub fn feed(&mut self, input: &[u8], out: &mut [u8]) -> Fed
        ensures feeds { Feeds self.old.table.now
            (sheet_state_of self.old)
            input.now result.used
            (sheet_state_of self.new)
            out.old out.new result.made }
        ensures within { result.used ≤ length input.now }
        ensures lent { SameLent self.old self.new }
    {
        let table = self.table;
        let mut made: usize = 0;
        for (used, &b) in input.iter().enumerate() {
            if b != NEWLINE {
                self.kept.keep(b);
                continue;
            }
            if !fits(out, made) {
                return Fed { used, made };
            }
            let line = self.kept.line();
            let number = self.kept.end_line();
            let words = &mut *self.words;
            let Some(command) = known(words, line) else {
                made = print_unread(out, made, number);
                continue;
            };
            let reply = play(words, self.room, table, command);
            made = print_reply(out, made, number, reply);
        }
        Fed {
            used: input.len(),
            made,
        }
    }

    // The end of the input: the last line may lack its newline.
    pub fn finish(&mut self, out: &mut [u8]) -> Fed
        ensures feeds { Feeds self.old.table.now
            (sheet_state_of self.old)
            (ending self.old.kept.bytes) result.used
            (sheet_state_of self.new)
            out.old out.new result.made }
        ensures lent { SameLent self.old self.new }
    {
        if self.kept.is_empty() {
            return Fed { used: 0, made: 0 };
        }
        self.feed(b"\n", out)
    }
}
