// What a run sheet is: what its lines say, what is printed for each, and the whole sheet, bytes in to bytes out.
// Code: what a line gives, as values. specs/: the definitions, and what is proved about them.
#![tactic(auto)]

use calls::Call;

// A line has at most 80 bytes, without its newline.
pub const LINE_MAX: usize = 80;

// No printed line is longer: the longest has three numbers of 20 digits beside `( returned  )` and its newline.
pub const PRINTED_MAX: usize = 74;

// The greatest argument of 16 bits.
pub const NARROW_MAX: u64 = 65535;

// The words that begin a line.
#[derive(Clone, Copy)]
pub enum Keyword {
    Store,
    Enter,
    Look,
    Leave,
    Claim,
    Write,
    Swap,
    Sync,
    Raise,
    Walk,
    Release,
    Pick,
    Checkpoint,
    Defer,
}

// What a line says. A line that is not read gives no command.
#[derive(Clone, Copy)]
pub enum Command {
    // the kind's number, readers, publishers, slots, first version
    Make(u16, u16, u16, u16, u64),
    Run(Call),
}
