// One line of a run sheet: whether the store's kind has its call, and its command played on the lent words of the store
// and the lent room for its entries, with the lent first table, by the definition of sheet_law.
#![tactic(auto)]

ghost use Rattle.std.specs.Prelude.{◌*◌, ◌≡◌, min};
ghost use Rattle.calls.specs.Numbers.{table_length};
ghost use Rattle.layout.specs.Layout.{kind_word};
ghost use Rattle.statement.specs.Machine.{state, outcome};
ghost use Rattle.kinds_law.specs.Kinds.{lacked_by};
ghost use Rattle.sheet_law.specs.Sheet.{played, known as Sheet·known};

use calls::{Call, Pitch, Refusal, Reply, TABLE};
use kinds::kind_of;
use kinds_law::Kind;
use layout::{WORDS, slots_of};
use sheet_law::Command;

// Whether a kind lacks a call. Words of no kind lack none.
fn lacks(kind: Option<Kind>, call: Call) -> bool
    ensures { result ≡ lacked_by kind call }
{
    match call {
        Call::Look(..) | Call::Claim(..) | Call::Write(..) | Call::Swap(_) => false,
        Call::Pick(_) | Call::Checkpoint(_) | Call::Defer(_) => {
            kind == Some(Kind::New) || kind == Some(Kind::Old)
        }
        _ => kind == Some(Kind::Rest),
    }
}

// A line as the store's kind has it: a call that the kind lacks is unread.
pub fn known(words: &[u64], line: Option<Command>) -> Option<Command>
    ensures { result ≡ Sheet·known (kind_word words.now) line }
{
    match line? {
        Command::Run(call) if lacks(kind_of(words), call) => None,
        command => Some(command),
    }
}

// How many entries of a room a store of some slots is lent: all of the room where it is too small.
fn part(slots: u64, room: usize) -> usize
    ensures { result ≡ min (slots * table_length) room }
{
    slots.saturating_mul(TABLE as u64).min(room as u64) as usize
}

// One command: a making, which is lent the table, or a call on the made store.
pub fn play(words: &mut [u64], room: &mut [Pitch], table: &[Pitch], command: Command) -> Reply
    ensures { outcome result (state words.new room.new)
        ≡ played table.now (state words.old room.old) command }
{
    match command {
        Command::Make(kind, readers, publishers, slots, version) => {
            let n = part(slots as u64, room.len());
            kinds::make(
                words,
                &mut room[..n],
                table,
                kind,
                readers,
                publishers,
                slots,
                version,
            )
        }
        Command::Run(call) => {
            let Some(made) = words.as_array::<WORDS>() else {
                return Refusal::Damaged.into();
            };
            let n = part(slots_of(made), room.len());
            kinds::run(words, &mut room[..n], call)
        }
    }
}
