// PICK of the rest store, in place on the lent words.
// It is total, and its contract is the step of qsbr_law.
#![tactic(auto)]

ghost use Rattle.std.specs.Prelude.{◌≡◌};
ghost use Rattle.calls.specs.declared.Call.TheVariants.{Pick};
ghost use Rattle.statement.specs.Machine.{state, outcome};
ghost use Rattle.publication_law.specs.Table.{step};
ghost use Rattle.qsbr_law.specs.Steps.{rules};

use calls::{PLACE_DEFERRING, PLACE_PICKED, Pitch, Refusal, Reply};
use layout::{
    WORDS, current_of, publisher_place, put_reader, reader_at, readers_of, retirement_at,
};
use qsbr_damage::QsbrScheme;
use schemes::Scheme;

// PICK r picks the current slot, and replies with it. 20 inside a checkpoint and at 35.
pub fn pick(words: &mut [u64], entries: &[Pitch], r: u16) -> Reply
    ensures { outcome result (state words.new entries.now)
        ≡ step rules (state words.old entries.now) (Pick r) }
{
    let Some(words) = words.as_mut_array::<WORDS>() else {
        return Refusal::Damaged.into();
    };
    if QsbrScheme::is_damaged(words, entries.len()) {
        return Refusal::Damaged.into();
    }
    if r as u64 >= readers_of(words) {
        return Refusal::NoSuchReader.into();
    }
    let at = r as usize;
    let t = retirement_at(words, at);
    if t.step != 0 {
        return Refusal::ReaderTurn.into();
    }
    if publisher_place(words, at) == PLACE_DEFERRING {
        return Refusal::ReaderTurn.into();
    }
    let mut x = reader_at(words, at);
    let slot = current_of(words);
    x.place = PLACE_PICKED;
    x.picked = slot;
    put_reader(words, at, x);
    Reply::Picked(slot)
}
