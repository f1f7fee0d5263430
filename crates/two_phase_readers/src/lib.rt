// ENTER and LEAVE of the old store, in place on the lent words.
// Each is total, and its contract is the step of two_phase_law.
#![tactic(auto)]

ghost use Rattle.std.specs.Prelude.{◌≡◌, ◌<◌};
ghost use Rattle.calls.specs.Numbers.{place_picked};
ghost use Rattle.calls.specs.declared.Call.TheVariants.{Enter, Leave};
ghost use Rattle.statement.specs.Machine.{state, outcome};
ghost use Rattle.publication_law.specs.Table.{step};
ghost use Rattle.two_phase_law.specs.Steps.{onward, rules};

use calls::{PLACE_LOADED, PLACE_OPEN, PLACE_OUT, PLACE_PICKED, Pitch, Refusal, Reply};
use layout::{
    Reader, WORDS, current_of, indicator_of, put_indicator, put_reader, reader_at, readers_of,
    version_of,
};
use schemes::Scheme;
use two_phase_damage::TwoPhaseScheme;

// A reader one place on: 0 to 1, 1 to 4, 4 to 5.
fn advanced(mut x: Reader, version: u64, current: u64) -> Reader
    requires { x.place < place_picked }
    ensures { result ≡ onward version current x }
{
    let place = x.place;
    match place {
        PLACE_OUT => {
            x.place = PLACE_LOADED;
            x.first = version;
            x
        }
        PLACE_LOADED => {
            x.place = PLACE_OPEN;
            x
        }
        _ => {
            x.place = PLACE_PICKED;
            x.picked = current;
            x
        }
    }
}

// ENTER r: one place on, and from 1 to 4 one more in the indicator of the loaded version's parity.
// Replies with the place.
pub fn enter(words: &mut [u64], entries: &[Pitch], r: u16) -> Reply
    ensures { outcome result (state words.new entries.now)
        ≡ step rules (state words.old entries.now) (Enter r) }
{
    let Some(words) = words.as_mut_array::<WORDS>() else {
        return Refusal::Damaged.into();
    };
    if TwoPhaseScheme::is_damaged(words, entries.len()) {
        return Refusal::Damaged.into();
    }
    if r as u64 >= readers_of(words) {
        return Refusal::NoSuchReader.into();
    }
    let at = r as usize;
    let x = reader_at(words, at);
    if x.place >= PLACE_PICKED {
        return Refusal::ReaderTurn.into();
    }
    let i = (x.first % 2) as usize;
    let count = indicator_of(words, i);
    let moved = advanced(x, version_of(words), current_of(words));
    put_reader(words, at, moved);
    if x.place == PLACE_LOADED {
        put_indicator(words, i, count + 1);
        return Reply::At(moved.place);
    }
    Reply::At(moved.place)
}

// LEAVE r (places 4, 5): to 0, and one less in the indicator that r added to.
pub fn leave(words: &mut [u64], entries: &[Pitch], r: u16) -> Reply
    ensures { outcome result (state words.new entries.now)
        ≡ step rules (state words.old entries.now) (Leave r) }
{
    let Some(words) = words.as_mut_array::<WORDS>() else {
        return Refusal::Damaged.into();
    };
    if TwoPhaseScheme::is_damaged(words, entries.len()) {
        return Refusal::Damaged.into();
    }
    if r as u64 >= readers_of(words) {
        return Refusal::NoSuchReader.into();
    }
    let at = r as usize;
    let mut x = reader_at(words, at);
    if x.place < PLACE_OPEN {
        return Refusal::ReaderTurn.into();
    }
    let index = (x.first % 2) as usize;
    let count = indicator_of(words, index);
    x.place = PLACE_OUT;
    put_reader(words, at, x);
    put_indicator(words, index, count - 1);
    Reply::Left
}
