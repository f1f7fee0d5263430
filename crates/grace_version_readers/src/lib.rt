// ENTER and LEAVE of the new store, in place on the lent words.
// Each is total, and its contract is the step of grace_version_law.
#![tactic(auto)]

ghost use Rattle.std.specs.Prelude.{◌≡◌, false, List, ◌<◌, ℤ};
ghost use Rattle.calls.specs.Numbers.{readers_max};
ghost use Rattle.calls.specs.declared.Call.TheVariants.{Enter, Leave};
ghost use Rattle.layout.specs.Layout.{readers};
ghost use Rattle.statement.specs.Machine.{state, outcome};
ghost use Rattle.publication_law.specs.Table.{damaged, step};
ghost use Rattle.grace_version_law.specs.Steps.{rules};

use calls::{
    NOT_READING, PLACE_LOADED, PLACE_LOADED_AGAIN, PLACE_OPEN, PLACE_OUT, PLACE_PICKED,
    PLACE_PUBLISHED, Pitch, Refusal, Reply,
};
use grace_version_damage::GraceVersionScheme;
use layout::{WORDS, Words, current_of, put_reader, reader_at, readers_of, version_of};
use schemes::Scheme;

// ENTER of a reader that there is: 0 to 1 loads the version; 1 to 2 publishes it; 2 to 3 loads the version again;
// 3 to 4 publishes the second, always; 4 to 5 picks the current slot.
// At 3 an undamaged store's reader has published the first: where the two are equal, that is the same number.
// Nothing in the step from 3 to 4 compares the two, by request 4 of document 02: .ci/fourth-step reads the code for it.
fn advance(words: &mut Words, r: usize) -> Reply
    requires { (r < readers words.old) × (r < readers_max) }
    ensures { (es : List ℤ) → damaged rules (state words.old es) ≡ false →
        outcome result (state words.new es)
        ≡ step rules (state words.old es) (Enter r) }
{
    let mut x = reader_at(words, r);
    let place = x.place;
    match place {
        PLACE_OUT => {
            x.place = PLACE_LOADED;
            x.first = version_of(words);
            put_reader(words, r, x);
            Reply::At(PLACE_LOADED)
        }
        PLACE_LOADED => {
            x.place = PLACE_PUBLISHED;
            x.published = x.first;
            put_reader(words, r, x);
            Reply::At(PLACE_PUBLISHED)
        }
        PLACE_PUBLISHED => {
            x.place = PLACE_LOADED_AGAIN;
            x.second = version_of(words);
            put_reader(words, r, x);
            Reply::At(PLACE_LOADED_AGAIN)
        }
        PLACE_LOADED_AGAIN => {
            x.place = PLACE_OPEN;
            x.published = x.second;
            put_reader(words, r, x);
            Reply::At(PLACE_OPEN)
        }
        PLACE_OPEN => {
            x.place = PLACE_PICKED;
            x.picked = current_of(words);
            put_reader(words, r, x);
            Reply::At(PLACE_PICKED)
        }
        _ => Refusal::ReaderTurn.into(),
    }
}

// ENTER r: one place on. Replies with the place.
pub fn enter(words: &mut [u64], entries: &[Pitch], r: u16) -> Reply
    ensures { outcome result (state words.new entries.now)
        ≡ step rules (state words.old entries.now) (Enter r) }
{
    let Some(words) = words.as_mut_array::<WORDS>() else {
        return Refusal::Damaged.into();
    };
    if GraceVersionScheme::is_damaged(words, entries.len()) {
        return Refusal::Damaged.into();
    }
    if r as u64 >= readers_of(words) {
        return Refusal::NoSuchReader.into();
    }
    advance(words, r as usize)
}

// LEAVE r (places 4, 5): to 0, and NOT_READING is published.
pub fn leave(words: &mut [u64], entries: &[Pitch], r: u16) -> Reply
    ensures { outcome result (state words.new entries.now)
        ≡ step rules (state words.old entries.now) (Leave r) }
{
    let Some(words) = words.as_mut_array::<WORDS>() else {
        return Refusal::Damaged.into();
    };
    if GraceVersionScheme::is_damaged(words, entries.len()) {
        return Refusal::Damaged.into();
    }
    if r as u64 >= readers_of(words) {
        return Refusal::NoSuchReader.into();
    }
    let at = r as usize;
    let mut x = reader_at(words, at);
    if x.place < PLACE_OPEN {
        return Refusal::ReaderTurn.into();
    }
    x.place = PLACE_OUT;
    x.published = NOT_READING;
    put_reader(words, at, x);
    Reply::Left
}
