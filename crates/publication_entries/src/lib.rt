// LOOK and WRITE of words that are not damaged, which the kinds share: the calls that read or store an entry.
// A kind tests for damage first, and asks nothing of its own callers.
// The contracts cite publication_law.
#![tactic(auto)]

ghost use Rattle.std.specs.Prelude.{◌≡◌, ◌*◌, length};
ghost use Rattle.calls.specs.Numbers.{table_length};
ghost use Rattle.layout.specs.Layout.{slots};
ghost use Rattle.statement.specs.Machine.{state, outcome};
ghost use Rattle.publication_law.specs.Steps.{decide, look_tests, look, write_tests, write};
ghost use Rattle.publication_law.specs.InBounds.{InBounds};

use calls::{PLACE_PICKED, Pitch, Refusal, Reply, TABLE};
use layout::{Publisher, Words, publisher_at, publishers_of, put_publisher, reader_at, readers_of};
use publication_tables::out_of_range;

// LOOK r k (place 5): entry k of the picked slot.
pub fn look_up(words: &Words, entries: &[Pitch], r: u16, k: u16) -> Reply
    requires { InBounds words.now × (length entries.now ≡ slots words.now * table_length) }
    ensures { let s = state words.now entries.now in
        outcome result s
        ≡ decide (look_tests s r k) (look s r k) s }
{
    if r as u64 >= readers_of(words) {
        return Refusal::NoSuchReader.into();
    }
    if k as usize >= TABLE {
        return Refusal::NoSuchEntry.into();
    }
    let x = reader_at(words, r as usize);
    if x.place != PLACE_PICKED {
        return Refusal::ReaderTurn.into();
    }
    let v = entries[x.picked as usize * TABLE + k as usize];
    Reply::Pitch(v)
}

// WRITE p v: stores the next entry, and replies with the number written.
pub fn write_entry(words: &mut Words, entries: &mut [Pitch], p: u16, v: Pitch) -> Reply
    requires { InBounds words.old × (length entries.old ≡ slots words.old * table_length) }
    ensures { let s = state words.old entries.old in
        outcome result (state words.new entries.new)
        ≡ decide (write_tests s p v) (write s p v) s }
{
    if p as u64 >= publishers_of(words) {
        return Refusal::NoSuchPublisher.into();
    }
    if out_of_range(v) {
        return Refusal::BadPitch.into();
    }
    let at = p as usize;
    let y = publisher_at(words, at);
    match y.place {
        1..=32 => {
            put_publisher(
                words,
                at,
                Publisher {
                    place: y.place + 1,
                    ..y
                },
            );
            entries[y.held as usize * TABLE + (y.place as usize - 1)] = v;
            Reply::Written(y.place)
        }
        _ => Refusal::PublisherTurn.into(),
    }
}
