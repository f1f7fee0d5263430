// DEFER of the rest store, in place on the lent words.
// It is total, and its contract is the step of qsbr_law.
#![tactic(auto)]

ghost use Rattle.std.specs.Prelude.{◌≡◌, List, ◌<◌, ℤ};
ghost use Rattle.calls.specs.declared.Call.TheVariants.{Defer};
ghost use Rattle.calls.specs.Numbers.{publishers_max, deferred_max};
ghost use Rattle.layout.specs.Layout.{version, retirement_at};
ghost use Rattle.statement.specs.Machine.{state, outcome};
ghost use Rattle.publication_law.specs.Table.{step};
ghost use Rattle.qsbr_law.specs.Steps.{last_version, raise_epoch, queue, rules};

use calls::{
    DEFERRED_MAX, PLACE_DEFERRING, PLACE_IDLE, PLACE_OUT, PLACE_SWAPPED, Pitch, Refusal, Reply,
};
use layout::{
    Retired, WORDS, Words, publisher_at, publisher_place, publishers_of, put_publisher, put_reader,
    put_retired, put_retirement, put_version, reader_at, retirement_at, version_of,
};
use qsbr_damage::QsbrScheme;
use qsbr_law::LAST;
use schemes::Scheme;

// At 34: drops the pick and raises the epoch; the raised one is the mark.
fn raise_epoch(words: &mut Words, p: usize) -> Reply
    requires { (p < publishers_max) × (version words.old < last_version) }
    ensures { (es : List ℤ) → outcome result (state words.new es) ≡ raise_epoch (state words.old es) p }
{
    let mut x = reader_at(words, p);
    let mut y = publisher_at(words, p);
    let version = version_of(words);
    let epoch = version + 1;
    x.place = PLACE_OUT;
    y.place = PLACE_DEFERRING;
    y.walk.mark = epoch;
    put_reader(words, p, x);
    put_publisher(words, p, y);
    put_version(words, epoch);
    Reply::At(PLACE_DEFERRING)
}

// At 35: observes the mark, and queues the held slot with it.
fn queue_slot(words: &mut Words, p: usize) -> Reply
    requires { (p < publishers_max) × ((retirement_at words.old p).count < deferred_max) }
    ensures { (es : List ℤ) → outcome result (state words.new es) ≡ queue (state words.old es) p }
{
    let mut x = reader_at(words, p);
    let mut y = publisher_at(words, p);
    let mut t = retirement_at(words, p);
    let mark = y.walk.mark;
    let count = t.count;
    let d = Retired { slot: y.held, mark };
    x.published = mark;
    y.place = PLACE_IDLE;
    t.count = count + 1;
    put_reader(words, p, x);
    put_publisher(words, p, y);
    put_retired(words, p, count as usize, d);
    put_retirement(words, p, t);
    Reply::At(PLACE_IDLE)
}

// DEFER p: 34 to 35 and 35 to 0. 21 at any other place and inside a checkpoint; at 34 also 43 and 44.
pub fn defer(words: &mut [u64], entries: &[Pitch], p: u16) -> Reply
    ensures { outcome result (state words.new entries.now)
        ≡ step rules (state words.old entries.now) (Defer p) }
{
    let Some(words) = words.as_mut_array::<WORDS>() else {
        return Refusal::Damaged.into();
    };
    if QsbrScheme::is_damaged(words, entries.len()) {
        return Refusal::Damaged.into();
    }
    if p as u64 >= publishers_of(words) {
        return Refusal::NoSuchPublisher.into();
    }
    let at = p as usize;
    let t = retirement_at(words, at);
    if t.step != 0 {
        return Refusal::PublisherTurn.into();
    }
    let place = publisher_place(words, at);
    match place {
        PLACE_SWAPPED => {
            if version_of(words) == LAST {
                return Refusal::EpochIsLast.into();
            }
            if t.count == DEFERRED_MAX {
                return Refusal::TooManyDeferred.into();
            }
            raise_epoch(words, at)
        }
        PLACE_DEFERRING => queue_slot(words, at),
        _ => Refusal::PublisherTurn.into(),
    }
}
