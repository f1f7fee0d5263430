// CLAIM, SWAP and RELEASE of words that are not damaged: the calls that move a slot. Every kind has the first two, new and old the third.
// A kind tests for damage first, and asks nothing of its own callers.
// The contracts cite publication_law.
#![tactic(auto)]

ghost use Rattle.std.specs.Prelude.{◌≡◌, ℕ, ◌<◌, ◌≤◌, true, ◌&&◌, List, ℤ};
ghost use Rattle.base.specs.Rows.{any_below};
ghost use Rattle.calls.specs.Numbers.{publishers_max, deferred_max};
ghost use Rattle.layout.specs.Layout.{publishers, retirement_at};
ghost use Rattle.statement.specs.Machine.{state, outcome, retired_slot};
ghost use Rattle.publication_law.specs.Steps.{decide, another_busy, in_use, claim_tests, claim, swap_tests, swap, release_tests, release};
ghost use Rattle.publication_law.specs.InBounds.{InBounds};

use calls::{
    PLACE_CLAIMED, PLACE_IDLE, PLACE_RETURNED, PLACE_SWAPPED, PLACE_WRITTEN, Refusal, Reply,
};
use layout::{
    Publisher, Words, current_of, publisher_at, publisher_place, publishers_of, put_current,
    put_publisher, put_releases, releases_of, retired_at, retirement_at, slots_of,
};

// Whether a publisher other than p is at a place other than 0.
fn another_busy(words: &Words, p: u16) -> bool
    requires { InBounds words.now }
    ensures { (es : List ℤ) → result ≡ another_busy (state words.now es) p }
{
    (0..publishers_of(words)).any(|q| q != p as u64
        && publisher_place(words, q as usize) != PLACE_IDLE)
}

// Whether 31 is given: only in an exclusive kind.
fn busy(words: &Words, p: u16, exclusive: bool) -> bool
    requires { InBounds words.now }
    ensures { (es : List ℤ) → result ≡ (exclusive && another_busy (state words.now es) p) }
{
    exclusive && another_busy(words, p)
}

// Whether publisher q has retired a slot that is not yet free. This and the two below are loops: by Iterator::any a CLAIM of rest takes 16 instructions more with 16 participants, which is above the limit.
fn has_retired(words: &Words, q: usize, slot: u64) -> bool
    requires { (q < publishers_max) × ((retirement_at words.now q).count ≤ deferred_max) }
    ensures { (es : List ℤ) → result ≡ retired_slot (state words.now es) q slot }
{
    let t = retirement_at(words, q);
    let n = t.count;
    for i in 0..n {
        let d = retired_at(words, q, i as usize);
        if d.slot == slot {
            return true;
        }
    }
    false
}

// Whether a publisher has.
fn any_retired(words: &Words, slot: u64) -> bool
    requires { InBounds words.now × ((q : ℕ) → q < publishers words.now → (retirement_at words.now q).count ≤ deferred_max) }
    ensures { (es : List ℤ) → result ≡ any_below (λ q. retired_slot (state words.now es) q slot) (publishers words.now) }
{
    let n = publishers_of(words);
    for q in 0..n {
        if has_retired(words, q as usize, slot) {
            return true;
        }
    }
    false
}

// Whether a slot is not free. Retired slots are looked at only in a kind that retires slots.
fn in_use(words: &Words, slot: u64, retiring: bool) -> bool
    requires { InBounds words.now × (retiring ≡ true → (q : ℕ) → q < publishers words.now → (retirement_at words.now q).count ≤ deferred_max) }
    ensures { (es : List ℤ) → result ≡ in_use retiring (state words.now es) slot }
{
    if current_of(words) == slot {
        return true;
    }
    let n = publishers_of(words);
    for q in 0..n {
        let y = publisher_at(words, q as usize);
        if (y.place != PLACE_IDLE) & (y.held == slot) {
            return true;
        }
    }
    if retiring {
        return any_retired(words, slot);
    }
    false
}

// CLAIM p s: 0 to 1, holds s. Whether 31 is given is the kind's own, and whether its publishers retire slots.
pub fn claim_slot(words: &mut Words, p: u16, slot: u16, exclusive: bool, retiring: bool) -> Reply
    requires { InBounds words.old × (retiring ≡ true → (q : ℕ) → q < publishers words.old → (retirement_at words.old q).count ≤ deferred_max) }
    ensures { (es : List ℤ) → let s = state words.old es in
        outcome result (state words.new es)
        ≡ decide (claim_tests exclusive retiring s p slot) (claim s p slot) s }
{
    if p as u64 >= publishers_of(words) {
        return Refusal::NoSuchPublisher.into();
    }
    let wanted = slot as u64;
    if wanted >= slots_of(words) {
        return Refusal::NoSuchSlot.into();
    }
    let at = p as usize;
    let y = publisher_at(words, at);
    match y.place {
        PLACE_IDLE => {
            if busy(words, p, exclusive) {
                return Refusal::Busy.into();
            }
            if in_use(words, wanted, retiring) {
                return Refusal::SlotInUse.into();
            }
            put_publisher(
                words,
                at,
                Publisher {
                    place: PLACE_CLAIMED,
                    held: wanted,
                    ..y
                },
            );
            Reply::Claimed(wanted)
        }
        _ => Refusal::PublisherTurn.into(),
    }
}

// SWAP p: 33 to 34. Its slot becomes current; it holds the former one, and replies with that.
pub fn swap_in(words: &mut Words, p: u16) -> Reply
    requires { InBounds words.old }
    ensures { (es : List ℤ) → let s = state words.old es in
        outcome result (state words.new es)
        ≡ decide (swap_tests s p) (swap s p) s }
{
    if p as u64 >= publishers_of(words) {
        return Refusal::NoSuchPublisher.into();
    }
    let at = p as usize;
    let y = publisher_at(words, at);
    match y.place {
        PLACE_WRITTEN => {
            let former = current_of(words);
            put_publisher(
                words,
                at,
                Publisher {
                    place: PLACE_SWAPPED,
                    held: former,
                    ..y
                },
            );
            put_current(words, y.held);
            Reply::Swapped(former)
        }
        _ => Refusal::PublisherTurn.into(),
    }
}

// RELEASE p: 38 to 0, which frees the held slot; one more release.
pub fn release_slot(words: &mut Words, p: u16) -> Reply
    requires { InBounds words.old }
    ensures { (es : List ℤ) → let s = state words.old es in
        outcome result (state words.new es)
        ≡ decide (release_tests s p) (release s p) s }
{
    if p as u64 >= publishers_of(words) {
        return Refusal::NoSuchPublisher.into();
    }
    let at = p as usize;
    let y = publisher_at(words, at);
    match y.place {
        PLACE_RETURNED => {
            let releases = releases_of(words).wrapping_add(1);
            put_publisher(
                words,
                at,
                Publisher {
                    place: PLACE_IDLE,
                    ..y
                },
            );
            put_releases(words, releases);
            Reply::Freed(y.held, releases)
        }
        _ => Refusal::PublisherTurn.into(),
    }
}
