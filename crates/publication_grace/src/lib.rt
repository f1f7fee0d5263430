// SYNC, RAISE and the end of a WALK of words that are not damaged, which the kinds share:
// a publisher's wait for a grace period.
// A kind tests for damage first, and asks nothing of its own callers.
// The contracts cite publication_law.
#![tactic(auto)]

ghost use Rattle.std.specs.Prelude.{◌≡◌, ◌+◌, ◌%◌, ◌<◌, List, ℤ, nat_eq, nat_lt};
ghost use Rattle.calls.specs.Numbers.{number_max, number_modulus};
ghost use Rattle.layout.specs.Layout.{publishers, version, publisher_at};
ghost use Rattle.statement.specs.Machine.{state, outcome};
ghost use Rattle.publication_law.specs.Steps.{Versions, decide, publisher, sync_tests, sync, raise_tests, raise, walk, place_after};
ghost use Rattle.publication_law.specs.InBounds.{InBounds};

use calls::{
    PLACE_QUIET, PLACE_RAISED, PLACE_RETURNED, PLACE_SWAPPED, PLACE_SYNCHRONISING, Refusal, Reply,
    WalkReply,
};
use layout::{
    Publisher, WalkRecord, WalkResult, Words, publisher_at, publisher_place, publishers_of,
    put_publisher, put_version, version_of,
};

// SYNC p: 34 to 35, a walk with a new mark. Up to which version it is allowed is the kind's own.
pub fn start_sync(words: &mut Words, p: u16, limit: u64) -> Reply
    requires { InBounds words.old }
    ensures { (vs : Versions) (es : List ℤ) →
        vs.is_last (version words.old) ≡ nat_lt limit (version words.old) →
        vs.mark_at (version words.old) ≡ (version words.old + 1) % number_modulus →
        let s = state words.old es in
        outcome result (state words.new es)
        ≡ decide (sync_tests vs s p) (sync vs s p) s }
{
    if p as u64 >= publishers_of(words) {
        return Refusal::NoSuchPublisher.into();
    }
    let at = p as usize;
    match publisher_place(words, at) {
        PLACE_SWAPPED => {
            let version = version_of(words);
            if version > limit {
                return Refusal::VersionIsLast.into();
            }
            let mark = version.wrapping_add(1);
            let y = publisher_at(words, at);
            let walk = WalkRecord {
                mark,
                next: 0,
                looks: 0,
                waits: 0,
            };
            put_publisher(
                words,
                at,
                Publisher {
                    place: PLACE_SYNCHRONISING,
                    walk,
                    ..y
                },
            );
            Reply::Synced(mark)
        }
        _ => Refusal::PublisherTurn.into(),
    }
}

// The raise of publisher p, whose record is y; one before its mark is the kind's own.
pub fn raise_version(words: &mut Words, p: usize, y: Publisher, before: u64) -> Reply
    requires { InBounds words.old × (p < publishers words.old) × (y ≡ publisher_at words.old p) }
    ensures { (vs : Versions) (es : List ℤ) → before ≡ vs.before_mark y.walk.mark →
        outcome result (state words.new es)
        ≡ raise vs (state words.old es) p }
{
    let version = version_of(words);
    put_publisher(
        words,
        p,
        Publisher {
            place: PLACE_RAISED,
            ..y
        },
    );
    if version == before {
        put_version(words, y.walk.mark);
        return Reply::Raised;
    }
    Reply::Shared
}

// RAISE p: to 37. The version becomes the mark, if it is one before it modulo 2^64. At which place it is allowed is the kind's own.
pub fn raise_at(words: &mut Words, p: u16, raises_at: u64) -> Reply
    requires { InBounds words.old }
    ensures { (vs : Versions) (es : List ℤ) → let s = state words.old es in let y = publisher s p in
        (p < publishers words.old → y.place ≡ raises_at →
        (y.walk.mark + number_max) % number_modulus ≡ vs.before_mark y.walk.mark) →
        outcome result (state words.new es)
        ≡ decide (raise_tests (λ place. nat_eq place raises_at) s p) (raise vs s p) s }
{
    if p as u64 >= publishers_of(words) {
        return Refusal::NoSuchPublisher.into();
    }
    let at = p as usize;
    let y = publisher_at(words, at);
    match y.place {
        place if place == raises_at => raise_version(words, at, y, y.walk.mark.wrapping_sub(1)),
        _ => Refusal::PublisherTurn.into(),
    }
}

// The place after a walk's reply, of a publisher that is at this place.
fn place_after(place: u64, reply: WalkReply) -> u64
    ensures { result ≡ place_after place reply }
{
    match reply {
        WalkReply::Waiting(_) | WalkReply::Spent => place,
        WalkReply::Quiet => PLACE_QUIET,
        WalkReply::Returned(_, _) => PLACE_RETURNED,
    }
}

// The end of a WALK of publisher p, whose record is y: the result of its looks is recorded, and its reply given.
pub fn end_walk(words: &mut Words, p: usize, y: Publisher, res: WalkResult) -> Reply
    requires { InBounds words.old × (p < publishers words.old) × (y ≡ publisher_at words.old p) }
    ensures { (es : List ℤ) → outcome result (state words.new es)
        ≡ walk (state words.old es) p res }
{
    let WalkResult { walk, reply } = res;
    put_publisher(
        words,
        p,
        Publisher {
            place: place_after(y.place, reply),
            walk,
            ..y
        },
    );
    Reply::Walked(reply)
}
