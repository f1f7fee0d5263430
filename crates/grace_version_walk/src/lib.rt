// WALK of the new store, in place on the lent words. It is total, and its contract is the step of grace_version_law.
#![tactic(auto)]

ghost use Rattle.std.specs.Prelude.{◌≡◌, ◌+◌, ◌<◌, ◌≤◌};
ghost use Rattle.calls.specs.declared.Call.TheVariants.{Walk};
ghost use Rattle.calls.specs.Numbers.{readers_max, number_max};
ghost use Rattle.statement.specs.Machine.{state, outcome};
ghost use Rattle.publication_law.specs.Table.{step};
ghost use Rattle.grace_version_law.specs.Steps.{looked_at, looks_from, rules};

use calls::{NUMBER_MAX, PLACE_RAISED, Pitch, Refusal, Reply, WalkReply};
use grace_version_damage::GraceVersionScheme;
use layout::{
    WORDS, WalkRecord, WalkResult, Words, publisher_at, publishers_of, reader_at, readers_of,
};
use publication_grace::end_walk;
use publication_looks::look_counted;
use schemes::Scheme;

// The reader that a walk looks at when so many of n readers have passed.
fn looked_at(n: u64, passed: u64) -> u64
    requires { passed < n }
    ensures { result ≡ looked_at n passed }
{
    passed
}

// Up to b looks of a walk over n readers. The loop yields its reply by break, as document 01 names the form; so it counts the looks that are left.
fn looks(words: &Words, n: u64, mut walk: WalkRecord, b: u16) -> WalkResult
    requires { (n ≤ readers_max) × (walk.next < n) × (walk.looks + b ≤ number_max) × (walk.waits ≤ walk.looks) }
    ensures { result ≡ looks_from words.now n walk.mark walk.waits b walk.next walk.looks }
{
    let mut left = b;
    let reply = loop {
        if left == 0 {
            break WalkReply::Spent;
        }
        left -= 1;
        let r = looked_at(n, walk.next);
        let x = reader_at(words, r as usize);
        if x.published < walk.mark {
            walk = look_counted(walk, 0, 1);
            break WalkReply::Waiting(r);
        }
        walk = look_counted(walk, 1, 0);
        if walk.next >= n {
            break WalkReply::Returned(walk.looks, walk.waits);
        }
    };
    WalkResult { walk, reply }
}

// WALK p b (place 37): up to b looks at the readers that are still to pass.
pub fn walk(words: &mut [u64], entries: &[Pitch], p: u16, b: u16) -> Reply
    ensures { outcome result (state words.new entries.now)
        ≡ step rules (state words.old entries.now) (Walk p b) }
{
    let Some(words) = words.as_mut_array::<WORDS>() else {
        return Refusal::Damaged.into();
    };
    if GraceVersionScheme::is_damaged(words, entries.len()) {
        return Refusal::Damaged.into();
    }
    if p as u64 >= publishers_of(words) {
        return Refusal::NoSuchPublisher.into();
    }
    let at = p as usize;
    let y = publisher_at(words, at);
    match y.place {
        PLACE_RAISED => {
            if y.walk.looks > NUMBER_MAX - b as u64 {
                return Refusal::TooManyLooks.into();
            }
            let moved = looks(words, readers_of(words), y.walk, b);
            end_walk(words, at, y, moved)
        }
        _ => Refusal::PublisherTurn.into(),
    }
}
