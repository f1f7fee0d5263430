// WALK of the old store, in place on the lent words. It is total, and its contract is the step of two_phase_law.
#![tactic(auto)]

ghost use Rattle.std.specs.Prelude.{◌≡◌, ◌+◌, ◌≤◌};
ghost use Rattle.calls.specs.declared.Call.TheVariants.{Walk};
ghost use Rattle.calls.specs.Numbers.{number_max};
ghost use Rattle.statement.specs.Machine.{state, outcome};
ghost use Rattle.publication_law.specs.Table.{step};
ghost use Rattle.two_phase_law.specs.Steps.{looked_at, look_at, rules};

use calls::{NUMBER_MAX, PLACE_RAISED, PLACE_SYNCHRONISING, Pitch, Refusal, Reply, WalkReply};
use layout::{Publisher, WORDS, WalkResult, indicator_of, publisher_at, publishers_of};
use publication_grace::end_walk;
use publication_looks::look_counted;
use schemes::Scheme;
use two_phase_damage::TwoPhaseScheme;

// The indicator that a walk looks at: at 35 that of the mark's parity, at 37 the other.
fn looked_at(y: Publisher) -> u64
    ensures { result ≡ looked_at y }
{
    let parity = y.walk.mark % 2;
    if y.place == PLACE_SYNCHRONISING {
        return parity;
    }
    1 - parity
}

// What up to b looks of publisher y at an indicator with this count give: at most one is made.
fn look(count: u64, y: Publisher, b: u16) -> WalkResult
    requires { (y.walk.looks + b ≤ number_max) × (y.walk.waits ≤ y.walk.looks) }
    ensures { result ≡ look_at count y b }
{
    let walk = y.walk;
    if b == 0 {
        return WalkResult {
            walk,
            reply: WalkReply::Spent,
        };
    }
    if count != 0 {
        return WalkResult {
            walk: look_counted(walk, 0, 1),
            reply: WalkReply::Waiting(looked_at(y)),
        };
    }
    let walk = look_counted(walk, 0, 0);
    if y.place == PLACE_SYNCHRONISING {
        return WalkResult {
            walk,
            reply: WalkReply::Quiet,
        };
    }
    WalkResult {
        walk,
        reply: WalkReply::Returned(walk.looks, walk.waits),
    }
}

// WALK p b (places 35, 37): at most one look, at an indicator.
pub fn walk(words: &mut [u64], entries: &[Pitch], p: u16, b: u16) -> Reply
    ensures { outcome result (state words.new entries.now)
        ≡ step rules (state words.old entries.now) (Walk p b) }
{
    let Some(words) = words.as_mut_array::<WORDS>() else {
        return Refusal::Damaged.into();
    };
    if TwoPhaseScheme::is_damaged(words, entries.len()) {
        return Refusal::Damaged.into();
    }
    if p as u64 >= publishers_of(words) {
        return Refusal::NoSuchPublisher.into();
    }
    let at = p as usize;
    let y = publisher_at(words, at);
    let place = y.place;
    match place {
        PLACE_SYNCHRONISING | PLACE_RAISED => {
            if y.walk.looks > NUMBER_MAX - b as u64 {
                return Refusal::TooManyLooks.into();
            }
            let count = indicator_of(words, looked_at(y) as usize);
            end_walk(words, at, y, look(count, y, b))
        }
        _ => Refusal::PublisherTurn.into(),
    }
}
