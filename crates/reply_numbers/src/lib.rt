// The numbers that C gets: a reply as three of them, and those that the header names, one after another, for its test.
// The public functions are total. specs/: the header's numbers as lists.
// The last versions of new and rest come from the laws of the kinds.
#![tactic(auto)]

ghost use Rattle.std.specs.Prelude.{◌≡◌, ◌<◌, length, get_or};
ghost use Rattle.calls.specs.ReplyNumbers.{reply_numbers, pitch_number, walk_numbers, numbers_of};
ghost use Rattle.reply_numbers.specs.Numbers.{limits, refusals, codes, number_of};

use calls::{Pitch, Refusal, Reply, ReplyNumbers, WalkReply};

// A pitch in 64 bits: v, and 2^64 + v where v is negative.
fn pitch_number(v: Pitch) -> u64
    ensures { result ≡ pitch_number v }
{
    i64::from(v).cast_unsigned()
}

// Three numbers.
fn reply_numbers(code: u64, first: u64, second: u64) -> ReplyNumbers
    ensures { result ≡ reply_numbers code first second }
{
    ReplyNumbers {
        code,
        first,
        second,
    }
}

// The numbers of a walk's reply.
fn walk_numbers(reply: WalkReply) -> ReplyNumbers
    ensures { result ≡ walk_numbers reply }
{
    match reply {
        WalkReply::Waiting(w) => reply_numbers(calls::CODE_WAITING, w, 0),
        WalkReply::Spent => reply_numbers(calls::CODE_SPENT, 0, 0),
        WalkReply::Quiet => reply_numbers(calls::CODE_QUIET, 0, 0),
        WalkReply::Returned(l, w) => reply_numbers(calls::CODE_RETURNED, l, w),
    }
}

// The numbers of a reply.
pub fn numbers_of(reply: Reply) -> ReplyNumbers
    ensures { result ≡ numbers_of reply }
{
    match reply {
        Reply::Made => reply_numbers(calls::CODE_MADE, 0, 0),
        Reply::At(n) => reply_numbers(calls::CODE_AT, n, 0),
        Reply::Pitch(v) => reply_numbers(calls::CODE_PITCH, pitch_number(v), 0),
        Reply::Left => reply_numbers(calls::CODE_LEFT, 0, 0),
        Reply::Claimed(s) => reply_numbers(calls::CODE_CLAIMED, s, 0),
        Reply::Written(n) => reply_numbers(calls::CODE_WRITTEN, n, 0),
        Reply::Swapped(s) => reply_numbers(calls::CODE_SWAPPED, s, 0),
        Reply::Synced(m) => reply_numbers(calls::CODE_SYNCED, m, 0),
        Reply::Raised => reply_numbers(calls::CODE_RAISED, 0, 0),
        Reply::Shared => reply_numbers(calls::CODE_SHARED, 0, 0),
        Reply::Walked(o) => walk_numbers(o),
        Reply::Freed(s, n) => reply_numbers(calls::CODE_FREED, s, n),
        Reply::Refused(n) => reply_numbers(n, 0, 0),
        Reply::Picked(s) => reply_numbers(calls::CODE_PICKED, s, 0),
    }
}

// How many numbers of each sort the header names.
const LIMITS: usize = 18;

const REFUSALS: usize = 22;

const CODES: usize = 16;

// Where the refusals and the codes begin among them, and where all end.
const FIRST_REFUSAL: usize = LIMITS;

const FIRST_CODE: usize = FIRST_REFUSAL + REFUSALS;

const END: usize = FIRST_CODE + CODES;

// The sizes and limits that it names.
fn limit(which: usize) -> u64
    requires { which < length limits }
    ensures { result ≡ get_or limits which 0 }
{
    let low = pitch_number(calls::PITCH_LOW);
    let high = pitch_number(calls::PITCH_HIGH);
    let feathered = pitch_number(calls::FEATHERED);
    let step = pitch_number(calls::STEP_MAX);
    let numbers: [u64; LIMITS] = [
        layout::WORDS as u64,
        calls::KIND_NEW,
        calls::KIND_OLD,
        calls::READERS_MAX as u64,
        calls::PUBLISHERS_MAX as u64,
        calls::SLOTS_MIN as u64,
        calls::SLOTS_MAX as u64,
        calls::TABLE as u64,
        low,
        high,
        feathered,
        calls::NOT_READING,
        grace_version_law::LAST,
        step,
        calls::PITCH_BYTES,
        calls::KIND_REST,
        qsbr_law::LAST,
        calls::DEFERRED_MAX,
    ];
    numbers[which]
}

// The refusal numbers.
fn refusal(which: usize) -> u64
    requires { which < length refusals }
    ensures { result ≡ get_or refusals which 0 }
{
    let numbers: [u64; REFUSALS] = [
        Refusal::Damaged as u64,
        Refusal::BadReaders as u64,
        Refusal::BadPublishers as u64,
        Refusal::BadSlots as u64,
        Refusal::BadEntries as u64,
        Refusal::BadVersion as u64,
        Refusal::NoSuchReader as u64,
        Refusal::NoSuchPublisher as u64,
        Refusal::NoSuchSlot as u64,
        Refusal::NoSuchEntry as u64,
        Refusal::BadPitch as u64,
        Refusal::ReaderTurn as u64,
        Refusal::PublisherTurn as u64,
        Refusal::SlotInUse as u64,
        Refusal::Busy as u64,
        Refusal::VersionIsLast as u64,
        Refusal::TooManyLooks as u64,
        Refusal::BadTableLength as u64,
        Refusal::BadTablePitch as u64,
        Refusal::BadTableStep as u64,
        Refusal::EpochIsLast as u64,
        Refusal::TooManyDeferred as u64,
    ];
    numbers[which]
}

// The codes of the replies.
fn code(which: usize) -> u64
    requires { which < length codes }
    ensures { result ≡ get_or codes which 0 }
{
    let numbers: [u64; CODES] = [
        calls::CODE_MADE,
        calls::CODE_AT,
        calls::CODE_PITCH,
        calls::CODE_LEFT,
        calls::CODE_CLAIMED,
        calls::CODE_WRITTEN,
        calls::CODE_SWAPPED,
        calls::CODE_SYNCED,
        calls::CODE_RAISED,
        calls::CODE_SHARED,
        calls::CODE_WAITING,
        calls::CODE_SPENT,
        calls::CODE_QUIET,
        calls::CODE_RETURNED,
        calls::CODE_FREED,
        calls::CODE_PICKED,
    ];
    numbers[which]
}

// The numbers that the header names, one after another; past the last 0.
pub fn number(which: u16) -> u64
    ensures { result ≡ number_of which }
{
    let i = which as usize;
    if i < FIRST_REFUSAL {
        return limit(i);
    }
    if i < FIRST_CODE {
        return refusal(i - FIRST_REFUSAL);
    }
    if i < END {
        return code(i - FIRST_CODE);
    }
    0
}
