// The C library: making and the thirteen calls for a store of any kind as functions of C over lent slices,
// the reply three numbers by value. A call that the store's kind lacks gets 1.
// Each function is total, and its contract is the step (or the making) of kinds_law, through `numbers_of`.
// The kind word decides whose call is run, here as in kinds (docs/DECISIONS.md says why). By kinds_law::Kind in place of the number a call takes 4 to 8 instructions more.
// The length is tested before it, so that the calls' own tests of the length cost no instruction.
#![tactic(auto, using(publication_law::proofs::TableLaws::lacked_refused, kinds_law::proofs::Calls::step_length), unfolding(kinds_law::specs::Kinds::any_step, kinds_law::specs::Kinds::kind_of_number))]

ghost use Rattle.std.specs.Prelude.{◌≡◌};
ghost use Rattle.calls.specs.declared.Call.TheVariants.{Enter, Look, Leave, Claim, Write, Swap, Sync, Raise, Walk, Release, Pick, Checkpoint, Defer};
ghost use Rattle.statement.specs.Machine.{state, given};
ghost use Rattle.kinds_law.specs.Kinds.{any_step, any_making};
ghost use Rattle.kinds_law.specs.OutcomeForC.{OutcomeForC};
ghost use Rattle.reply_numbers.specs.Numbers.{number_of};

use calls::{KIND_NEW, KIND_OLD, KIND_REST, Pitch, Refusal, ReplyNumbers};
use grace_version_damage::GraceVersionScheme;
use layout::{WORDS, kind_word};
use qsbr_damage::QsbrScheme;
use reply_numbers::numbers_of;
use two_phase_damage::TwoPhaseScheme;

// The numbers that the header names, one after another, so that a test can compare them; past the last 0.
#[unsafe(no_mangle)]
pub extern "C" fn rahuvyte_number(which: u16) -> u64
    ensures { result ≡ number_of which }
{
    reply_numbers::number(which)
}

// Making a store of the kind with this number, every slot with the table.
#[unsafe(no_mangle)]
pub extern "C" fn rahuvyte_make(
    store: &mut [u64],
    entries: &mut [Pitch],
    table: &[Pitch],
    kind: u16,
    readers: u16,
    publishers: u16,
    slots: u16,
    version: u64,
) -> ReplyNumbers
    ensures { OutcomeForC result (state store.new entries.new)
        (any_making kind (given readers publishers slots version table.now)
        (state store.old entries.old)) }
{
    numbers_of(kinds::make(
        store, entries, table, kind, readers, publishers, slots, version,
    ))
}

// ENTER r: one place on. Rest lacks it.
#[unsafe(no_mangle)]
pub extern "C" fn rahuvyte_enter(store: &mut [u64], entries: &[Pitch], r: u16) -> ReplyNumbers
    ensures { OutcomeForC result (state store.new entries.now)
        (any_step (state store.old entries.now) (Enter r)) }
{
    if store.len() != WORDS {
        return numbers_of(Refusal::Damaged.into());
    }
    match kind_word(store) {
        KIND_NEW => numbers_of(grace_version_readers::enter(store, entries, r)),
        KIND_OLD => numbers_of(two_phase_readers::enter(store, entries, r)),
        KIND_REST => numbers_of(Refusal::Damaged.into()),
        _ => numbers_of(Refusal::Damaged.into()),
    }
}

// LOOK r k: entry k of the slot that reader r picked.
#[unsafe(no_mangle)]
pub extern "C" fn rahuvyte_look(store: &[u64], entries: &[Pitch], r: u16, k: u16) -> ReplyNumbers
    ensures { OutcomeForC result (state store.now entries.now)
        (any_step (state store.now entries.now) (Look r k)) }
{
    if store.len() != WORDS {
        return numbers_of(Refusal::Damaged.into());
    }
    match kind_word(store) {
        KIND_NEW => numbers_of(shared_calls::look::<GraceVersionScheme>(store, entries, r, k)),
        KIND_OLD => numbers_of(shared_calls::look::<TwoPhaseScheme>(store, entries, r, k)),
        KIND_REST => numbers_of(shared_calls::look::<QsbrScheme>(store, entries, r, k)),
        _ => numbers_of(Refusal::Damaged.into()),
    }
}

// LEAVE r: to place 0. Rest lacks it.
#[unsafe(no_mangle)]
pub extern "C" fn rahuvyte_leave(store: &mut [u64], entries: &[Pitch], r: u16) -> ReplyNumbers
    ensures { OutcomeForC result (state store.new entries.now)
        (any_step (state store.old entries.now) (Leave r)) }
{
    if store.len() != WORDS {
        return numbers_of(Refusal::Damaged.into());
    }
    match kind_word(store) {
        KIND_NEW => numbers_of(grace_version_readers::leave(store, entries, r)),
        KIND_OLD => numbers_of(two_phase_readers::leave(store, entries, r)),
        KIND_REST => numbers_of(Refusal::Damaged.into()),
        _ => numbers_of(Refusal::Damaged.into()),
    }
}

// CLAIM p s: publisher p holds slot s.
#[unsafe(no_mangle)]
pub extern "C" fn rahuvyte_claim(
    store: &mut [u64],
    entries: &[Pitch],
    p: u16,
    slot: u16,
) -> ReplyNumbers
    ensures { OutcomeForC result (state store.new entries.now)
        (any_step (state store.old entries.now) (Claim p slot)) }
{
    if store.len() != WORDS {
        return numbers_of(Refusal::Damaged.into());
    }
    match kind_word(store) {
        KIND_NEW => numbers_of(shared_calls::claim::<GraceVersionScheme>(store, entries, p, slot)),
        KIND_OLD => numbers_of(shared_calls::claim::<TwoPhaseScheme>(store, entries, p, slot)),
        KIND_REST => numbers_of(shared_calls::claim::<QsbrScheme>(store, entries, p, slot)),
        _ => numbers_of(Refusal::Damaged.into()),
    }
}

// WRITE p v: stores the next entry.
#[unsafe(no_mangle)]
pub extern "C" fn rahuvyte_write(
    store: &mut [u64],
    entries: &mut [Pitch],
    p: u16,
    v: Pitch,
) -> ReplyNumbers
    ensures { OutcomeForC result (state store.new entries.new)
        (any_step (state store.old entries.old) (Write p v)) }
{
    if store.len() != WORDS {
        return numbers_of(Refusal::Damaged.into());
    }
    match kind_word(store) {
        KIND_NEW => numbers_of(shared_calls::write::<GraceVersionScheme>(store, entries, p, v)),
        KIND_OLD => numbers_of(shared_calls::write::<TwoPhaseScheme>(store, entries, p, v)),
        KIND_REST => numbers_of(shared_calls::write::<QsbrScheme>(store, entries, p, v)),
        _ => numbers_of(Refusal::Damaged.into()),
    }
}

// SWAP p: its slot becomes current; it holds the former one.
#[unsafe(no_mangle)]
pub extern "C" fn rahuvyte_swap(store: &mut [u64], entries: &[Pitch], p: u16) -> ReplyNumbers
    ensures { OutcomeForC result (state store.new entries.now)
        (any_step (state store.old entries.now) (Swap p)) }
{
    if store.len() != WORDS {
        return numbers_of(Refusal::Damaged.into());
    }
    match kind_word(store) {
        KIND_NEW => numbers_of(shared_calls::swap::<GraceVersionScheme>(store, entries, p)),
        KIND_OLD => numbers_of(shared_calls::swap::<TwoPhaseScheme>(store, entries, p)),
        KIND_REST => numbers_of(shared_calls::swap::<QsbrScheme>(store, entries, p)),
        _ => numbers_of(Refusal::Damaged.into()),
    }
}

// SYNC p: a walk with a new mark begins. Rest lacks it.
#[unsafe(no_mangle)]
pub extern "C" fn rahuvyte_sync(store: &mut [u64], entries: &[Pitch], p: u16) -> ReplyNumbers
    ensures { OutcomeForC result (state store.new entries.now)
        (any_step (state store.old entries.now) (Sync p)) }
{
    if store.len() != WORDS {
        return numbers_of(Refusal::Damaged.into());
    }
    match kind_word(store) {
        KIND_NEW => numbers_of(shared_calls::sync::<GraceVersionScheme>(store, entries, p)),
        KIND_OLD => numbers_of(shared_calls::sync::<TwoPhaseScheme>(store, entries, p)),
        KIND_REST => numbers_of(Refusal::Damaged.into()),
        _ => numbers_of(Refusal::Damaged.into()),
    }
}

// RAISE p: the version becomes the mark, if it is one before it. Rest lacks it.
#[unsafe(no_mangle)]
pub extern "C" fn rahuvyte_raise(store: &mut [u64], entries: &[Pitch], p: u16) -> ReplyNumbers
    ensures { OutcomeForC result (state store.new entries.now)
        (any_step (state store.old entries.now) (Raise p)) }
{
    if store.len() != WORDS {
        return numbers_of(Refusal::Damaged.into());
    }
    match kind_word(store) {
        KIND_NEW => numbers_of(shared_calls::raise::<GraceVersionScheme>(store, entries, p)),
        KIND_OLD => numbers_of(shared_calls::raise::<TwoPhaseScheme>(store, entries, p)),
        KIND_REST => numbers_of(Refusal::Damaged.into()),
        _ => numbers_of(Refusal::Damaged.into()),
    }
}

// WALK p b: up to b looks. Rest lacks it.
#[unsafe(no_mangle)]
pub extern "C" fn rahuvyte_walk(
    store: &mut [u64],
    entries: &[Pitch],
    p: u16,
    b: u16,
) -> ReplyNumbers
    ensures { OutcomeForC result (state store.new entries.now)
        (any_step (state store.old entries.now) (Walk p b)) }
{
    if store.len() != WORDS {
        return numbers_of(Refusal::Damaged.into());
    }
    match kind_word(store) {
        KIND_NEW => numbers_of(grace_version_walk::walk(store, entries, p, b)),
        KIND_OLD => numbers_of(two_phase_walk::walk(store, entries, p, b)),
        KIND_REST => numbers_of(Refusal::Damaged.into()),
        _ => numbers_of(Refusal::Damaged.into()),
    }
}

// RELEASE p: the held slot is free; one more release. Rest lacks it.
#[unsafe(no_mangle)]
pub extern "C" fn rahuvyte_release(store: &mut [u64], entries: &[Pitch], p: u16) -> ReplyNumbers
    ensures { OutcomeForC result (state store.new entries.now)
        (any_step (state store.old entries.now) (Release p)) }
{
    if store.len() != WORDS {
        return numbers_of(Refusal::Damaged.into());
    }
    match kind_word(store) {
        KIND_NEW => numbers_of(shared_calls::release::<GraceVersionScheme>(store, entries, p)),
        KIND_OLD => numbers_of(shared_calls::release::<TwoPhaseScheme>(store, entries, p)),
        KIND_REST => numbers_of(Refusal::Damaged.into()),
        _ => numbers_of(Refusal::Damaged.into()),
    }
}

// PICK r: picks the current slot. New and old lack it.
#[unsafe(no_mangle)]
pub extern "C" fn rahuvyte_pick(store: &mut [u64], entries: &[Pitch], r: u16) -> ReplyNumbers
    ensures { OutcomeForC result (state store.new entries.now)
        (any_step (state store.old entries.now) (Pick r)) }
{
    if store.len() != WORDS {
        return numbers_of(Refusal::Damaged.into());
    }
    match kind_word(store) {
        KIND_NEW => numbers_of(Refusal::Damaged.into()),
        KIND_OLD => numbers_of(Refusal::Damaged.into()),
        KIND_REST => numbers_of(qsbr_readers::pick(store, entries, r)),
        _ => numbers_of(Refusal::Damaged.into()),
    }
}

// CHECKPOINT r: one step on. New and old lack it.
#[unsafe(no_mangle)]
pub extern "C" fn rahuvyte_checkpoint(store: &mut [u64], entries: &[Pitch], r: u16) -> ReplyNumbers
    ensures { OutcomeForC result (state store.new entries.now)
        (any_step (state store.old entries.now) (Checkpoint r)) }
{
    if store.len() != WORDS {
        return numbers_of(Refusal::Damaged.into());
    }
    match kind_word(store) {
        KIND_NEW => numbers_of(Refusal::Damaged.into()),
        KIND_OLD => numbers_of(Refusal::Damaged.into()),
        KIND_REST => numbers_of(qsbr_checkpoint::checkpoint(store, entries, r)),
        _ => numbers_of(Refusal::Damaged.into()),
    }
}

// DEFER p: raises the epoch; called again it queues the held slot. New and old lack it.
#[unsafe(no_mangle)]
pub extern "C" fn rahuvyte_defer(store: &mut [u64], entries: &[Pitch], p: u16) -> ReplyNumbers
    ensures { OutcomeForC result (state store.new entries.now)
        (any_step (state store.old entries.now) (Defer p)) }
{
    if store.len() != WORDS {
        return numbers_of(Refusal::Damaged.into());
    }
    match kind_word(store) {
        KIND_NEW => numbers_of(Refusal::Damaged.into()),
        KIND_OLD => numbers_of(Refusal::Damaged.into()),
        KIND_REST => numbers_of(qsbr_deferral::defer(store, entries, p)),
        _ => numbers_of(Refusal::Damaged.into()),
    }
}
