// Making and the thirteen calls for words of any kind: the kind word tells which store's call is run.
// In place on the lent words and entries. A call that the kind lacks gets 1.
// Each is total, and its contract is the step (or the making) of kinds_law. `run` takes any call as a value.
// It knows nothing of a store but its kind word.
#![tactic(auto, using(publication_law::proofs::TableLaws::lacked_refused), unfolding(kinds_law::specs::Kinds::any_step, kinds_law::specs::Kinds::any_making))]

ghost use Rattle.std.specs.Prelude.{◌≡◌};
ghost use Rattle.calls.specs.declared.Call.TheVariants.{Enter, Look, Leave, Claim, Write, Swap, Sync, Raise, Walk, Release, Pick, Checkpoint, Defer};
ghost use Rattle.layout.specs.Layout.{kind_word};
ghost use Rattle.statement.specs.Machine.{state, outcome, given};
ghost use Rattle.kinds_law.specs.Kinds.{any_step, any_making, kind_of_number};

use calls::{Call, Pitch, Refusal, Reply};
use grace_version_damage::GraceVersionScheme;
use kinds_law::Kind;
use layout::kind_word;
use qsbr_damage::QsbrScheme;
use two_phase_damage::TwoPhaseScheme;

// The kind that the kind word names, if it names one.
pub fn kind_of(words: &[u64]) -> Option<Kind>
    ensures { result ≡ kind_of_number (kind_word words.now) }
{
    Kind::try_from(kind_word(words)).ok()
}

// Making a store of the kind with this number, in words and entries whatever they hold. The table goes into every slot.
// A number that no kind has gets 1.
pub fn make(
    words: &mut [u64],
    entries: &mut [Pitch],
    table: &[Pitch],
    kind: u16,
    readers: u16,
    publishers: u16,
    slots: u16,
    version: u64,
) -> Reply
    ensures { outcome result (state words.new entries.new)
        ≡ any_making kind (given readers publishers slots version table.now)
        (state words.old entries.old) }
{
    match Kind::try_from(kind as u64) {
        Ok(Kind::New) => {
            shared_calls::make::<GraceVersionScheme>(
                words, entries, table, readers, publishers, slots, version,
            )
        }
        Ok(Kind::Old) => {
            shared_calls::make::<TwoPhaseScheme>(
                words, entries, table, readers, publishers, slots, version,
            )
        }
        Ok(Kind::Rest) => {
            shared_calls::make::<QsbrScheme>(
                words, entries, table, readers, publishers, slots, version,
            )
        }
        Err(_) => Refusal::Damaged.into(),
    }
}

// ENTER r: one place on. Replies with the place. Rest lacks it.
pub fn enter(words: &mut [u64], entries: &[Pitch], r: u16) -> Reply
    ensures { outcome result (state words.new entries.now)
        ≡ any_step (state words.old entries.now) (Enter r) }
{
    match kind_of(words) {
        Some(Kind::New) => grace_version_readers::enter(words, entries, r),
        Some(Kind::Old) => two_phase_readers::enter(words, entries, r),
        Some(Kind::Rest) | None => Refusal::Damaged.into(),
    }
}

// LOOK r k (place 5): entry k of the picked slot.
pub fn look(words: &[u64], entries: &[Pitch], r: u16, k: u16) -> Reply
    ensures { outcome result (state words.now entries.now)
        ≡ any_step (state words.now entries.now) (Look r k) }
{
    match kind_of(words) {
        Some(Kind::New) => shared_calls::look::<GraceVersionScheme>(words, entries, r, k),
        Some(Kind::Old) => shared_calls::look::<TwoPhaseScheme>(words, entries, r, k),
        Some(Kind::Rest) => shared_calls::look::<QsbrScheme>(words, entries, r, k),
        None => Refusal::Damaged.into(),
    }
}

// LEAVE r (places 4, 5): to 0. Rest lacks it.
pub fn leave(words: &mut [u64], entries: &[Pitch], r: u16) -> Reply
    ensures { outcome result (state words.new entries.now)
        ≡ any_step (state words.old entries.now) (Leave r) }
{
    match kind_of(words) {
        Some(Kind::New) => grace_version_readers::leave(words, entries, r),
        Some(Kind::Old) => two_phase_readers::leave(words, entries, r),
        Some(Kind::Rest) | None => Refusal::Damaged.into(),
    }
}

// CLAIM p s: 0 to 1, holds s.
pub fn claim(words: &mut [u64], entries: &[Pitch], p: u16, slot: u16) -> Reply
    ensures { outcome result (state words.new entries.now)
        ≡ any_step (state words.old entries.now) (Claim p slot) }
{
    match kind_of(words) {
        Some(Kind::New) => shared_calls::claim::<GraceVersionScheme>(words, entries, p, slot),
        Some(Kind::Old) => shared_calls::claim::<TwoPhaseScheme>(words, entries, p, slot),
        Some(Kind::Rest) => shared_calls::claim::<QsbrScheme>(words, entries, p, slot),
        None => Refusal::Damaged.into(),
    }
}

// WRITE p v: stores the next entry, and replies with the number written.
pub fn write(words: &mut [u64], entries: &mut [Pitch], p: u16, v: Pitch) -> Reply
    ensures { outcome result (state words.new entries.new)
        ≡ any_step (state words.old entries.old) (Write p v) }
{
    match kind_of(words) {
        Some(Kind::New) => shared_calls::write::<GraceVersionScheme>(words, entries, p, v),
        Some(Kind::Old) => shared_calls::write::<TwoPhaseScheme>(words, entries, p, v),
        Some(Kind::Rest) => shared_calls::write::<QsbrScheme>(words, entries, p, v),
        None => Refusal::Damaged.into(),
    }
}

// SWAP p: 33 to 34. Its slot becomes current; it holds the former one, and replies with that.
pub fn swap(words: &mut [u64], entries: &[Pitch], p: u16) -> Reply
    ensures { outcome result (state words.new entries.now)
        ≡ any_step (state words.old entries.now) (Swap p) }
{
    match kind_of(words) {
        Some(Kind::New) => shared_calls::swap::<GraceVersionScheme>(words, entries, p),
        Some(Kind::Old) => shared_calls::swap::<TwoPhaseScheme>(words, entries, p),
        Some(Kind::Rest) => shared_calls::swap::<QsbrScheme>(words, entries, p),
        None => Refusal::Damaged.into(),
    }
}

// SYNC p: 34 to 35, with the mark one above the version, of old modulo 2^64. Rest lacks it.
pub fn sync(words: &mut [u64], entries: &[Pitch], p: u16) -> Reply
    ensures { outcome result (state words.new entries.now)
        ≡ any_step (state words.old entries.now) (Sync p) }
{
    match kind_of(words) {
        Some(Kind::New) => shared_calls::sync::<GraceVersionScheme>(words, entries, p),
        Some(Kind::Old) => shared_calls::sync::<TwoPhaseScheme>(words, entries, p),
        Some(Kind::Rest) | None => Refusal::Damaged.into(),
    }
}

// RAISE p (new at 35, old at 36): the version becomes the mark, if it is one before it. Rest lacks it.
pub fn raise(words: &mut [u64], entries: &[Pitch], p: u16) -> Reply
    ensures { outcome result (state words.new entries.now)
        ≡ any_step (state words.old entries.now) (Raise p) }
{
    match kind_of(words) {
        Some(Kind::New) => shared_calls::raise::<GraceVersionScheme>(words, entries, p),
        Some(Kind::Old) => shared_calls::raise::<TwoPhaseScheme>(words, entries, p),
        Some(Kind::Rest) | None => Refusal::Damaged.into(),
    }
}

// WALK p b: up to b looks (old: at most one). Rest lacks it.
pub fn walk(words: &mut [u64], entries: &[Pitch], p: u16, b: u16) -> Reply
    ensures { outcome result (state words.new entries.now)
        ≡ any_step (state words.old entries.now) (Walk p b) }
{
    match kind_of(words) {
        Some(Kind::New) => grace_version_walk::walk(words, entries, p, b),
        Some(Kind::Old) => two_phase_walk::walk(words, entries, p, b),
        Some(Kind::Rest) | None => Refusal::Damaged.into(),
    }
}

// RELEASE p: 38 to 0, which frees the held slot; one more release. Rest lacks it.
pub fn release(words: &mut [u64], entries: &[Pitch], p: u16) -> Reply
    ensures { outcome result (state words.new entries.now)
        ≡ any_step (state words.old entries.now) (Release p) }
{
    match kind_of(words) {
        Some(Kind::New) => shared_calls::release::<GraceVersionScheme>(words, entries, p),
        Some(Kind::Old) => shared_calls::release::<TwoPhaseScheme>(words, entries, p),
        Some(Kind::Rest) | None => Refusal::Damaged.into(),
    }
}

// PICK r: picks the current slot, and replies with it. New and old lack it.
pub fn pick(words: &mut [u64], entries: &[Pitch], r: u16) -> Reply
    ensures { outcome result (state words.new entries.now)
        ≡ any_step (state words.old entries.now) (Pick r) }
{
    match kind_of(words) {
        Some(Kind::Rest) => qsbr_readers::pick(words, entries, r),
        Some(Kind::New | Kind::Old) | None => Refusal::Damaged.into(),
    }
}

// CHECKPOINT r: one step on. Replies with the step. New and old lack it.
pub fn checkpoint(words: &mut [u64], entries: &[Pitch], r: u16) -> Reply
    ensures { outcome result (state words.new entries.now)
        ≡ any_step (state words.old entries.now) (Checkpoint r) }
{
    match kind_of(words) {
        Some(Kind::Rest) => qsbr_checkpoint::checkpoint(words, entries, r),
        Some(Kind::New | Kind::Old) | None => Refusal::Damaged.into(),
    }
}

// DEFER p: 34 to 35 raises the epoch, 35 to 0 queues the held slot. Replies with the place. New and old lack it.
pub fn defer(words: &mut [u64], entries: &[Pitch], p: u16) -> Reply
    ensures { outcome result (state words.new entries.now)
        ≡ any_step (state words.old entries.now) (Defer p) }
{
    match kind_of(words) {
        Some(Kind::Rest) => qsbr_deferral::defer(words, entries, p),
        Some(Kind::New | Kind::Old) | None => Refusal::Damaged.into(),
    }
}

// Any call, as a value.
pub fn run(words: &mut [u64], entries: &mut [Pitch], call: Call) -> Reply
    ensures { outcome result (state words.new entries.new)
        ≡ any_step (state words.old entries.old) call }
{
    match call {
        Call::Enter(r) => enter(words, entries, r),
        Call::Look(r, k) => look(words, entries, r, k),
        Call::Leave(r) => leave(words, entries, r),
        Call::Claim(p, slot) => claim(words, entries, p, slot),
        Call::Write(p, v) => write(words, entries, p, v),
        Call::Swap(p) => swap(words, entries, p),
        Call::Sync(p) => sync(words, entries, p),
        Call::Raise(p) => raise(words, entries, p),
        Call::Walk(p, b) => walk(words, entries, p, b),
        Call::Release(p) => release(words, entries, p),
        Call::Pick(r) => pick(words, entries, r),
        Call::Checkpoint(r) => checkpoint(words, entries, r),
        Call::Defer(p) => defer(words, entries, p),
    }
}
