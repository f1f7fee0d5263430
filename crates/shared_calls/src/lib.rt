// The calls that the kinds of store share, in place on the lent words and entries: one generic function a call.
// Each is total, and its contract is the step of the kind whose scheme it is called with.
#![tactic(auto)]

ghost use Rattle.std.specs.Prelude.{◌≡◌};
ghost use Rattle.calls.specs.declared.Call.TheVariants.{Look, Claim, Write, Swap, Sync, Raise, Release};
ghost use Rattle.statement.specs.Machine.{state, outcome, given};
ghost use Rattle.publication_law.specs.Table.{step, making};

use calls::{Pitch, Refusal, Reply};
use layout::WORDS;
use making::{Sizes, make_store, reply_of};
use publication_entries::{look_up, write_entry};
use publication_grace::{raise_at, start_sync};
use publication_slots::{claim_slot, release_slot, swap_in};
use schemes::{MakingScheme, Scheme, SectionScheme};

// Making, in words and entries whatever they hold. The table goes into every slot.
pub fn make<S: MakingScheme>(
    words: &mut [u64],
    entries: &mut [Pitch],
    table: &[Pitch],
    readers: u16,
    publishers: u16,
    slots: u16,
    version: u64,
) -> Reply
    ensures { outcome result (state words.new entries.new)
        ≡ making S.rules (given readers publishers slots version table.now) (state words.old entries.old) }
{
    let sizes = Sizes {
        readers,
        publishers: S::publishers_admitted(readers, publishers),
        slots,
    };
    let published = S::first_published(version);
    reply_of(make_store(
        words,
        entries,
        table,
        S::KIND,
        published,
        sizes,
        version,
        version > S::VERSION_MAX,
    ))
}

// LOOK r k (place 5): entry k of the picked slot.
pub fn look<S: Scheme>(words: &[u64], entries: &[Pitch], r: u16, k: u16) -> Reply
    ensures { outcome result (state words.now entries.now)
        ≡ step S.rules (state words.now entries.now) (Look r k) }
{
    let Some(words) = words.as_array::<WORDS>() else {
        return Refusal::Damaged.into();
    };
    if S::is_damaged(words, entries.len()) {
        return Refusal::Damaged.into();
    }
    look_up(words, entries, r, k)
}

// CLAIM p s: 0 to 1, holds s. A slot that is retired and not yet free is in use.
pub fn claim<S: Scheme>(words: &mut [u64], entries: &[Pitch], p: u16, slot: u16) -> Reply
    ensures { outcome result (state words.new entries.now)
        ≡ step S.rules (state words.old entries.now) (Claim p slot) }
{
    let Some(words) = words.as_mut_array::<WORDS>() else {
        return Refusal::Damaged.into();
    };
    if S::is_damaged(words, entries.len()) {
        return Refusal::Damaged.into();
    }
    claim_slot(words, p, slot, S::EXCLUSIVE, S::RETIRES)
}

// WRITE p v: stores the next entry, and replies with the number written.
pub fn write<S: Scheme>(words: &mut [u64], entries: &mut [Pitch], p: u16, v: Pitch) -> Reply
    ensures { outcome result (state words.new entries.new)
        ≡ step S.rules (state words.old entries.old) (Write p v) }
{
    let Some(words) = words.as_mut_array::<WORDS>() else {
        return Refusal::Damaged.into();
    };
    if S::is_damaged(words, entries.len()) {
        return Refusal::Damaged.into();
    }
    write_entry(words, entries, p, v)
}

// SWAP p: 33 to 34. Its slot becomes current; it holds the former one, and replies with that.
pub fn swap<S: Scheme>(words: &mut [u64], entries: &[Pitch], p: u16) -> Reply
    ensures { outcome result (state words.new entries.now)
        ≡ step S.rules (state words.old entries.now) (Swap p) }
{
    let Some(words) = words.as_mut_array::<WORDS>() else {
        return Refusal::Damaged.into();
    };
    if S::is_damaged(words, entries.len()) {
        return Refusal::Damaged.into();
    }
    swap_in(words, p)
}

// SYNC p: 34 to 35, with the mark one above the version.
pub fn sync<S: SectionScheme>(words: &mut [u64], entries: &[Pitch], p: u16) -> Reply
    ensures { outcome result (state words.new entries.now)
        ≡ step S.rules (state words.old entries.now) (Sync p) }
{
    let Some(words) = words.as_mut_array::<WORDS>() else {
        return Refusal::Damaged.into();
    };
    if S::is_damaged(words, entries.len()) {
        return Refusal::Damaged.into();
    }
    start_sync(words, p, S::SYNC_LIMIT)
}

// RAISE p: to 37. The version becomes the mark, if it is one before it modulo 2^64.
pub fn raise<S: SectionScheme>(words: &mut [u64], entries: &[Pitch], p: u16) -> Reply
    ensures { outcome result (state words.new entries.now)
        ≡ step S.rules (state words.old entries.now) (Raise p) }
{
    let Some(words) = words.as_mut_array::<WORDS>() else {
        return Refusal::Damaged.into();
    };
    if S::is_damaged(words, entries.len()) {
        return Refusal::Damaged.into();
    }
    raise_at(words, p, S::RAISES_AT)
}

// RELEASE p: 38 to 0, which frees the held slot; one more release.
pub fn release<S: SectionScheme>(words: &mut [u64], entries: &[Pitch], p: u16) -> Reply
    ensures { outcome result (state words.new entries.now)
        ≡ step S.rules (state words.old entries.now) (Release p) }
{
    let Some(words) = words.as_mut_array::<WORDS>() else {
        return Refusal::Damaged.into();
    };
    if S::is_damaged(words, entries.len()) {
        return Refusal::Damaged.into();
    }
    release_slot(words, p)
}
