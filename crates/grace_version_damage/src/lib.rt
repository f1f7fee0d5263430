// The new store's damage test, and its last version.
// It reads only the records in use, and a record's further words only at the places that need them.
// Its contracts cite grace_version_law.
#![tactic(auto)]

ghost use Rattle.std.specs.Prelude.{◌≡◌, refl, ℕ, ◌-◌, ◌<◌, ◌≤◌, false, List, ℤ, length};
ghost use Rattle.std.proofs.Common.{sym, arith, ltb-false};
ghost use Rattle.std.specs.List.{list_any, range_with_len};
ghost use Rattle.base.specs.Rows.{any_true};
ghost use Rattle.base.specs.RowLaws.{clash};
ghost use Rattle.calls.specs.declared.Call.TheVariants.{Look, Claim, Write, Swap, Sync, Raise, Release};
ghost use Rattle.calls.specs.Numbers.{readers_max, publishers_max, not_reading, kind_new, place_synchronising};
ghost use Rattle.layout.specs.Layout.{publishers, version, reader_at, publisher_at};
ghost use Rattle.statement.specs.Machine.{state, given};
ghost use Rattle.publication_law.specs.Damage.{head_rows, readers_are_damaged, publishers_are_damaged};
ghost use Rattle.publication_law.specs.KindLaw.{up_to_mark_low};
ghost use Rattle.publication_law.proofs.Calls.{step_undamaged, last_is, mark_is, making_is};
ghost use Rattle.publication_law.proofs.InBounds.{in_bounds_of, entries_of, version_low, mark_fits_of};
ghost use Rattle.grace_version_law.specs.Steps.{last_version, damage_rules, reader_rows, rules};
ghost use Rattle.grace_version_law.proofs.Safety.{law};

use calls::{
    KIND_NEW, NOT_READING, PLACE_IDLE, PLACE_PICKED, PLACE_QUIET, PLACE_RETURNED,
    PLACE_SYNCHRONISING, PUBLISHERS_MAX, READERS_MAX,
};
use grace_version_law::LAST;
use layout::{
    WORDS, Words, publisher_at, publisher_place, publishers_of, reader_at, reader_place,
    readers_of, slots_of,
};
use publication_damage::head_damaged_of_kind;
use schemes::{MakingScheme, Scheme, SectionScheme};

// Whether reader r is damaged.
fn reader_damaged(words: &Words, r: usize, slots: u64) -> bool
    requires { r < readers_max }
    ensures { result ≡ any_true (reader_rows slots (reader_at words.now r)) }
{
    let place = reader_place(words, r);
    if place == PLACE_PICKED {
        let x = reader_at(words, r);
        return x.picked >= slots;
    }
    if place > PLACE_PICKED {
        return true;
    }
    // 2 or 3
    if place % 4 >= 2 {
        let x = reader_at(words, r);
        return x.published != x.first;
    }
    false
}

// Whether one of the first n readers is damaged.
fn first_readers_damaged(words: &Words, n: u64, slots: u64) -> bool
    requires { n ≤ readers_max }
    ensures { result
        ≡ list_any (λ r. damage_rules.reader_damaged n slots (reader_at words.now r)) (range_with_len 0 n) }
{
    (0..n).any(|r| reader_damaged(words, r as usize, slots))
}

// Whether publisher p is damaged.
fn publisher_damaged(words: &Words, p: usize, readers: u64, slots: u64) -> bool
    requires { p < publishers_max }
    ensures { result ≡ damage_rules.publisher_damaged readers slots (publisher_at words.now p) }
{
    let place = publisher_place(words, p);
    if place == PLACE_IDLE {
        return false;
    }
    let y = publisher_at(words, p);
    if y.held >= slots {
        return true;
    }
    if place < PLACE_SYNCHRONISING {
        return false;
    }
    let walk = y.walk;
    if (walk.mark == 0) | (walk.mark > LAST) {
        return true;
    }
    if walk.waits > walk.looks {
        return true;
    }
    if place == PLACE_RETURNED {
        return false;
    }
    if (place > PLACE_RETURNED) | (place == PLACE_QUIET) {
        return true;
    }
    walk.next >= readers
}

// Whether one of the first n publishers is damaged.
fn first_publishers_damaged(words: &Words, n: u64, readers: u64, slots: u64) -> bool
    requires { n ≤ publishers_max }
    ensures { result
        ≡ list_any (λ p. damage_rules.publisher_damaged readers slots (publisher_at words.now p)) (range_with_len 0 n) }
{
    (0..n).any(|p| publisher_damaged(words, p as usize, readers, slots))
}

// Whether the head damages a store with these words and so many entries.
pub fn head_is_damaged(words: &[u64], entries: usize) -> bool
    ensures { (es : List ℤ) → length es ≡ entries →
        result ≡ any_true (head_rows damage_rules (state words.now es)) }
{
    head_damaged_of_kind(words, entries, KIND_NEW, LAST)
}

// Whether the readers damage it.
pub fn readers_are_damaged(words: &[u64]) -> bool
    ensures { (es : List ℤ) → result ≡ readers_are_damaged damage_rules (state words.now es) }
{
    let Some(words) = words.as_array::<WORDS>() else {
        return true;
    };
    let readers = readers_of(words);
    if (readers < 1) | (readers > READERS_MAX as u64) {
        return true;
    }
    first_readers_damaged(words, readers, slots_of(words))
}

// Whether the publishers damage it.
pub fn publishers_are_damaged(words: &[u64]) -> bool
    ensures { (es : List ℤ) → result ≡ publishers_are_damaged damage_rules (state words.now es) }
{
    let Some(words) = words.as_array::<WORDS>() else {
        return true;
    };
    let publishers = publishers_of(words);
    if (publishers < 1) | (publishers > PUBLISHERS_MAX as u64) {
        return true;
    }
    first_publishers_damaged(words, publishers, readers_of(words), slots_of(words))
}

// What the new store fixes of the calls that the kinds share.
pub struct GraceVersionScheme;

impl Scheme for GraceVersionScheme {
    ghost rules = { rules };

    ghost EXCLUSIVE = { false };

    ghost RETIRES = { false };

    const EXCLUSIVE: bool = false;

    const RETIRES: bool = false;

    #[inline(always)]
    fn is_damaged(words: &Words, entries: usize) -> bool {
        if head_is_damaged(words, entries) {
            return true;
        }
        readers_are_damaged(words) || publishers_are_damaged(words)
    }

    ghost in_bounds = { in_bounds_of rules law };

    ghost entries_fit = { entries_of rules law };

    ghost retired_low = { λ e. clash (sym e) };

    ghost look_step = { λ s r k. step_undamaged rules s (Look r k) };

    ghost claim_step = { λ s p slot. step_undamaged rules s (Claim p slot) };

    ghost write_step = { λ s p v. step_undamaged rules s (Write p v) };

    ghost swap_step = { λ s p. step_undamaged rules s (Swap p) };
}

impl SectionScheme for GraceVersionScheme {
    ghost SYNC_LIMIT = { last_version - 1 };

    ghost RAISES_AT = { place_synchronising };

    const SYNC_LIMIT: u64 = LAST - 1;

    const RAISES_AT: u64 = PLACE_SYNCHRONISING;

    ghost sync_step = { λ s p. step_undamaged rules s (Sync p) };

    ghost raise_step = { λ s p. step_undamaged rules s (Raise p) };

    ghost release_step = { λ s p. step_undamaged rules s (Release p) };

    ghost last_is = { λ s no_damage.
        last_is last_version (version s.words) (omega arith) (version_low rules law s no_damage last_version refl) };

    ghost mark_is = { λ s no_damage.
        mark_is last_version (version s.words) (omega arith) (version_low rules law s no_damage last_version refl) };

    ghost before_is = { λ s p no_damage named turn.
        let mark : ℕ = (publisher_at s.words p).walk.mark in
        let fits = mark_fits_of rules law s no_damage p named (omega (arith, turn)) in
        omega (arith, up_to_mark_low last_version mark fits, ltb-false last_version mark (law.versions_law.raised_fits mark fits)) };
}

impl MakingScheme for GraceVersionScheme {
    ghost KIND = { kind_new };

    ghost VERSION_MAX = { last_version };

    ghost published_at = { λ version. not_reading };

    ghost admitted = { λ readers publishers. publishers };

    const KIND: u64 = KIND_NEW;

    const VERSION_MAX: u64 = LAST;

    fn first_published(_version: u64) -> u64 {
        NOT_READING
    }

    fn publishers_admitted(_readers: u16, publishers: u16) -> u16 {
        publishers
    }

    ghost too_large_is = { λ version low. refl };

    ghost making_is = { λ readers publishers slots version table s after n a.
        making_is rules (given readers publishers slots version table) s after n a };
}
