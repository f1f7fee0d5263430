// The old store's damage test.
// One pass over the readers in use tests them and counts, for each parity, those at 4 or 5 whose loaded version has it.
// Its contracts cite two_phase_law.
#![tactic(auto)]

ghost use Rattle.std.specs.Prelude.{◌≡◌, refl, ◌||◌, true, false, List, ◌<◌, ◌≤◌, ℤ, length};
ghost use Rattle.std.proofs.Common.{sym, arith};
ghost use Rattle.std.specs.List.{list_any, range_with_len};
ghost use Rattle.base.specs.Rows.{any_true, any_below};
ghost use Rattle.base.specs.RowLaws.{clash};
ghost use Rattle.calls.specs.declared.Call.TheVariants.{Look, Claim, Write, Swap, Sync, Raise, Release};
ghost use Rattle.calls.specs.Numbers.{readers_max, publishers_max, number_max, not_reading, kind_old, place_quiet};
ghost use Rattle.layout.specs.Layout.{readers, publishers, reader_at, publisher_at};
ghost use Rattle.statement.specs.Machine.{state, given};
ghost use Rattle.publication_law.specs.Damage.{head_rows, readers_are_damaged, publishers_are_damaged};
ghost use Rattle.publication_law.proofs.Calls.{step_undamaged, making_is};
ghost use Rattle.publication_law.proofs.InBounds.{in_bounds_of, entries_of};
ghost use Rattle.two_phase_law.specs.Steps.{damage_rules, miscounted_at, rules};
ghost use Rattle.two_phase_law.proofs.Safety.{law};

use calls::{
    KIND_OLD, NOT_READING, NUMBER_MAX, PLACE_IDLE, PLACE_OPEN, PLACE_PICKED, PLACE_PUBLISHED,
    PLACE_QUIET, PLACE_RETURNED, PLACE_SYNCHRONISING, PUBLISHERS_MAX, READERS_MAX,
};
use layout::{
    WORDS, Words, indicator_of, publisher_at, publisher_place, publishers_of, reader_at,
    reader_place, readers_of, slots_of,
};
use publication_damage::head_damaged_of_kind;
use schemes::{MakingScheme, Scheme, SectionScheme};

// Whether one of the first n readers is damaged, or an indicator is unlike the number of them that added to it: one pass does both, so that it is a loop and no `any`.
fn first_readers_damaged(words: &Words, n: u64, slots: u64) -> bool
    requires { n ≤ readers_max }
    ensures { result
        ≡ (any_below (λ r. damage_rules.reader_damaged n slots (reader_at words.now r)) n
        || (miscounted_at words.now n 0 || miscounted_at words.now n 1)) }
{
    let mut counts = [0u64; 2];
    for r in 0..n {
        let place = reader_place(words, r as usize);
        // A match on the place takes an instruction more a reader.
        if place == PLACE_PICKED {
            if reader_at(words, r as usize).picked >= slots {
                return true;
            }
        } else {
            if place < PLACE_PUBLISHED {
                continue;
            }
            if place != PLACE_OPEN {
                return true;
            }
        }
        let x = reader_at(words, r as usize);
        counts[(x.first % 2) as usize] += 1;
    }
    (indicator_of(words, 0) != counts[0]) | (indicator_of(words, 1) != counts[1])
}

// Whether publisher p is damaged.
fn publisher_damaged(words: &Words, p: usize, slots: u64) -> bool
    requires { p < publishers_max }
    ensures { result ≡ damage_rules.publisher_damaged (readers words.now) slots (publisher_at words.now p) }
{
    let place = publisher_place(words, p);
    if place == PLACE_IDLE {
        return false;
    }
    let y = publisher_at(words, p);
    if y.held >= slots {
        return true;
    }
    if place < PLACE_SYNCHRONISING {
        return false;
    }
    if place > PLACE_RETURNED {
        return true;
    }
    // every mark is good
    let walk = y.walk;
    walk.waits > walk.looks
}

// Whether one of the first n publishers is damaged.
fn first_publishers_damaged(words: &Words, n: u64, slots: u64) -> bool
    requires { n ≤ publishers_max }
    ensures { let w = words.now in
        result ≡ list_any (λ p. damage_rules.publisher_damaged (readers w) slots (publisher_at w p)) (range_with_len 0 n) }
{
    (0..n).any(|p| publisher_damaged(words, p as usize, slots))
}

// Whether the head damages a store with these words and so many entries.
pub fn head_is_damaged(words: &[u64], entries: usize) -> bool
    ensures { (es : List ℤ) → length es ≡ entries →
        result ≡ any_true (head_rows damage_rules (state words.now es)) }
{
    head_damaged_of_kind(words, entries, KIND_OLD, NUMBER_MAX)
}

// Whether the readers or the indicators damage it.
pub fn readers_are_damaged(words: &[u64]) -> bool
    ensures { (es : List ℤ) →
        result ≡ (readers_are_damaged damage_rules (state words.now es)
        || rules.further (state words.now es)) }
{
    let Some(words) = words.as_array::<WORDS>() else {
        return true;
    };
    let readers = readers_of(words);
    if (readers < 1) | (readers > READERS_MAX as u64) {
        return true;
    }
    first_readers_damaged(words, readers, slots_of(words))
}

// Whether the publishers damage it.
pub fn publishers_are_damaged(words: &[u64]) -> bool
    ensures { (es : List ℤ) → result ≡ publishers_are_damaged damage_rules (state words.now es) }
{
    let Some(words) = words.as_array::<WORDS>() else {
        return true;
    };
    let publishers = publishers_of(words);
    if (publishers < 1) | (publishers > PUBLISHERS_MAX as u64) {
        return true;
    }
    first_publishers_damaged(words, publishers, slots_of(words))
}

// What the old store fixes of the calls that the kinds share.
pub struct TwoPhaseScheme;

impl Scheme for TwoPhaseScheme {
    ghost rules = { rules };

    ghost EXCLUSIVE = { true };

    ghost RETIRES = { false };

    const EXCLUSIVE: bool = true;

    const RETIRES: bool = false;

    #[inline(always)]
    fn is_damaged(words: &Words, entries: usize) -> bool {
        if head_is_damaged(words, entries) {
            return true;
        }
        readers_are_damaged(words) || publishers_are_damaged(words)
    }

    ghost in_bounds = { in_bounds_of rules law };

    ghost entries_fit = { entries_of rules law };

    ghost retired_low = { λ e. clash (sym e) };

    ghost look_step = { λ s r k. step_undamaged rules s (Look r k) };

    ghost claim_step = { λ s p slot. step_undamaged rules s (Claim p slot) };

    ghost write_step = { λ s p v. step_undamaged rules s (Write p v) };

    ghost swap_step = { λ s p. step_undamaged rules s (Swap p) };
}

impl SectionScheme for TwoPhaseScheme {
    ghost SYNC_LIMIT = { number_max };

    ghost RAISES_AT = { place_quiet };

    const SYNC_LIMIT: u64 = NUMBER_MAX;

    const RAISES_AT: u64 = PLACE_QUIET;

    ghost sync_step = { λ s p. step_undamaged rules s (Sync p) };

    ghost raise_step = { λ s p. step_undamaged rules s (Raise p) };

    ghost release_step = { λ s p. step_undamaged rules s (Release p) };

    ghost last_is = { λ s no_damage. refl };

    ghost mark_is = { λ s no_damage. refl };

    ghost before_is = { λ s p no_damage named turn. omega arith };
}

impl MakingScheme for TwoPhaseScheme {
    ghost KIND = { kind_old };

    ghost VERSION_MAX = { number_max };

    ghost published_at = { λ version. not_reading };

    ghost admitted = { λ readers publishers. publishers };

    const KIND: u64 = KIND_OLD;

    const VERSION_MAX: u64 = NUMBER_MAX;

    fn first_published(_version: u64) -> u64 {
        NOT_READING
    }

    fn publishers_admitted(_readers: u16, publishers: u16) -> u16 {
        publishers
    }

    ghost too_large_is = { λ version low. refl };

    ghost making_is = { λ readers publishers slots version table s after n a.
        making_is rules (given readers publishers slots version table) s after n a };
}
