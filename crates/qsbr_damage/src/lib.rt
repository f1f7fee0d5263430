// The rest store's damage test: the head, and in one pass each participant's reader, publisher, step, count and retired slots.
// Its contracts cite qsbr_law.
#![tactic(auto)]

ghost use Rattle.std.specs.Prelude.{◌≡◌, true, false, List, ◌<◌, ◌≤◌, ℤ, length, leb, eqb, refl};
ghost use Rattle.base.specs.Base.{choose};
ghost use Rattle.base.specs.Rows.{any_true, any_below};
ghost use Rattle.calls.specs.declared.Call.TheVariants.{Look, Claim, Write, Swap};
ghost use Rattle.calls.specs.Numbers.{publishers_max, kind_rest, deferred_max};
ghost use Rattle.layout.specs.Layout.{publishers, reader_at, publisher_at, retired_at};
ghost use Rattle.statement.specs.Machine.{state};
ghost use Rattle.publication_law.proofs.Calls.{step_undamaged};
ghost use Rattle.publication_law.proofs.InBounds.{in_bounds_of, entries_of};
ghost use Rattle.qsbr_law.specs.Steps.{damage_rules, last_version, reader_rows, rules};
ghost use Rattle.qsbr_law.specs.Calls.{retirement_fails, participant_fails, participants_fail, head_fails};
ghost use Rattle.qsbr_law.proofs.Safety.{kind_law};
ghost use Rattle.qsbr_law.proofs.Calls.{publisher_fits, making_as_many};

use calls::{
    DEFERRED_MAX, KIND_REST, PLACE_DEFERRING, PLACE_IDLE, PLACE_OUT, PLACE_PICKED, PUBLISHERS_MAX,
    SLOTS_MAX, SLOTS_MIN, TABLE,
};
use layout::{
    WORDS, Words, current_of, kind_of, publisher_at, publisher_place, publishers_of, reader_at,
    reader_place, readers_of, retired_at, retirement_at, slots_of,
};
use qsbr_law::LAST;
use schemes::{MakingScheme, Scheme};

// Whether reader r is damaged.
fn reader_damaged(words: &Words, r: usize, slots: u64) -> bool
    requires { r < publishers_max }
    ensures { result ≡ any_true (reader_rows slots (reader_at words.now r)) }
{
    let place = reader_place(words, r);
    match place {
        PLACE_OUT => false,
        PLACE_PICKED => reader_at(words, r).picked >= slots,
        _ => true,
    }
}

// Whether publisher p is damaged.
fn publisher_damaged(words: &Words, p: usize, slots: u64) -> bool
    requires { p < publishers_max }
    ensures { result ≡ damage_rules.publisher_damaged (publishers words.now) slots (publisher_at words.now p) }
{
    let place = publisher_place(words, p);
    if place == PLACE_IDLE {
        return false;
    }
    let y = publisher_at(words, p);
    if y.held >= slots {
        return true;
    }
    if place < PLACE_DEFERRING {
        return false;
    }
    if place > PLACE_DEFERRING {
        return true;
    }
    let walk = y.walk;
    if walk.mark == 0 {
        return true;
    }
    walk.waits > walk.looks
}

// Whether one of the first n retired slots of p is no slot of the store.
// (0..n).any(..) is not unrolled here, and a call takes 10 to 30 instructions more.
fn retired_damaged(words: &Words, p: usize, n: u64, slots: u64) -> bool
    requires { (p < publishers_max) × (n ≤ deferred_max) }
    ensures { result ≡ any_below (λ i. leb slots (retired_at words.now p i).slot) n }
{
    for i in 0..n {
        let d = retired_at(words, p, i as usize);
        if d.slot >= slots {
            return true;
        }
    }
    false
}

// Whether the step, the count or a retired slot of p damages a store of n participants. At 35 there must be room for one more.
fn retirement_fails(words: &Words, p: usize, n: u64, slots: u64) -> bool
    requires { (p < publishers_max) × (n ≤ publishers_max) }
    ensures { result ≡ retirement_fails words.now n slots p }
{
    let t = retirement_at(words, p);
    if t.step > n + 1 {
        return true;
    }
    if t.count == 0 {
        return false;
    }
    if t.count > DEFERRED_MAX {
        return true;
    }
    let place = publisher_place(words, p);
    if (place == PLACE_DEFERRING) & (t.count == DEFERRED_MAX) {
        return true;
    }
    retired_damaged(words, p, t.count, slots)
}

// Whether participant p of n damages the store.
fn participant_fails(words: &Words, p: usize, n: u64, slots: u64) -> bool
    requires { (p < publishers_max) × (n ≤ publishers_max) }
    ensures { result ≡ participant_fails words.now n slots p }
{
    reader_damaged(words, p, slots)
        || publisher_damaged(words, p, slots)
        || retirement_fails(words, p, n, slots)
}

// Whether the head of 713 words damages a store with so many entries. There must be as many readers as publishers, so the number of readers needs no range of its own.
fn head_damaged(words: &Words, entries: usize) -> bool
    ensures { (es : List ℤ) → length es ≡ entries → result ≡ head_fails (state words.now es) }
{
    if kind_of(words) != KIND_REST {
        return true;
    }
    let publishers = publishers_of(words);
    if (publishers < 1) | (publishers > PUBLISHERS_MAX as u64) {
        return true;
    }
    if readers_of(words) != publishers {
        return true;
    }
    let slots = slots_of(words);
    if (slots < SLOTS_MIN as u64) | (slots > SLOTS_MAX as u64) {
        return true;
    }
    if entries != slots as usize * TABLE {
        return true;
    }
    current_of(words) >= slots
}

// The same of any words: another length damages here too.
pub fn head_is_damaged(words: &[u64], entries: usize) -> bool
    ensures { (es : List ℤ) → length es ≡ entries → result ≡ head_fails (state words.now es) }
{
    let Some(words) = words.as_array::<WORDS>() else {
        return true;
    };
    head_damaged(words, entries)
}

// Whether the participants damage a store of n of them and of so many slots.
// (0..n).any(..) is compiled to a function by itself here, and a call takes 37 instructions more with 3 participants.
#[inline(always)]
pub fn participants_are_damaged(words: &[u64], n: u64, slots: u64) -> bool
    ensures { result ≡ participants_fail words.now n slots }
{
    let Some(words) = words.as_array::<WORDS>() else {
        return true;
    };
    if (n < 1) | (n > PUBLISHERS_MAX as u64) {
        return true;
    }
    for p in 0..n {
        if participant_fails(words, p as usize, n, slots) {
            return true;
        }
    }
    false
}

// What the rest store fixes of the calls that the kinds share.
pub struct QsbrScheme;

impl Scheme for QsbrScheme {
    ghost rules = { rules };

    ghost EXCLUSIVE = { false };

    ghost RETIRES = { true };

    const EXCLUSIVE: bool = false;

    const RETIRES: bool = true;

    #[inline(always)]
    fn is_damaged(words: &Words, entries: usize) -> bool {
        head_is_damaged(words, entries)
            || participants_are_damaged(words, publishers_of(words), slots_of(words))
    }

    ghost in_bounds = { in_bounds_of rules kind_law };

    ghost entries_fit = { entries_of rules kind_law };

    ghost retired_low = { λ e s no_damage p named. (publisher_fits s no_damage p named).fits.count_high };

    ghost look_step = { λ s r k. step_undamaged rules s (Look r k) };

    ghost claim_step = { λ s p slot. step_undamaged rules s (Claim p slot) };

    ghost write_step = { λ s p v. step_undamaged rules s (Write p v) };

    ghost swap_step = { λ s p. step_undamaged rules s (Swap p) };
}

impl MakingScheme for QsbrScheme {
    ghost KIND = { kind_rest };

    ghost VERSION_MAX = { last_version };

    ghost published_at = { λ version. version };

    ghost admitted = { λ readers publishers. choose (eqb publishers readers) publishers 0 };

    const KIND: u64 = KIND_REST;

    const VERSION_MAX: u64 = LAST;

    fn first_published(version: u64) -> u64 {
        version
    }

    // There must be as many publishers as readers; 0 is refused with the same number as a wrong one.
    fn publishers_admitted(readers: u16, publishers: u16) -> u16 {
        if publishers != readers {
            return 0;
        }
        publishers
    }

    ghost too_large_is = { λ version low. refl };

    ghost making_is = { λ readers publishers slots version table s after n a.
        making_as_many readers publishers slots version table s after n a };
}
