// A reclamation scheme: what a kind of store fixes of the calls that the kinds share.
// A type for each kind implements it, and one generic call serves them all.
#![tactic(auto)]

ghost use Rattle.std.specs.Prelude.{◌≡◌, refl, ◌≢◌, ℕ, ◌+◌, ◌*◌, ◌%◌, ◌<◌, ◌≤◌, Bool, true, false, List, ℤ, length, nat_eq, nat_lt};
ghost use Rattle.std.proofs.Common.{ne_eqb};
ghost use Rattle.base.specs.Base.{choose};
ghost use Rattle.base.specs.Rows.{first_of};
ghost use Rattle.calls.specs.declared.Call.{Call};
ghost use Rattle.calls.specs.declared.Call.TheVariants.{Look, Claim, Write, Swap, Sync, Raise, Release};
ghost use Rattle.calls.specs.declared.Reply.{Reply};
ghost use Rattle.calls.specs.declared.Reply.TheVariants.{Made, Refused};
ghost use Rattle.calls.specs.Numbers.{number_max, number_modulus, table_length, deferred_max, damaged_number};
ghost use Rattle.layout.specs.Layout.{words_length, blank_reader, publishers, slots, version, publisher_at, retirement_at};
ghost use Rattle.statement.specs.Machine.{State, state, outcome, given};
ghost use Rattle.publication_law.specs.InBounds.{InBounds};
ghost use Rattle.publication_law.specs.Steps.{decide, look_tests, look, claim_tests, claim, write_tests, write, swap_tests, swap, sync_tests, sync, raise_tests, raise, release_tests, release, making_tests, made};
ghost use Rattle.publication_law.specs.Table.{Table, damaged, step, making};
ghost use Rattle.publication_law.proofs.Calls.{step_damaged, damaged_head};

use layout::Words;

pub trait Scheme {
    // The kind's calls as a table.
    ghost rules: { Table };

    ghost EXCLUSIVE: { Bool };

    ghost RETIRES: { Bool };

    // Whether a CLAIM needs every other publisher at place 0 (number 31).
    const EXCLUSIVE: bool;

    // Whether publishers retire slots. A retired slot is in use until it is freed.
    const RETIRES: bool;

    // Whether a store with these words and so many entries is damaged.
    fn is_damaged(words: &Words, entries: usize) -> bool
        ensures { (es : List ℤ) → length es ≡ entries →
            result ≡ damaged rules (state words.now es) };

    // A call of a damaged store is refused, and one of words of another length.
    ghost refused: { (s : State) (c : Call) → damaged rules s ≡ true →
        outcome (Refused damaged_number) s ≡ step rules s c } = { λ s c. step_damaged rules s c };

    ghost length_refused: { (s : State) (c : Call) → length s.words ≢ words_length →
        outcome (Refused damaged_number) s ≡ step rules s c } = { λ s c ne. step_damaged rules s c (damaged_head rules s (rw (ne_eqb (length s.words) words_length ne) refl)) };

    // An undamaged store is in bounds, has the entries of its slots, and no publisher with more retired slots than fit.
    ghost in_bounds: { (s : State) → damaged rules s ≡ false → InBounds s.words };

    ghost entries_fit: { (s : State) → damaged rules s ≡ false →
        length s.entries ≡ slots s.words * table_length };

    ghost retired_low: { RETIRES ≡ true → (s : State) → damaged rules s ≡ false →
        (p : ℕ) → p < publishers s.words → (retirement_at s.words p).count ≤ deferred_max };

    // Its LOOK, CLAIM, WRITE and SWAP are those that the kinds share.
    ghost look_step: { (s : State) (r k : ℕ) → damaged rules s ≡ false →
        decide (look_tests s r k) (look s r k) s ≡ step rules s (Look r k) };

    ghost claim_step: { (s : State) (p slot : ℕ) → damaged rules s ≡ false →
        decide (claim_tests EXCLUSIVE RETIRES s p slot) (claim s p slot) s ≡ step rules s (Claim p slot) };

    ghost write_step: { (s : State) (p : ℕ) (v : ℤ) → damaged rules s ≡ false →
        decide (write_tests s p v) (write s p v) s ≡ step rules s (Write p v) };

    ghost swap_step: { (s : State) (p : ℕ) → damaged rules s ≡ false →
        decide (swap_tests s p) (swap s p) s ≡ step rules s (Swap p) };
}

// What a kind fixes of making.
pub trait MakingScheme: Scheme {
    ghost KIND: { ℕ };

    ghost VERSION_MAX: { ℕ };

    ghost published_at: { ℕ → ℕ };

    ghost admitted: { ℕ → ℕ → ℕ };

    // The kind's number.
    const KIND: u64;

    // The greatest first version.
    const VERSION_MAX: u64;

    // What a fresh reader has published, by the first version.
    fn first_published(version: u64) -> u64
        ensures { result ≡ published_at version };

    // The number of publishers, 0 where a store of this kind cannot have so many beside its readers.
    fn publishers_admitted(readers: u16, publishers: u16) -> u16
        ensures { result ≡ admitted readers publishers };

    // Which first versions are too large, and that its making is the shared one, given the publishers that are admitted.
    ghost too_large_is: { (version : ℕ) → version ≤ number_max →
        nat_lt VERSION_MAX version ≡ Self.rules.damage.versions.too_large version };

    ghost making_is: { (readers publishers slots version : ℕ) (table : List ℤ) (s after : State) (n : ℕ) (a : Reply) →
        let z = given readers (admitted readers publishers) slots version table in
        n ≡ first_of (making_tests false Self.rules.damage.versions z s) →
        a ≡ choose (nat_eq n 0) Made (Refused n) →
        after ≡ choose (nat_eq n 0) (made KIND (blank_reader (published_at version)) z s) s →
        outcome a after ≡ making Self.rules (given readers publishers slots version table) s };
}

// The scheme of a kind whose readers enter sections, and whose publishers wait for a grace period.
pub trait SectionScheme: Scheme {
    ghost SYNC_LIMIT: { ℕ };

    ghost RAISES_AT: { ℕ };

    // The last version at which a SYNC is allowed.
    const SYNC_LIMIT: u64;

    // The place at which a RAISE is allowed.
    const RAISES_AT: u64;

    // Its SYNC, RAISE and RELEASE are those that the kinds share ..
    ghost sync_step: { (s : State) (p : ℕ) → damaged Self.rules s ≡ false →
        decide (sync_tests Self.rules.damage.versions s p) (sync Self.rules.damage.versions s p) s
        ≡ step Self.rules s (Sync p) };

    ghost raise_step: { (s : State) (p : ℕ) → damaged Self.rules s ≡ false →
        decide (raise_tests (λ place. nat_eq place RAISES_AT) s p) (raise Self.rules.damage.versions s p) s
        ≡ step Self.rules s (Raise p) };

    ghost release_step: { (s : State) (p : ℕ) → damaged Self.rules s ≡ false →
        decide (release_tests s p) (release s p) s ≡ step Self.rules s (Release p) };

    // .. and its marks run modulo 2^64, as far as its versions go.
    ghost last_is: { (s : State) → damaged Self.rules s ≡ false →
        Self.rules.damage.versions.is_last (version s.words) ≡ nat_lt SYNC_LIMIT (version s.words) };

    ghost mark_is: { (s : State) → damaged Self.rules s ≡ false →
        Self.rules.damage.versions.mark_at (version s.words) ≡ (version s.words + 1) % number_modulus };

    ghost before_is: { (s : State) (p : ℕ) → damaged Self.rules s ≡ false → p < publishers s.words →
        (publisher_at s.words p).place ≡ RAISES_AT →
        let mark = (publisher_at s.words p).walk.mark in
        (mark + number_max) % number_modulus ≡ Self.rules.damage.versions.before_mark mark };
}
