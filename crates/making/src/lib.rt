// What the kinds share of making: for any words, any entries, any first table and any numbers.
// A kind of participants tests by itself that it has as many publishers as readers. The contracts cite publication_law.
#![tactic(auto)]

ghost use Rattle.std.specs.Prelude.{◌≡◌, false, List, ℕ, ℤ, length, eqb};
ghost use Rattle.base.specs.Base.{choose};
ghost use Rattle.base.specs.Rows.{first_of};
ghost use Rattle.calls.specs.declared.Reply.TheVariants.{Made, Refused};
ghost use Rattle.layout.specs.Layout.{words_length, blank_reader};
ghost use Rattle.making.specs.Answer.{number_in};
ghost use Rattle.statement.specs.Machine.{state, given};
ghost use Rattle.publication_law.specs.Steps.{Versions, table_tests, making_tests, made};

use calls::{PUBLISHERS_MAX, Pitch, READERS_MAX, Refusal, Reply, SLOTS_MAX, SLOTS_MIN, TABLE};
use layout::{Head, WORDS, put_fresh};
use publication_tables::{any_out_of_range, any_steep, fill};

// How many readers, publishers and slots a store has.
#[derive(Clone, Copy)]
pub struct Sizes {
    pub readers: u16,
    pub publishers: u16,
    pub slots: u16,
}

// Whether a table may be a first table: an error is the first row that applies.
fn check_table(table: &[Pitch]) -> Result<(), Refusal>
    ensures { number_in result ≡ first_of (table_tests table.now) }
{
    if table.len() != TABLE {
        return Err(Refusal::BadTableLength);
    }
    if any_out_of_range(table) {
        return Err(Refusal::BadTablePitch);
    }
    if any_steep(table) {
        return Err(Refusal::BadTableStep);
    }
    Ok(())
}

// Whether a store may be made in words of the right length; `large` says whether the first version is above the last.
fn check_making(
    entries_len: usize,
    sizes: Sizes,
    large: bool,
    table: &[Pitch],
) -> Result<(), Refusal>
    ensures { (vs : Versions) (w : List ℕ) (es : List ℤ) (version : ℕ) →
        length w ≡ words_length → length es ≡ entries_len → large ≡ vs.too_large version →
        number_in result ≡ first_of (making_tests false vs (given sizes.readers sizes.publishers sizes.slots version table.now) (state w es)) }
{
    if (sizes.readers < 1) | (sizes.readers > READERS_MAX) {
        return Err(Refusal::BadReaders);
    }
    if (sizes.publishers < 1) | (sizes.publishers > PUBLISHERS_MAX) {
        return Err(Refusal::BadPublishers);
    }
    if (sizes.slots < SLOTS_MIN) | (sizes.slots > SLOTS_MAX) {
        return Err(Refusal::BadSlots);
    }
    if entries_len != (sizes.slots as usize) * TABLE {
        return Err(Refusal::BadEntries);
    }
    if large {
        return Err(Refusal::BadVersion);
    }
    check_table(table)
}

// Making of a store of this kind, whose fresh readers have published this; the kind says whether the first version is too large.
// An error is the first row that applies, and changes nothing.
pub fn make_store(
    words: &mut [u64],
    entries: &mut [Pitch],
    table: &[Pitch],
    kind: u64,
    published: u64,
    sizes: Sizes,
    version: u64,
    large: bool,
) -> Result<(), Refusal>
    ensures { (vs : Versions) → large ≡ vs.too_large version →
        let s = state words.old entries.old in
        let z = given sizes.readers sizes.publishers sizes.slots version table.now in
        (number_in result ≡ first_of (making_tests false vs z s))
        × (state words.new entries.new ≡ choose (eqb (number_in result) 0) (made kind (blank_reader published) z s) s) }
{
    let Some(words) = words.as_mut_array::<WORDS>() else {
        return Err(Refusal::Damaged);
    };
    check_making(entries.len(), sizes, large, table)?;
    fill(entries, sizes.slots, table.as_array::<TABLE>().unwrap());
    let head = Head {
        kind,
        readers: sizes.readers as u64,
        publishers: sizes.publishers as u64,
        slots: sizes.slots as u64,
        version,
    };
    put_fresh(words, head, published);
    Ok(())
}

// The reply to a making by the number of the first row that applies, 0 where none does.
pub fn reply_to(n: u64) -> Reply
    ensures { result ≡ choose (eqb n 0) Made (Refused n) }
{
    match n {
        0 => Reply::Made,
        _ => Reply::Refused(n),
    }
}

// The reply to a making by its result.
pub fn reply_of(made: Result<(), Refusal>) -> Reply
    ensures { result ≡ choose (eqb (number_in made) 0) Made (Refused (number_in made)) }
{
    match made {
        Ok(()) => Reply::Made,
        Err(refusal) => refusal.into(),
    }
}
