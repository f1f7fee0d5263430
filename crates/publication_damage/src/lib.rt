// What the kinds share of the damage test: the head, for any words and any number of entries.
// The contract cites publication_law.
#![tactic(auto)]

ghost use Rattle.std.specs.Prelude.{◌≡◌, List, ℤ, length, ltb};
ghost use Rattle.base.specs.Rows.{any_true};
ghost use Rattle.layout.specs.Layout.{version};
ghost use Rattle.statement.specs.Machine.{state};
ghost use Rattle.publication_law.specs.Damage.{DamageRules, head_rows};

use calls::{PUBLISHERS_MAX, READERS_MAX, SLOTS_MAX, SLOTS_MIN, TABLE};
use layout::{WORDS, Words, current_of, kind_of, publishers_of, readers_of, slots_of, version_of};

// Whether the head of 713 words damages a store of this kind, with so many entries, whose versions go up to last.
fn head_damaged(words: &Words, entries: usize, kind: u64, last: u64) -> bool
    ensures { (K : DamageRules) (es : List ℤ) → K.number ≡ kind →
        K.versions.too_large (version words.now) ≡ ltb last (version words.now) →
        length es ≡ entries →
        result ≡ any_true (head_rows K (state words.now es)) }
{
    if kind_of(words) != kind {
        return true;
    }
    let readers = readers_of(words);
    if (readers < 1) | (readers > READERS_MAX as u64) {
        return true;
    }
    let publishers = publishers_of(words);
    if (publishers < 1) | (publishers > PUBLISHERS_MAX as u64) {
        return true;
    }
    let slots = slots_of(words);
    if (slots < SLOTS_MIN as u64) | (slots > SLOTS_MAX as u64) {
        return true;
    }
    if entries / TABLE != slots as usize {
        return true;
    }
    if entries % TABLE != 0 {
        return true;
    }
    if current_of(words) >= slots {
        return true;
    }
    version_of(words) > last
}

// The same of any words: another length damages here too.
pub fn head_damaged_of_kind(words: &[u64], entries: usize, kind: u64, last: u64) -> bool
    ensures { (K : DamageRules) (es : List ℤ) → K.number ≡ kind →
        K.versions.too_large (version words.now) ≡ ltb last (version words.now) →
        length es ≡ entries →
        result ≡ any_true (head_rows K (state words.now es)) }
{
    let Some(words) = words.as_array::<WORDS>() else {
        return true;
    };
    head_damaged(words, entries, kind, last)
}
