// The table that a store starts with: whether it may be one, and every slot filled with it.
// The contracts cite FirstTable of calls.
#![tactic(auto)]

ghost use Rattle.std.specs.Prelude.{◌+◌, ◌*◌, ◌<◌, ◌≤◌, ◌≡◌, false, ◌++◌, length, take};
ghost use Rattle.calls.specs.Numbers.{table_length};
ghost use Rattle.calls.specs.FirstTable.{out_of_range, any_out_of_range, steep, any_steep, tables};

use calls::{PITCH_HIGH, PITCH_LOW, Pitch, STEP_MAX, TABLE};

// Whether a pitch is out of range.
pub fn out_of_range(v: Pitch) -> bool
    ensures { result ≡ out_of_range v }
{
    !(PITCH_LOW..=PITCH_HIGH).contains(&v)
}

// Whether an entry is out of range. There is no early exit, as `any` has: so the machine tests several entries at once.
pub fn any_out_of_range(table: &[Pitch]) -> bool
    ensures { result ≡ any_out_of_range table.now }
{
    let mut any = false;
    for &v in table {
        any |= out_of_range(v);
    }
    any
}

// Whether two pitches in range differ by more than STEP_MAX. Out of range their difference need not be a pitch. With `abs_diff` a making takes 16 bytes of stack more.
fn differ(v: Pitch, other: Pitch) -> bool
    requires { (out_of_range v ≡ false) × (out_of_range other ≡ false) }
    ensures { result ≡ steep v other }
{
    let up = v - other;
    let down = other - v;
    (up > STEP_MAX) | (down > STEP_MAX)
}

// Whether two neighbours of a table whose entries are in range differ by more than STEP_MAX. There is no early exit here either, and `windows` takes more instructions.
pub fn any_steep(table: &[Pitch]) -> bool
    requires { any_out_of_range table.now ≡ false }
    ensures { result ≡ any_steep table.now }
{
    let mut any = false;
    for k in 1..table.len() {
        any |= differ(table[k - 1], table[k]);
    }
    any
}

// Puts the table at `base`, and leaves what stands before. Entry by entry: with `copy_from_slice` a making takes more instructions.
fn put_table(entries: &mut [Pitch], base: usize, table: &[Pitch; TABLE])
    requires { base + table_length ≤ length entries.old }
    ensures { (length entries.new ≡ length entries.old)
        × (take (base + table_length) entries.new ≡ take base entries.old ++ table.now) }
{
    for k in 0..TABLE {
        entries[base + k] = table[k];
    }
}

// Puts the table into every slot. The copy lies nowhere among the entries: so a slot can be filled without asking after each entry whether the table is still the same.
pub fn fill(entries: &mut [Pitch], slots: u16, table: &[Pitch; TABLE])
    requires { length entries.old ≡ slots * table_length }
    ensures { entries.new ≡ tables slots table.now }
{
    let copy = *table;
    for s in 0..slots {
        put_table(entries, s as usize * TABLE, &copy);
    }
}
