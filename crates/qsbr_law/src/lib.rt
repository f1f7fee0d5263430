// The rest store's last version, as document 02 has it.
// specs/: what the rest store fixes of the calls, its invariant, and the theorems about it.
#![tactic(auto)]

pub const LAST: u64 = 18446744073709551615;
