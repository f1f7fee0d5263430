// The new store, GraceVersion, as definitions: what it fixes of document 01's calls;
// demand 3 and the companions, proved of them.
// Code: its last version.
#![tactic(auto)]

// The last version: 2^64 - 2.
pub const LAST: u64 = 18446744073709551614;
