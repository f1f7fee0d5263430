// The steps that the kinds of store share, as definitions: making, LOOK, the publisher calls,
// the shared part of the damage test; a kind as a table, and the table that comes of what a kind with sections fixes;
// the invariant of slots and sections, that each shared step keeps it,
// and what is promised of every kind that keeps its part.
// It holds no code.
#![tactic(auto)]
