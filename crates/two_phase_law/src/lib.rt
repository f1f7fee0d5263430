// The old store, Two-Phase with one publisher, as definitions: what it fixes of document 01's calls;
// demand 3 and the companions, proved of them.
// It holds no code.
#![tactic(auto)]
