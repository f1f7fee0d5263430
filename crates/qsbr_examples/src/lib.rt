// The bench examples of the rest store, the order of its refusals and what damages it, computed from its definitions;
// and stores that break demand 3, each refuted by one run.
// They take seconds to compute, so they stand apart from the law, of which each must-fail edit is a check of its own.
// It holds no code.
#![tactic(auto)]
