// The bench examples of the old store, the order of its refusals and what damages it, computed from its definitions;
// and Two-Phase as published, with several publishers, refuted by one run.
// They take seconds to compute, so they stand apart from the law, of which each must-fail edit is a check of its own.
// It holds no code.
#![tactic(auto)]
