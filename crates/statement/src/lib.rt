// What is promised of every kind of store, over its words and entries:
// demand 3 as one statement about the whole list of calls, and its companions;
// and once for every kind, that they follow from an invariant that each step keeps,
// and hold of machines that are alike.
// It holds no code.
#![tactic(auto)]
