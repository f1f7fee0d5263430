// What is guaranteed, gathered: demand 3 and its companions, P1 to P12 as one list with one proof,
// the order of the refusals as another, all of words of any kind, and P1 as bytes of a run sheet.
// It holds no code.
#![tactic(auto)]
