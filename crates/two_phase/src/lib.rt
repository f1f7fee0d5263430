// The old store, TwoPhase, by value. `stores` has its methods.
#![tactic(auto)]

use two_phase_damage::TwoPhaseScheme;

// A store's control state.
pub type TwoPhase = stores::Store<TwoPhaseScheme>;

// A store handed back, and the reply.
pub type Stepped = stores::Stepped<TwoPhaseScheme>;
