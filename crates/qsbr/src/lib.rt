// The rest store, Qsbr, by value. `stores` has its methods.
#![tactic(auto)]

use qsbr_damage::QsbrScheme;

// A store's control state.
pub type Qsbr = stores::Store<QsbrScheme>;

// A store handed back, and the reply.
pub type Stepped = stores::Stepped<QsbrScheme>;
