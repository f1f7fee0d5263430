// The new store, GraceVersion, by value. `stores` has its methods.
#![tactic(auto)]

use grace_version_damage::GraceVersionScheme;

// A store's control state.
pub type GraceVersion = stores::Store<GraceVersionScheme>;

// A store handed back, and the reply.
pub type Stepped = stores::Stepped<GraceVersionScheme>;
