// Each look of a WALK, of either kind that walks, is counted in the four numbers of the publisher's walk.
// The contracts cite publication_law.
#![tactic(auto)]

ghost use Rattle.std.specs.Prelude.{◌≡◌};
ghost use Rattle.publication_law.specs.Looks.{with_look};
ghost use Rattle.publication_looks.specs.LookFits.{LookFits};

use layout::WalkRecord;

// The walk is lent: it is taken apart, and the moved numbers are stored.
fn count_look(walk: &mut WalkRecord, passed: u64, waited: u64)
    requires { LookFits walk.old passed waited }
    ensures { walk.new ≡ with_look walk.old passed waited }
{
    let WalkRecord {
        mark,
        next,
        looks,
        waits,
    } = *walk;
    *walk = WalkRecord {
        mark,
        next: next + passed,
        looks: looks + 1,
        waits: waits + waited,
    };
}

// A walk after one look more, which passed so many readers and waited so often, by value.
pub fn look_counted(mut walk: WalkRecord, passed: u64, waited: u64) -> WalkRecord
    requires { LookFits walk passed waited }
    ensures { result ≡ with_look walk passed waited }
{
    count_look(&mut walk, passed, waited);
    walk
}
