// Words of any kind, as definitions: the kind word tells which store they are, and that store's own making and step are what is done.
// Code: the kinds, and the number of each.
#![tactic(auto)]

ghost use Rattle.kinds_law.specs.Kinds.{IsKindOf};

use calls::{KIND_NEW, KIND_OLD, KIND_REST};

// The kinds: the new store (GraceVersion), the old one (Two-Phase with one publisher) and the one for loops that never enter a section (QSBR).
#[derive(Clone, Copy, PartialEq, Eq)]
pub enum Kind {
    New,
    Old,
    Rest,
}

// A number that no kind has.
#[derive(Clone, Copy, PartialEq, Eq)]
pub struct UnknownKind(pub u64);

impl TryFrom<u64> for Kind {
    type Error = UnknownKind;

    ghost try_from_gives = { IsKindOf };

    fn try_from(number: u64) -> Result<Self, UnknownKind> {
        match number {
            KIND_NEW => Ok(Kind::New),
            KIND_OLD => Ok(Kind::Old),
            KIND_REST => Ok(Kind::Rest),
            _ => Err(UnknownKind(number)),
        }
    }
}
