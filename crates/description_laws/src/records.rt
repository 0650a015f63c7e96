// The records of a description, with their fields as they are spelled.
ghost use Rattle.std.specs.Prelude.{◌≡◌, MatchResult};
ghost use Rattle.mesh.specs.declared.refusals.Refusal.TheVariants.{OutOfRange};
ghost use Rattle.mesh.specs.Layout.{Range, SameSizes};
ghost use Rattle.mesh.specs.Orders.{Decided};

use mesh::{Link, Refusal, Sizes, TurnOrder};

// The body of a record S: columns, rows and planes.
#[derive(Clone, Copy, PartialEq, Eq, Debug)]
pub struct Extent {
    pub width: u8,
    pub height: u8,
    pub planes: u8,
}

// The body of a record O: the set of each direction, as a number that may be out of range.
#[derive(Clone, Copy, PartialEq, Eq, Debug)]
pub struct SetNumbers {
    pub north: u8,
    pub east: u8,
    pub south: u8,
    pub west: u8,
}

#[derive(Clone, Copy, PartialEq, Eq, Debug)]
pub enum Record {
    Stack(Extent),
    Order(SetNumbers),
    Pillar(Link),
    End,
}

impl TryFrom<Extent> for Sizes {
    type Error = Refusal;

    ghost try_from_gives = { λ e r. MatchResult r (λ s. SameSizes s e.width e.height e.planes) (λ x. (x ≡ OutOfRange) × (Range e.width e.height e.planes → ⊥)) };

    fn try_from(extent: Extent) -> Result<Sizes, Refusal> {
        Sizes::new(extent.width, extent.height, extent.planes)
    }
}

impl TryFrom<SetNumbers> for TurnOrder {
    type Error = Refusal;

    ghost try_from_gives = { λ s r. Decided s.north s.east s.south s.west r };

    fn try_from(sets: SetNumbers) -> Result<TurnOrder, Refusal> {
        TurnOrder::new(sets.north, sets.east, sets.south, sets.west)
    }
}
