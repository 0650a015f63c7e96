// How turn orders are made.
ghost use Rattle.std.specs.Prelude.{◌≡◌, if◌then◌else◌};
ghost use Rattle.mesh.specs.Orders.{Decided, lowest, permitted, xy};

use crate::compass::Directions;
use crate::refusals::Refusal;
use crate::turns::TurnOrder;

// Sets are numbered from 0 to this.
pub const LAST_SET: u8 = 1;

// The set of a direction, where it is needed.
fn rank(needed: bool, set: u8) -> u8
    ensures { result ≡ (if needed then set else 2) }
{
    if needed { set } else { LAST_SET + 1 }
}

impl TurnOrder {
    // A turn order from the set of each direction.
    pub fn new(north: u8, east: u8, south: u8, west: u8) -> Result<TurnOrder, Refusal>
        ensures { Decided north east south west result }
    {
        if north > LAST_SET || east > LAST_SET || south > LAST_SET || west > LAST_SET {
            return Err(Refusal::OutOfRange);
        }
        if north == east && east == south && south == west {
            return Err(Refusal::OneSet);
        }
        Ok(TurnOrder {
            north,
            east,
            south,
            west,
        })
    }

    // The lowest set that holds a needed direction, and one above the last set where none is needed.
    pub fn lowest(self, needed: Directions) -> u8
        ensures { result ≡ lowest self needed }
    {
        let first = rank(needed.north, self.north).min(rank(needed.east, self.east));
        let second = rank(needed.south, self.south).min(rank(needed.west, self.west));
        first.min(second)
    }

    // Of the needed directions, those in the lowest set that holds any of them.
    pub fn permits(self, needed: Directions) -> Directions
        ensures { result ≡ permitted self needed }
    {
        let lowest = self.lowest(needed);
        Directions {
            north: needed.north & (self.north == lowest),
            east: needed.east & (self.east == lowest),
            south: needed.south & (self.south == lowest),
            west: needed.west & (self.west == lowest),
        }
    }

    // XY: East and West come first.
    pub fn xy() -> TurnOrder
        ensures { result ≡ xy }
    {
        TurnOrder {
            north: 1,
            east: 0,
            south: 1,
            west: 0,
        }
    }
}
