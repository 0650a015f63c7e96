// Directions within a plane, sets of them, and the two ways out of it.
ghost use Rattle.std.specs.Prelude.{◌≡◌};
ghost use Rattle.mesh.specs.Compass.{both, distance, has, joined, only, toward};

use crate::grid::Place;
use std::ops::{BitAnd, BitOr};

// Each direction with its bit of a half-byte.
#[derive(Clone, Copy, PartialEq, Eq, Debug)]
pub enum Direction {
    North = 1,
    East = 2,
    South = 4,
    West = 8,
}

#[derive(Clone, Copy, PartialEq, Eq, Debug)]
pub enum Way {
    Up,
    Down,
}

#[derive(Clone, Copy, PartialEq, Eq, Debug)]
pub struct Directions {
    pub north: bool,
    pub east: bool,
    pub south: bool,
    pub west: bool,
}

impl Directions {
    pub const NONE: Directions = Directions {
        north: false,
        east: false,
        south: false,
        west: false,
    };

    // One direction alone.
    pub fn only(direction: Direction) -> Directions
        ensures { result ≡ only direction }
    {
        match direction {
            Direction::North => Directions {
                north: true,
                ..Directions::NONE
            },
            Direction::East => Directions {
                east: true,
                ..Directions::NONE
            },
            Direction::South => Directions {
                south: true,
                ..Directions::NONE
            },
            Direction::West => Directions {
                west: true,
                ..Directions::NONE
            },
        }
    }

    // The directions in which `to` lies from `from`: none where they are the same place.
    pub fn toward(from: Place, to: Place) -> Directions
        ensures { result ≡ toward from to }
    {
        Directions {
            north: from.y < to.y,
            east: from.x < to.x,
            south: to.y < from.y,
            west: to.x < from.x,
        }
    }

    pub fn has(self, direction: Direction) -> bool
        ensures { result ≡ has direction self }
    {
        match direction {
            Direction::North => self.north,
            Direction::East => self.east,
            Direction::South => self.south,
            Direction::West => self.west,
        }
    }
}

// The directions that two sets share.
impl BitAnd for Directions {
    type Output = Directions;

    ghost bitand_gives = { λ s t r. r ≡ both s t };

    fn bitand(self, other: Directions) -> Directions {
        Directions {
            north: self.north & other.north,
            east: self.east & other.east,
            south: self.south & other.south,
            west: self.west & other.west,
        }
    }
}

// The directions that either of two sets has.
impl BitOr for Directions {
    type Output = Directions;

    ghost bitor_gives = { λ s t r. r ≡ joined s t };

    fn bitor(self, other: Directions) -> Directions {
        Directions {
            north: self.north | other.north,
            east: self.east | other.east,
            south: self.south | other.south,
            west: self.west | other.west,
        }
    }
}

impl Place {
    // The number of moves between two places of a plane.
    pub fn distance(self, other: Place) -> u16
        ensures { result ≡ distance self other }
    {
        u16::from(self.x.abs_diff(other.x)) + u16::from(self.y.abs_diff(other.y))
    }
}

// What a packet does in a plane: it seeks an elevator for its way, or it is bound for a router of this plane.
#[derive(Clone, Copy, PartialEq, Eq, Debug)]
pub enum Trip {
    Seeking,
    Bound,
}
