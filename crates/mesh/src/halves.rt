// Half-bytes: four direction bits. A router's byte has the half for Up below the half for Down.
ghost use Rattle.std.specs.Prelude.{◌≡◌, ◌+◌, ◌*◌, ◌%◌, ◌<◌};
ghost use Rattle.mesh.specs.Halves.{Faithful, half, holds, opposite, pack, share, unpack, weight, with_half};

use crate::compass::{Direction, Directions, Way};

fn bit(direction: Direction) -> u8
    ensures { result ≡ weight direction }
{
    direction as u8
}

// The bit of a direction, where the set holds it.
fn bit_in(set: Directions, direction: Direction) -> u8
    ensures { result ≡ share set direction }
{
    if set.has(direction) {
        bit(direction)
    } else {
        0
    }
}

fn is_set(half: u8, direction: Direction) -> bool
    ensures { result ≡ holds half direction }
{
    half & bit(direction) != 0
}

fn low_half(byte: u8) -> u8
    ensures { result ≡ byte % 16 }
{
    byte & 15
}

fn join(high: u8, low: u8) -> u8
    requires { (high < 16) × (low < 16) }
    ensures { result ≡ high * 16 + low }
{
    high << 4 | low
}

impl Directions {
    // The half-byte of a set of directions.
    pub fn pack(self) -> u8
        ensures { result ≡ pack self }
    {
        bit_in(self, Direction::North)
            | bit_in(self, Direction::East)
            | bit_in(self, Direction::South)
            | bit_in(self, Direction::West)
    }

    // The directions of a half-byte; bits above the lowest four do not count.
    pub fn unpack(half: u8) -> Directions
        ensures { result ≡ unpack half }
    {
        Directions {
            north: is_set(half, Direction::North),
            east: is_set(half, Direction::East),
            south: is_set(half, Direction::South),
            west: is_set(half, Direction::West),
        }
    }
}

impl Way {
    // The half of a router's byte that serves this way.
    pub fn half(self, byte: u8) -> u8
        ensures { result ≡ half self byte }
    {
        match self {
            Way::Up => low_half(byte),
            Way::Down => byte >> 4,
        }
    }

    // The byte with this way's half replaced by the lowest four bits of `value`.
    pub fn with_half(self, byte: u8, value: u8) -> u8
        ensures { result ≡ with_half self byte value }
    {
        match self {
            Way::Up => join(byte >> 4, low_half(value)),
            Way::Down => join(low_half(value), low_half(byte)),
        }
    }
}

// Does nothing: its contract says that no half-byte loses a bit, and that no half disturbs the other.
pub fn half_bytes_are_faithful()
    ensures { Faithful }
{}
