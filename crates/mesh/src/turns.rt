// The set of each direction, 0 or 1: a number, as descriptions spell it and C hands it over. A value of this type never
// has all four directions in one set.
ghost use Rattle.std.specs.Prelude.{◌≡◌, ◌≤◌, ◌≢◌};

#[derive(Clone, Copy)]
pub struct TurnOrder {
    pub north: u8,
    pub east: u8,
    pub south: u8,
    pub west: u8,
    ghost north_most: { north ≤ 1 },
    ghost east_most: { east ≤ 1 },
    ghost south_most: { south ≤ 1 },
    ghost west_most: { west ≤ 1 },
    ghost two_sets: { north ≡ east → east ≡ south → south ≢ west },
}
