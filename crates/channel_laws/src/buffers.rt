// The buffers of a router, and the ports by which a packet leaves it. Both go by numbers at the calls.
ghost use Rattle.std.specs.Prelude.{◌≡◌, ℕ};
ghost use Rattle.channel_laws.specs.Buffers.{buffer_at, buffer_number, port_at, side_at, side_number};
ghost use Rattle.channel_laws.specs.Ports.{has_port, planar_only, way_only};

use mesh::{Direction, Directions, Refusal, Way};

#[derive(Clone, Copy, PartialEq, Eq, Debug)]
pub enum Network {
    Zero,
    One,
}

// Eleven buffers: Local, the four sides on each network, Below and Above.
#[derive(Clone, Copy, PartialEq, Eq, Debug)]
pub enum Buffer {
    Local,
    Side(Network, Direction),
    Below,
    Above,
}

// Six ports: four in the plane, and two out of it.
#[derive(Clone, Copy, PartialEq, Eq, Debug)]
pub enum Port {
    Planar(Direction),
    Vertical(Way),
}

// A set of ports.
#[derive(Clone, Copy, PartialEq, Eq, Debug)]
pub struct Ports {
    pub planar: Directions,
    pub up: bool,
    pub down: bool,
}

// The four sides in the order in which buffers and ports are numbered, which is not that of a half-byte's bits.
fn side_at(number: u8) -> Direction
    ensures { result ≡ side_at number }
{
    match number {
        0 => Direction::East,
        1 => Direction::West,
        2 => Direction::North,
        _ => Direction::South,
    }
}

fn side_number(side: Direction) -> usize
    ensures { result ≡ side_number side }
{
    match side {
        Direction::East => 0,
        Direction::West => 1,
        Direction::North => 2,
        Direction::South => 3,
    }
}

impl Buffer {
    // How many buffers a router has.
    pub const COUNT: usize = 11;

    // The number of the buffer among those of its router.
    pub fn number(self) -> usize
        ensures { result ≡ buffer_number self }
    {
        match self {
            Buffer::Local => 0,
            Buffer::Side(Network::Zero, side) => 1 + side_number(side),
            Buffer::Side(Network::One, side) => 5 + side_number(side),
            Buffer::Below => 9,
            Buffer::Above => 10,
        }
    }
}

impl TryFrom<u8> for Buffer {
    type Error = Refusal;

    ghost try_from_gives = { λ n r. r ≡ buffer_at n };

    fn try_from(number: u8) -> Result<Buffer, Refusal> {
        match number {
            0 => Ok(Buffer::Local),
            1..=4 => Ok(Buffer::Side(Network::Zero, side_at(number - 1))),
            5..=8 => Ok(Buffer::Side(Network::One, side_at(number - 5))),
            9 => Ok(Buffer::Below),
            10 => Ok(Buffer::Above),
            _ => Err(Refusal::Outside),
        }
    }
}

impl Port {
    // How many ports a router has.
    pub const COUNT: usize = 6;
}

impl TryFrom<u8> for Port {
    type Error = Refusal;

    ghost try_from_gives = { λ n r. r ≡ port_at n };

    fn try_from(number: u8) -> Result<Port, Refusal> {
        match number {
            0..=3 => Ok(Port::Planar(side_at(number))),
            4 => Ok(Port::Vertical(Way::Up)),
            5 => Ok(Port::Vertical(Way::Down)),
            _ => Err(Refusal::Outside),
        }
    }
}

impl Ports {
    // These ports of the plane alone.
    pub fn planar_only(planar: Directions) -> Ports
        ensures { result ≡ planar_only planar }
    {
        Ports {
            planar,
            up: false,
            down: false,
        }
    }

    // The port of a way alone.
    pub fn way_only(way: Way) -> Ports
        ensures { result ≡ way_only way }
    {
        Ports {
            planar: Directions::NONE,
            up: way == Way::Up,
            down: way == Way::Down,
        }
    }

    pub fn has(self, port: Port) -> bool
        ensures { result ≡ has_port port self }
    {
        match port {
            Port::Planar(direction) => self.planar.has(direction),
            Port::Vertical(Way::Up) => self.up,
            Port::Vertical(Way::Down) => self.down,
        }
    }
}
