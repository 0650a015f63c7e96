// Where a port leads: the neighbour, and the buffer of it that a packet enters.
ghost use Rattle.std.specs.Prelude.{◌≡◌, true, false, MatchOption};
ghost use Rattle.mesh.specs.Layout.{in_stack};
ghost use Rattle.routing_laws.specs.Chains.{back};
ghost use Rattle.channel_laws.specs.Buffers.{entered, network};
ghost use Rattle.channel_laws.specs.Calls.{entered_by};
ghost use Rattle.channel_laws.specs.Ports.{leads_out, neighbour};

use channel_laws::{Buffer, Network, Port, Record};
use mesh::{Direction, Router, Sizes, Way};

// The network that a packet rides.
fn network(source: Router, destination: Router) -> Network
    ensures { result ≡ network source destination }
{
    if destination.z < source.z {
        Network::One
    } else {
        Network::Zero
    }
}

// The side on which a packet comes in that moved in a direction. No `From`: it turns a direction into another.
fn back(direction: Direction) -> Direction
    ensures { result ≡ back direction }
{
    match direction {
        Direction::North => Direction::South,
        Direction::East => Direction::West,
        Direction::South => Direction::North,
        Direction::West => Direction::East,
    }
}

// The buffer of the neighbour that a packet enters by a port.
fn entered(port: Port, network: Network) -> Buffer
    ensures { result ≡ entered port network }
{
    match port {
        Port::Planar(direction) => Buffer::Side(network, back(direction)),
        Port::Vertical(Way::Up) => Buffer::Below,
        Port::Vertical(Way::Down) => Buffer::Above,
    }
}

// The buffer that the packet of a record enters by a port.
pub(crate) fn entered_by(record: Record, port: Port) -> Buffer
    ensures { result ≡ entered_by «record» port }
{
    entered(port, network(record.source, record.destination))
}

// The router to which a port leads, if the stack has it.
#[inline(always)]
pub(crate) fn neighbour(sizes: Sizes, port: Port, router: Router) -> Option<Router>
    requires { in_stack sizes router ≡ true }
    ensures { MatchOption result (leads_out sizes port router ≡ true) (λ q. (leads_out sizes port router ≡ false) × (q ≡ neighbour port router) × (in_stack sizes q ≡ true)) }
{
    let Router { x, y, z } = router;
    let next = match port {
        Port::Planar(Direction::North) => Router { x, y: y + 1, z },
        Port::Planar(Direction::East) => Router { x: x + 1, y, z },
        Port::Planar(Direction::South) => Router {
            x,
            y: y.checked_sub(1)?,
            z,
        },
        Port::Planar(Direction::West) => Router {
            x: x.checked_sub(1)?,
            y,
            z,
        },
        Port::Vertical(Way::Up) => Router { x, y, z: z + 1 },
        Port::Vertical(Way::Down) => Router {
            x,
            y,
            z: z.checked_sub(1)?,
        },
    };
    if sizes.has(next) { Some(next) } else { None }
}
