// The optimistic scheme as a guide: XY when bound. A seeker is permitted one port, and goes on in its direction until
// an elevator lies in its column.
ghost use Rattle.std.specs.Prelude.{◌≡◌, ◌*◌, replicate};
ghost use Rattle.routing_laws.specs.Guides.{optimistic_lawful, optimistic_reply, seek};
ghost use Rattle.routing_laws.proofs.Seeking.{optimistic_rules, zero_lawful};

use crate::guiding::{Guide, Request};
use crate::optimistic::Optimistic;
use mesh::{Direction, Directions, Trip, TurnOrder};

// The one port of a seeker, by the side on which it came in: the first that applies.
fn port(half: Directions, destination: Directions, side: Option<Direction>) -> Direction
    ensures { result ≡ seek half destination side }
{
    let shared = half & destination;
    match side {
        Some(Direction::East) if shared.west => Direction::West,
        Some(Direction::West) if shared.east => Direction::East,
        Some(Direction::East | Direction::West) if shared.north => Direction::North,
        Some(Direction::East | Direction::West) if shared.south => Direction::South,
        Some(Direction::East | Direction::West) if half.north => Direction::North,
        Some(Direction::East | Direction::West) if half.south => Direction::South,
        Some(Direction::East) => Direction::West,
        Some(Direction::West) => Direction::East,
        Some(Direction::North) => Direction::South,
        Some(Direction::South) => Direction::North,
        None if shared.west => Direction::West,
        None if shared.east => Direction::East,
        None if shared.north => Direction::North,
        None if shared.south => Direction::South,
        None if half.north => Direction::North,
        None if half.south => Direction::South,
        None if half.west => Direction::West,
        None => Direction::East,
    }
}

impl Guide for Optimistic {
    ghost reply = { λ _ t. optimistic_reply t };

    ghost lawful = { λ _ w h es filling. optimistic_lawful w h es filling };

    ghost rules = { λ g w h es filling some_columns some_rows inside lawful. optimistic_rules w h es filling some_columns some_rows inside lawful };

    ghost none = { λ g w h. zero_lawful w h (replicate (w * h) 0) };

    fn permits(&self, request: Request) -> Directions {
        let ahead = Directions::toward(request.place, request.destination);
        match request.trip {
            Trip::Seeking => Directions::only(port(
                Directions::unpack(request.half),
                ahead,
                request.side,
            )),
            Trip::Bound => TurnOrder::xy().permits(ahead),
        }
    }
}
