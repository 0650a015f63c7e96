// The pointing guide: a seeker needs the directions of its half-byte, a bound packet those towards its destination,
// and a turn order permits.
ghost use Rattle.routing_laws.specs.Guides.{needed, pointing_lawful, pointing_reply};
ghost use Rattle.std.specs.Prelude.{◌≡◌, ◌*◌, replicate};
ghost use Rattle.routing_laws.proofs.Pointing.{pointing_rules};
ghost use Rattle.routing_laws.proofs.Lawful.{none_lawful};

use crate::guiding::{Guide, Request};
use mesh::{Directions, Trip, TurnOrder};

#[derive(Clone, Copy)]
pub struct Pointing {
    pub order: TurnOrder,
}

impl Guide for Pointing {
    ghost reply = { λ g t. pointing_reply g.order t };

    ghost lawful = { λ g w h es filling. pointing_lawful g.order w h es filling };

    ghost rules = { λ g w h es filling some_columns some_rows inside lawful. pointing_rules g.order w h es filling some_columns some_rows inside lawful };

    ghost none = { λ g w h. none_lawful g.order w h (replicate (w * h) 0) };

    fn permits(&self, request: Request) -> Directions {
        let needed = match request.trip {
            Trip::Seeking => Directions::unpack(request.half),
            Trip::Bound => Directions::toward(request.place, request.destination),
        };
        self.order.permits(needed)
    }
}
