// A guide that looks at the destination: of the ports that the pointing guide permits, it permits those that lead
// towards the packet's destination, or all of them where none does.
ghost use Rattle.std.specs.Prelude.{◌≡◌, ◌*◌, replicate};
ghost use Rattle.house_rules.specs.Guiding.{leaning, lawful_for, some_direction, toward_reply};
ghost use Rattle.house_rules.specs.Leaning.{toward_rules, none_needed};

use mesh::{Directions, TurnOrder};
use routing::{Guide, Pointing, Request};

#[derive(Clone, Copy)]
pub struct TowardDestination {
    pub order: TurnOrder,
}

// The ports that also lead ahead, or all where none does.
fn lean(ports: Directions, ahead: Directions) -> Directions
    ensures { result ≡ leaning ports ahead }
{
    let shared = ports & ahead;
    if shared == Directions::NONE {
        ports
    } else {
        shared
    }
}

impl Guide for TowardDestination {
    ghost reply = { λ g t. toward_reply g.order t };

    ghost lawful = { λ g w h es filling. lawful_for g.order w h es filling };

    ghost rules = { λ g w h es filling some_columns some_rows inside lawful. toward_rules g.order w h es filling some_columns some_rows inside lawful };

    ghost none = { λ g w h. none_needed g.order w h (replicate (w * h) 0) };

    fn permits(&self, request: Request) -> Directions {
        let ports = Pointing { order: self.order }.permits(request);
        let ahead = Directions::toward(request.place, request.destination);
        lean(ports, ahead)
    }
}
