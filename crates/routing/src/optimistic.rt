// The optimistic scheme: every router is told in which directions elevators lie, and nobody is asked.
ghost use Rattle.std.specs.Prelude.{◌≡◌, ℕ, ◌*◌, ◌<◌, ◌≤◌, length};
ghost use Rattle.routing_laws.specs.Filling.{put_halves};
ghost use Rattle.routing_laws.specs.Optimistic.{compass, open_half, sighted};
ghost use Rattle.routing_laws.proofs.Compass.{open_long, open_small};
ghost use Rattle.routing_laws.proofs.Seeking.{open_lawful};

use crate::choosing::Chooser;
use crate::filling::{Filler, Task};
use crate::halves::write_half;
use mesh::{Directions, Place};

#[derive(Clone, Copy)]
pub struct Optimistic;

// The directions that one elevator adds: North and South only from its own column.
fn sight(place: Place, elevator: Place) -> Directions
    ensures { result ≡ sighted place elevator }
{
    let ahead = Directions::toward(place, elevator);
    if elevator.x == place.x {
        ahead
    } else {
        Directions {
            north: false,
            south: false,
            ..ahead
        }
    }
}

// The directions in which elevators lie from a place.
fn look(place: Place, elevators: &[Place]) -> Directions
    ensures { result ≡ compass elevators.now place }
{
    let mut seen = Directions::NONE;
    for elevator in elevators {
        seen = seen | sight(place, *elevator);
    }
    seen
}

impl<C: Chooser> Filler<C> for Optimistic {
    ghost half = { λ _ t _. open_half t.width t.height t.elevators };

    ghost next = { λ _ _ c. c };

    type Guide = Optimistic;

    ghost partner = { λ f. f };

    ghost long = { λ f t c. open_long t.width t.height t.elevators };

    ghost small = { λ f t c. open_small t.width t.height t.elevators };

    ghost lawful = { λ f t c some_columns some_rows some inside. open_lawful t.width t.height t.elevators some_columns some_rows };

    fn guide(&self) -> Optimistic {
        *self
    }

    fn fill(&self, task: Task, chooser: &mut C, bytes: &mut [u8]) {
        write_half(task, |place| look(place, task.elevators).pack(), bytes);
    }
}
