// MD-safe: every router points at the last listed of its nearest elevators, and nobody is asked.
ghost use Rattle.std.specs.Prelude.{◌≡◌, ◌*◌, ◌<◌, ◌≤◌, length};
ghost use Rattle.routing_laws.specs.Filling.{put_halves};
ghost use Rattle.routing_laws.specs.Nearest.{LastNearest, last_nearest, pointing, safe_half};
ghost use Rattle.routing_laws.proofs.Safe.{safe_long, safe_small};
ghost use Rattle.routing_laws.proofs.Lawful.{safe_lawful};

use crate::choosing::Chooser;
use crate::filling::{Filler, Task};
use crate::halves::write_half;
use crate::pointing::Pointing;
use mesh::{Directions, Place, TurnOrder};

// It serves packets under any turn order, and keeps the one it was planned for.
#[derive(Clone, Copy)]
pub struct MdSafe {
    pub order: TurnOrder,
}

// The position of the last listed elevator of smallest distance: a loop with the index, the form asked for where
// elevators are gone through.
fn last_nearest(place: Place, elevators: &[Place]) -> usize
    requires { 0 < length elevators.now }
    ensures { LastNearest elevators.now place result }
{
    let mut best = 0;
    let mut least = place.distance(elevators[0]);
    for (i, elevator) in elevators.iter().enumerate() {
        let distance = place.distance(*elevator);
        if distance <= least {
            best = i;
            least = distance;
        }
    }
    best
}

// The half-byte that points from a place at an elevator.
pub(crate) fn pointing(place: Place, elevator: Place) -> u8
    ensures { result ≡ pointing place elevator }
{
    Directions::toward(place, elevator).pack()
}

// The half-byte that points from a place at its last nearest elevator.
fn half_byte(place: Place, elevators: &[Place]) -> u8
    requires { 0 < length elevators.now }
    ensures { result ≡ pointing place (last_nearest place elevators.now) }
{
    pointing(place, elevators[last_nearest(place, elevators)])
}

impl<C: Chooser> Filler<C> for MdSafe {
    ghost half = { λ _ t _. safe_half t.width t.height t.elevators };

    ghost next = { λ _ _ c. c };

    type Guide = Pointing;

    ghost partner = { λ f. record { order = f.order } };

    ghost long = { λ f t c. safe_long t.width t.height t.elevators };

    ghost small = { λ f t c. safe_small t.width t.height t.elevators };

    ghost lawful = { λ f t c some_columns some_rows some inside. safe_lawful f.order t.width t.height t.elevators some_columns some_rows };

    fn guide(&self) -> Pointing {
        Pointing { order: self.order }
    }

    fn fill(&self, task: Task, chooser: &mut C, bytes: &mut [u8]) {
        write_half(task, |place| half_byte(place, task.elevators), bytes);
    }
}
