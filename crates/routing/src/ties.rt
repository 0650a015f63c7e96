// Random-offline: every router points at one of its nearest elevators, and a chooser settles ties. Elevators that
// need only directions of the last set come first: from others a packet could turn back into a set it has left.
ghost use Rattle.std.specs.Prelude.{◌≡◌, ℕ, ◌+◌, ◌*◌, ◌<◌, ◌≤◌, cond, ◌&&◌, length, take, filter};
ghost use Rattle.mesh.specs.Compass.{distance, toward};
ghost use Rattle.mesh.specs.Layout.{place_at};
ghost use Rattle.mesh.specs.Orders.{lowest};
ghost use Rattle.routing_laws.specs.Filling.{put_halves};
ghost use Rattle.arrayvec.specs.ArrayVec.{array_vec_len};
ghost use Rattle.routing.specs.Telling.{task_of};
ghost use Rattle.routing_laws.specs.Ties.{candidate, candidates, least, onward, target, tie_half, tie_next};
ghost use Rattle.routing_laws.proofs.Ties.{tie_long, tie_small};
ghost use Rattle.routing_laws.proofs.Lawful.{tie_lawful};

use crate::choosing::{Chooser, Question};
use crate::filling::{Filler, Task};
use crate::pointing::Pointing;
use crate::rooms::{Places, list_passing};
use crate::safe::pointing;
use mesh::{Directions, LAST_SET, Place, TurnOrder};

#[derive(Clone, Copy)]
pub struct RandomOffline {
    pub order: TurnOrder,
}

// The smallest distance to an elevator: a loop, the form asked for where elevators are gone through.
fn least_distance(place: Place, elevators: &[Place]) -> u16
    requires { 0 < length elevators.now }
    ensures { result ≡ least place elevators.now }
{
    let mut least = place.distance(elevators[0]);
    for elevator in elevators {
        least = least.min(place.distance(*elevator));
    }
    least
}

impl RandomOffline {
    // The candidates of a router, listed in the list lent: of its nearest elevators those that need directions of the
    // last set alone, or all where none does. One list serves for both: a second would stand on the stack beside it.
    fn candidates<'a>(self, task: Task, place: Place, list: &'a mut Places) -> &'a [Place]
        ensures list { result.now ≡ candidates self.order place task.entry.elevators.now }
        ensures some { 0 < length result.now }
    {
        let least = least_distance(place, task.elevators);
        list_passing(
            task.elevators,
            |elevator| {
                place.distance(*elevator) == least
                    && self.order.lowest(Directions::toward(place, *elevator)) >= LAST_SET
            },
            list,
        );
        if list.is_empty() {
            list_passing(
                task.elevators,
                |elevator| place.distance(*elevator) == least,
                list,
            );
        }
        list
    }

    // The elevator that a router points at: the chooser is asked only where two or more candidates remain.
    fn settle<C: Chooser>(
        self,
        task: Task,
        place: Place,
        list: &mut Places,
        chooser: &mut C,
    ) -> Place
        ensures settles { result ≡ target C.position C.after self.order task.entry.plane task.entry.way task.entry.elevators.now place chooser.old }
        ensures goes { chooser.new ≡ onward C.position C.after self.order task.entry.plane task.entry.way task.entry.elevators.now place chooser.old }
    {
        let candidates = self.candidates(task, place, list);
        if candidates.len() < 2 {
            return candidates[0];
        }
        let question = Question {
            plane: task.plane,
            way: task.way,
            router: place,
            candidates,
        };
        candidates[chooser.choose(question)]
    }

    // One half of a plane, router by router. Its loop is not `write_half`: the chooser changes from router to router.
    fn settle_all<C: Chooser>(self, task: Task, chooser: &mut C, bytes: &mut [u8])
        requires { length bytes.old ≡ task.sizes.width * task.sizes.height }
        ensures writes { bytes.new ≡ put_halves task.entry.way bytes.old (tie_half C.position C.after self.order (task_of task.entry) chooser.old) }
        ensures goes { chooser.new ≡ tie_next C.position C.after self.order (task_of task.entry) chooser.old }
    {
        let mut list = Places::new();
        for (i, byte) in bytes.iter_mut().enumerate() {
            let place = task.sizes.place_at(i);
            let elevator = self.settle(task, place, &mut list, chooser);
            *byte = task.way.with_half(*byte, pointing(place, elevator));
        }
    }
}

impl<C: Chooser> Filler<C> for RandomOffline {
    ghost half = { λ f t c. tie_half C.Chooser.position C.Chooser.after f.order t c };

    ghost next = { λ f t c. tie_next C.Chooser.position C.Chooser.after f.order t c };

    type Guide = Pointing;

    ghost partner = { λ f. record { order = f.order } };

    ghost long = { λ f t c. tie_long C.Chooser.position C.Chooser.after f.order t c };

    ghost small = { λ f t c. tie_small C.Chooser.position C.Chooser.after f.order t c };

    ghost lawful = { λ f t c some_columns some_rows some inside. tie_lawful C.Chooser.position C.Chooser.after C.Chooser.within f.order t c some_columns some_rows };

    fn guide(&self) -> Pointing {
        Pointing { order: self.order }
    }

    fn fill(&self, task: Task, chooser: &mut C, bytes: &mut [u8]) {
        self.settle_all(task, chooser, bytes);
    }
}
