// A scheme as a filler: each case fills as the supplied filler does.
ghost use Rattle.schemes.specs.Schemes.{scheme_half, scheme_next};
ghost use Rattle.routing_laws.proofs.Compass.{open_long, open_small};
ghost use Rattle.routing_laws.proofs.Safe.{safe_long, safe_small};
ghost use Rattle.routing_laws.proofs.Ties.{tie_long, tie_small};
ghost use Rattle.schemes.specs.declared.scheme.Scheme.TheVariants.{MdSafe, Optimistic, RandomOffline};
ghost use Rattle.routing_laws.proofs.Lawful.{safe_lawful, tie_lawful};
ghost use Rattle.routing_laws.proofs.Seeking.{open_lawful};

use crate::scheme::Scheme;
use routing::{Chooser, Filler, MdSafe, Optimistic, RandomOffline, Task};

impl<C: Chooser> Filler<C> for Scheme {
    ghost half = { λ f t c. scheme_half C.Chooser.position C.Chooser.after f t c };

    ghost next = { λ f t c. scheme_next C.Chooser.position C.Chooser.after f t c };

    type Guide = Scheme;

    ghost partner = { λ f. f };

    ghost long = { elim [
      | MdSafe o ↦ λ t c. safe_long t.width t.height t.elevators
      | RandomOffline o ↦ λ t c. tie_long C.Chooser.position C.Chooser.after o t c
      | Optimistic ↦ λ t c. open_long t.width t.height t.elevators
    ] };

    ghost small = { elim [
      | MdSafe o ↦ λ t c. safe_small t.width t.height t.elevators
      | RandomOffline o ↦ λ t c. tie_small C.Chooser.position C.Chooser.after o t c
      | Optimistic ↦ λ t c. open_small t.width t.height t.elevators
    ] };

    ghost lawful = { elim [
      | MdSafe o ↦ λ t c some_columns some_rows some inside. safe_lawful o t.width t.height t.elevators some_columns some_rows
      | RandomOffline o ↦ λ t c some_columns some_rows some inside. tie_lawful C.Chooser.position C.Chooser.after C.Chooser.within o t c some_columns some_rows
      | Optimistic ↦ λ t c some_columns some_rows some inside. open_lawful t.width t.height t.elevators some_columns some_rows
    ] };

    fn guide(&self) -> Scheme {
        *self
    }

    fn fill(&self, task: Task, chooser: &mut C, bytes: &mut [u8]) {
        match *self {
            Scheme::MdSafe(order) => MdSafe { order }.fill(task, chooser, bytes),
            Scheme::RandomOffline(order) => RandomOffline { order }.fill(task, chooser, bytes),
            Scheme::Optimistic => Optimistic.fill(task, chooser, bytes),
        }
    }
}
