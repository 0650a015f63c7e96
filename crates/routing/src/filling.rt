// Fillers: what writes one half of one plane.
ghost use Rattle.std.specs.Prelude.{◌≡◌, ℕ, ◌*◌, ◌<◌, ◌≤◌, List, length, All, Contains};
ghost use Rattle.mesh.specs.declared.grid.Place.{Place};
ghost use Rattle.mesh.specs.Layout.{Inside};

use crate::choosing::Chooser;
use crate::guiding::Guide;
use mesh::{Place, Sizes, Way};

// One half of one plane: what a filler is told. There is always an elevator to offer, and never more than a plane has
// places.
#[derive(Clone, Copy)]
pub struct Task<'a> {
    pub sizes: Sizes,
    pub plane: u8,
    pub way: Way,
    pub elevators: &'a [Place],
    ghost some: { 0 < length elevators.now },
    ghost few: { length elevators.now ≤ sizes.width * sizes.height },
}

// A filler's meaning is the half that it writes and the chooser's next state, both functions of what it is told
// and of the chooser's state. A guide comes from its filler, so that no plan is read by a guide it was not made for.
// The planner lends `fill` the bytes of exactly one plane.
pub trait Filler<C: Chooser> {
    ghost use Rattle.routing_laws.specs.Filling.{Task, put_halves};
    ghost use Rattle.routing.specs.Telling.{task_of};

    ghost half: { Self → Task → C → List ℕ };

    ghost next: { Self → Task → C → C };

    // the guide for which its fillings are lawful
    type Guide: Guide + Drop;

    ghost partner: { Self → Self.Guide };

    fn guide(&self) -> Self::Guide
        ensures { result ≡ partner self.now };

    fn fill(&self, task: Task, chooser: &mut C, bytes: &mut [u8])
        requires { length bytes.old ≡ task.sizes.width * task.sizes.height }
        ensures writes { bytes.new ≡ put_halves task.entry.way bytes.old (half self.now (task_of task.entry) chooser.old) }
        ensures goes { chooser.new ≡ next self.now (task_of task.entry) chooser.old };

    ghost long: { (f : Self) (t : Task) (c : C) → length (half f t c) ≡ t.width * t.height };

    ghost small: { (f : Self) (t : Task) (c : C) → All (λ v. v < 16) (half f t c) };

    ghost lawful: { (f : Self) (t : Task) (c : C) → 0 < t.width → 0 < t.height → 0 < length t.elevators → ((e : Place) → Contains t.elevators e → Inside t.width t.height e) → Self.Guide.Guide.lawful (partner f) t.width t.height t.elevators (half f t c) };
}
