// Guides: which ports a packet may take within a plane.
ghost use Rattle.std.specs.Prelude.{◌≡◌, ℕ, ◌*◌, ◌<◌, List, [], replicate, Contains};
ghost use Rattle.mesh.specs.declared.compass.Directions.{Directions};
ghost use Rattle.mesh.specs.declared.grid.Place.{Place};
ghost use Rattle.mesh.specs.Layout.{Inside};
ghost use Rattle.routing_laws.specs.Chains.{Rules, Told, plane_of};
ghost use Rattle.routing.specs.Telling.{told_by};

use mesh::{Direction, Directions, Place, Sizes, Trip};

// What a guide is told: a packet at a router, the router's half-byte (0 when bound), the side on which the packet came
// in, and where it goes.
#[derive(Clone, Copy)]
pub struct Request {
    pub sizes: Sizes,
    pub place: Place,
    pub half: u8,
    pub destination: Place,
    pub side: Option<Direction>,
    pub trip: Trip,
}

// A guide's meaning is its reply, a function of what it is told, and the fillings that it counts as lawful for a
// list of elevators. It shows that under each lawful filling its replies keep the three rules, and that the zero
// filling is lawful where there is no elevator. It never refuses and never changes.
pub trait Guide {
    ghost reply: { Self → Told → Directions };

    ghost lawful: { Self → ℕ → ℕ → List Place → List ℕ → Type 0 };

    fn permits(&self, request: Request) -> Directions
        ensures { result ≡ reply self.now (told_by request) };

    ghost rules: { (g : Self) (w h : ℕ) (es : List Place) (filling : List ℕ) → 0 < w → 0 < h → ((e : Place) → Contains es e → Inside w h e) → lawful g w h es filling → Rules (plane_of w h es filling (reply g)) };

    ghost none: { (g : Self) (w h : ℕ) → lawful g w h [] (replicate (w * h) 0) };
}
