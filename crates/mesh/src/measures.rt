// How sizes are made, and where a place lies in a map or among the routers.
ghost use Rattle.std.specs.Prelude.{◌≡◌, ◌*◌, ◌<◌, true, MatchResult};
ghost use Rattle.mesh.specs.declared.refusals.Refusal.TheVariants.{OutOfRange};
ghost use Rattle.mesh.specs.Layout.{cell, in_stack, place_at, Range, router_nth, SameSizes};

use crate::grid::{Place, Router};
use crate::refusals::Refusal;
use crate::stack::{MOST_COLUMNS, MOST_PLANES, MOST_ROWS, Sizes};

impl Sizes {
    pub fn new(width: u8, height: u8, planes: u8) -> Result<Sizes, Refusal>
        ensures { MatchResult result (λ s. SameSizes s width height planes) (λ e. (e ≡ OutOfRange) × (Range width height planes → ⊥)) }
    {
        if width < 1
            || width > MOST_COLUMNS
            || height < 1
            || height > MOST_ROWS
            || planes < 1
            || planes > MOST_PLANES
        {
            return Err(Refusal::OutOfRange);
        }
        Ok(Sizes {
            width,
            height,
            planes,
        })
    }

    // Whether the stack has this router.
    pub fn has(self, router: Router) -> bool
        ensures { result ≡ in_stack self router }
    {
        router.x < self.width && router.y < self.height && router.z < self.planes
    }

    // The number of routers of a plane.
    pub fn area(self) -> usize
        ensures { result ≡ self.width * self.height }
    {
        usize::from(self.width) * usize::from(self.height)
    }

    // The number of routers of the stack.
    pub fn routers(self) -> usize
        ensures { result ≡ self.planes * (self.width * self.height) }
    {
        usize::from(self.planes) * self.area()
    }

    // Where a place of a plane stands among the routers, or a place of a gap in the link map.
    pub fn index(self, layer: u8, place: Place) -> usize
        ensures { result ≡ cell self.width self.height layer place }
    {
        (usize::from(layer) * usize::from(self.height) + usize::from(place.y))
            * usize::from(self.width)
            + usize::from(place.x)
    }

    // The place of the i-th router of the stack within its plane.
    pub fn place_at(self, i: usize) -> Place
        ensures { result ≡ place_at self.width self.height i }
    {
        let width = usize::from(self.width);
        Place {
            x: (i % width) as u8,
            y: (i / width % usize::from(self.height)) as u8,
        }
    }

    // The i-th router of the stack: the inverse of `index`. Past the last router the count starts anew.
    pub fn router_at(self, i: usize) -> Router
        ensures value { result ≡ router_nth self.width self.height self.planes i }
        ensures within { in_stack self result ≡ true }
    {
        let Place { x, y } = self.place_at(i);
        let plane = i / usize::from(self.width) / usize::from(self.height);
        Router {
            x,
            y,
            z: (plane % usize::from(self.planes)) as u8,
        }
    }
}
