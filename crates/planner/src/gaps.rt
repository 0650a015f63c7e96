// The gaps of a stack, as its link map shows them.
ghost use Rattle.std.specs.Prelude.{◌≡◌, ℕ, ◌-◌, ◌*◌, ◌<◌, ◌≤◌, length};
ghost use Rattle.routing_laws.specs.Elevators.{Listed, elevators};

use mesh::{LINK, Sizes};
use routing::Places;

// A value of this type exists only where the map covers every gap, and every gap has an elevator.
#[derive(Clone, Copy)]
pub(crate) struct Gaps<'a> {
    pub(crate) sizes: Sizes,
    pub(crate) map: &'a [u8],
    ghost whole: { (sizes.planes - 1) * (sizes.width * sizes.height) ≤ length map.now },
    ghost linked: { (g : ℕ) → g < sizes.planes - 1 → 0 < length (elevators sizes.width sizes.height map.now g) },
}

impl Gaps<'_> {
    // Lists the elevators of a gap, row by row, in the list lent: by value it would stand on the stack twice. The index
    // of a byte of the map tells its place.
    pub(crate) fn elevators(self, gap: u8, list: &mut Places)
        requires { gap < self.sizes.planes - 1 }
        ensures list { list.new.items ≡ elevators self.entry.sizes.width self.entry.sizes.height self.entry.map.now gap }
        ensures exact { Listed self.entry.sizes.width self.entry.sizes.height self.entry.map.now gap list.new.items }
    {
        let area = self.sizes.area();
        let start = usize::from(gap) * area;
        list.clear();
        for (i, link) in self.map[start..start + area].iter().enumerate() {
            let is_link = *link == LINK;
            if is_link {
                list.push(self.sizes.place_at(i));
            }
        }
    }
}
