// The link map: a byte for each place of each gap.
ghost use Rattle.std.specs.Prelude.{◌≡◌, ℕ, ◌+◌, ◌-◌, ◌*◌, ◌<◌, ◌≤◌, false, length, Decides, MatchBool};
ghost use Rattle.mesh.specs.Layout.{Shown};

use crate::stack::Sizes;

// The byte that stands for a link; any other stands for none.
pub const LINK: u8 = 1;

// The bytes of a link map for the largest stack: 24 columns, 24 rows, 7 gaps.
pub const MAP_BYTES: usize = 4_032;

impl Sizes {
    // The number of gaps.
    pub fn gaps(self) -> usize
        ensures { result ≡ self.planes - 1 }
    {
        usize::from(self.planes) - 1
    }

    // Whether a gap has a link.
    fn linked(self, map: &[u8], gap: usize) -> bool
        requires { (gap + 1) * (self.width * self.height) ≤ length map.now }
        ensures { Decides result (Shown (self.width * self.height) map.now gap) }
    {
        let area = self.area();
        map[gap * area..(gap + 1) * area].contains(&LINK)
    }

    // Whether every gap has a link: not in a map that is too short for them all. A loop: by `chunks_exact` and `all` the
    // proof did not close.
    pub fn all_linked(self, map: &[u8]) -> bool
        ensures short { length map.now < (self.planes - 1) * (self.width * self.height) → result ≡ false }
        ensures linked { (self.planes - 1) * (self.width * self.height) ≤ length map.now → MatchBool result ((g : ℕ) → g < self.planes - 1 → Shown (self.width * self.height) map.now g) ((g : ℕ) × (g < self.planes - 1) × (Shown (self.width * self.height) map.now g → ⊥)) }
    {
        if map.len() < self.gaps() * self.area() {
            return false;
        }
        for gap in 0..self.gaps() {
            if !self.linked(map, gap) {
                return false;
            }
        }
        true
    }
}
