// What every call on a channel table is told of its stack.
ghost use Rattle.std.specs.Prelude.{◌≡◌, ◌≤◌, true, false, length, MatchResult};
ghost use Rattle.mesh.specs.declared.refusals.Refusal.TheVariants.{ShortBuffer};
ghost use Rattle.channel_laws.specs.Calls.{short};
ghost use Rattle.channel_laws.specs.Table.{table_size};
ghost use Rattle.channels.specs.Results.{state_of};

use crate::spots::table_size;
use channel_laws::Record;
use mesh::{Refusal, Sizes};

// A stack as it was planned: its sizes, its link map and its location bytes. The table is no part of it, as it alone is
// changed, nor is the guide, which only two calls ask; a router and a buffer's number stand beside, as a call has them.
#[derive(Clone, Copy)]
pub struct PlannedStack<'a> {
    pub sizes: Sizes,
    pub map: &'a [u8],
    pub bytes: &'a [u8],
}

impl PlannedStack<'_> {
    // Refuses a map, bytes or a table that is too short.
    pub(crate) fn check_lengths(&self, table: &[Record]) -> Result<(), Refusal>
        ensures { MatchResult result (λ _. (short (state_of self.now table.now) ≡ false) × (table_size self.now.sizes ≤ length table.now)) (λ x. (x ≡ ShortBuffer) × (short (state_of self.now table.now) ≡ true)) }
    {
        let sizes = self.sizes;
        if self.map.len() < sizes.gaps() * sizes.area()
            || self.bytes.len() < sizes.routers()
            || table.len() < table_size(sizes)
        {
            return Err(Refusal::ShortBuffer);
        }
        Ok(())
    }
}
