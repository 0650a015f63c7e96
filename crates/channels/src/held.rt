// The packet that a call speaks of.
ghost use Rattle.std.specs.Prelude.{◌≡◌, ◌≤◌, Some, length, MatchResult};
ghost use Rattle.channel_laws.specs.Calls.{damaged, first, packet_reasons};
ghost use Rattle.channel_laws.specs.Table.{state, table_size};
ghost use Rattle.channels.specs.Results.{Found, state_of};

use crate::spots::record_number;
use crate::stacks::PlannedStack;
use channel_laws::{Buffer, Record};
use mesh::{Refusal, Router, Sizes};

// A packet never has more moves than this, and a record that says so is damaged.
const MOST_MOVES: u16 = 1000;

// A packet in a buffer of a router, and the number of its record.
#[derive(Clone, Copy)]
pub(crate) struct Held {
    pub(crate) router: Router,
    pub(crate) buffer: Buffer,
    pub(crate) index: usize,
    pub(crate) packet: Record,
}

fn is_damaged(sizes: Sizes, record: Record) -> bool
    ensures { result ≡ damaged sizes «record» }
{
    record.mark > 1
        || !(sizes.has(record.source) && sizes.has(record.destination))
        || record.moves > MOST_MOVES
}

impl PlannedStack<'_> {
    // The sound packet in a buffer of the stack, or the first reason why there is none.
    #[inline(always)]
    pub(crate) fn packet_at(
        &self,
        table: &[Record],
        router: Router,
        buffer: u8,
    ) -> Result<Held, Refusal>
        requires { table_size self.now.sizes ≤ length table.now }
        ensures { MatchResult result (λ h. Found (state_of self.now table.now) router buffer h) (λ x. first (packet_reasons (state_of self.now table.now) router buffer) ≡ Some x) }
    {
        if !self.sizes.has(router) {
            return Err(Refusal::Outside);
        }
        let buffer = Buffer::try_from(buffer)?;
        let index = record_number(self.sizes, router, buffer);
        let packet = table[index];
        if packet.is_empty() {
            return Err(Refusal::EmptyBuffer);
        }
        if is_damaged(self.sizes, packet) {
            return Err(Refusal::Damaged);
        }
        Ok(Held {
            router,
            buffer,
            index,
            packet,
        })
    }
}
