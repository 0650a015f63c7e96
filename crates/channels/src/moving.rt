// Moves: whether one may be made, and what it writes.
ghost use Rattle.std.specs.Prelude.{◌≡◌, ◌≤◌, Some, MatchResult};
ghost use Rattle.channel_laws.specs.Calls.{carried, move_refusal};
ghost use Rattle.channels.specs.Results.{Steps, state_of};

use crate::entering::{entered_by, neighbour};
use crate::spots::record_number;
use crate::stacks::PlannedStack;
use channel_laws::{Port, Record};
use mesh::{Refusal, Router};
use routing::Guide;

// A move that may be made: the record to empty, the record to fill, and what is written there.
#[derive(Clone, Copy)]
pub(crate) struct Step {
    pub(crate) from: usize,
    pub(crate) to: usize,
    pub(crate) packet: Record,
}

// A packet after one more move.
fn carried(packet: Record) -> Record
    requires { packet.moves ≤ 1000 }
    ensures { result ≡ carried packet }
{
    Record {
        moves: packet.moves + 1,
        ..packet
    }
}

impl PlannedStack<'_> {
    // The step that a move makes, or the first reason to refuse it.
    pub(crate) fn checked_step<G: Guide>(
        &self,
        guide: &G,
        table: &[Record],
        router: Router,
        buffer: u8,
        port: u8,
    ) -> Result<Step, Refusal>
        ensures { MatchResult result (λ s. Steps (G.reply guide.now) (state_of self.now table.now) router buffer port s.from s.to s.packet) (λ x. move_refusal (G.reply guide.now) (state_of self.now table.now) router buffer port ≡ Some x) }
    {
        self.check_lengths(table)?;
        let port = Port::try_from(port)?;
        let held = self.packet_at(table, router, buffer)?;
        if router == held.packet.destination {
            return Err(Refusal::Arrived);
        }
        if !self.permitted_ports(guide, held).has(port) {
            return Err(Refusal::NotPermitted);
        }
        let neighbour = neighbour(self.sizes, port, router).ok_or(Refusal::LeavesStack)?;
        let to = record_number(self.sizes, neighbour, entered_by(held.packet, port));
        if !table[to].is_empty() {
            return Err(Refusal::Occupied);
        }
        Ok(Step {
            from: held.index,
            to,
            packet: carried(held.packet),
        })
    }
}
