// The calls on a channel table. Buffers and ports go by their numbers: any number may be asked for, and one outside is
// refused.
ghost use Rattle.std.specs.Prelude.{◌≡◌, ◌<◌, ◌≤◌, [], length};
ghost use Rattle.channel_laws.specs.Calls.{clear_refusal, outcome, ports_reply};
ghost use Rattle.channel_laws.specs.declared.calls.Call.TheVariants.{Move};
ghost use Rattle.channel_laws.specs.declared.calls.Done.TheVariants.{Collected, Injected, Moved};
ghost use Rattle.channels.specs.Results.{answer_by, clearing, collection, injection, result_of, state_of};
ghost use Rattle.channel_laws.specs.Table.{state};

use crate::spots::{record_number, table_size};
use crate::stacks::PlannedStack;
use channel_laws::{Buffer, Ports, Record};
use mesh::{Refusal, Router, Sizes};
use routing::Guide;

// Empties every record of the routers' buffers.
pub fn clear(sizes: Sizes, table: &mut [Record]) -> Result<(), Refusal>
    ensures answers { result ≡ result_of (clear_refusal (state sizes [] [] table.old)) }
    ensures leaves { table.new ≡ clearing sizes table.old (clear_refusal (state sizes [] [] table.old)) }
{
    let size = table_size(sizes);
    if table.len() < size {
        return Err(Refusal::ShortBuffer);
    }
    table[0..size].fill(Record::EMPTY);
    Ok(())
}

impl PlannedStack<'_> {
    // Injects a packet into its source's Local buffer.
    pub fn inject(
        &self,
        table: &mut [Record],
        source: Router,
        destination: Router,
        tag: u32,
    ) -> Result<(), Refusal>
        ensures answers { answer_by (λ _. Injected) result ≡ (injection (state_of self.now table.old) source destination tag).answer }
        ensures leaves { table.new ≡ (injection (state_of self.now table.old) source destination tag).after.table }
    {
        self.check_lengths(table)?;
        if !(self.sizes.has(source) && self.sizes.has(destination)) {
            return Err(Refusal::Outside);
        }
        let local = record_number(self.sizes, source, Buffer::Local);
        if !table[local].is_empty() {
            return Err(Refusal::Occupied);
        }
        table[local] = Record {
            tag,
            moves: 0,
            mark: 1,
            source,
            destination,
        };
        Ok(())
    }

    // Carries a packet out of its buffer by a permitted port, into the neighbour's buffer.
    pub fn move_packet<G: Guide>(
        &self,
        guide: &G,
        table: &mut [Record],
        router: Router,
        buffer: u8,
        port: u8,
    ) -> Result<(), Refusal>
        ensures answers { answer_by (λ _. Moved) result ≡ (outcome (G.reply guide.now) (state_of self.now table.old) (Move router buffer port)).answer }
        ensures leaves { table.new ≡ (outcome (G.reply guide.now) (state_of self.now table.old) (Move router buffer port)).after.table }
    {
        let step = self.checked_step(guide, table, router, buffer, port)?;
        table[step.from] = Record::EMPTY;
        table[step.to] = step.packet;
        Ok(())
    }

    // Hands out a packet that is at its destination, and empties its buffer.
    pub fn collect(
        &self,
        table: &mut [Record],
        router: Router,
        buffer: u8,
    ) -> Result<Record, Refusal>
        ensures answers { answer_by Collected result ≡ (collection (state_of self.now table.old) router buffer).answer }
        ensures leaves { table.new ≡ (collection (state_of self.now table.old) router buffer).after.table }
    {
        self.check_lengths(table)?;
        let held = self.packet_at(table, router, buffer)?;
        if router != held.packet.destination {
            return Err(Refusal::NotArrived);
        }
        table[held.index] = Record::EMPTY;
        Ok(held.packet)
    }

    // The ports that the packet in a buffer is permitted.
    pub fn ports<G: Guide>(
        &self,
        guide: &G,
        table: &[Record],
        router: Router,
        buffer: u8,
    ) -> Result<Ports, Refusal>
        ensures { result ≡ ports_reply (G.reply guide.now) (state_of self.now table.now) router buffer }
    {
        self.check_lengths(table)?;
        let held = self.packet_at(table, router, buffer)?;
        Ok(self.permitted_ports(guide, held))
    }
}
