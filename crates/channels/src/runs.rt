// Runs: a plan and a clear table to start with, and lists of calls worked one by one.
ghost use Rattle.std.specs.Prelude.{◌≡◌, ◌<◌, ◌≤◌, List, [], ◌++◌, length, drop};
ghost use Rattle.channel_laws.specs.Calls.{outcome};
ghost use Rattle.channel_laws.specs.Table.{state};
ghost use Rattle.channels.specs.Results.{state_of};
ghost use Rattle.channels.specs.Running.{Certain, Ran, Started, answered, clear_table, ran};
ghost use Rattle.routing_laws.specs.Plan.{job};

use crate::calls::clear;
use crate::spots::table_size;
use crate::stacks::PlannedStack;
use channel_laws::{Answer, Call, Done, Record};
use mesh::{Refusal, Sizes};
use planner::plan;
use routing::{Chooser, Filler, Guide};

// Plans a stack, and clears the table. From here on the certificate holds, whatever calls are made. What a run works on
// is lent piece by piece, as `plan` takes it.
pub fn start_run<C: Chooser, F: Filler<C>>(
    sizes: Sizes,
    map: &[u8],
    filler: &F,
    chooser: &mut C,
    bytes: &mut [u8],
    table: &mut [Record],
) -> Result<(), Refusal>
    ensures starts { Started (job sizes map.now (F.half filler.now) (F.next filler.now)) bytes.old chooser.old table.old bytes.new chooser.new table.new result }
    ensures certified { Certain (F.Guide.reply (F.partner filler.now)) (state sizes map.now bytes.new table.new) result }
{
    if table.len() < table_size(sizes) {
        return Err(Refusal::ShortBuffer);
    }
    plan(sizes, map, filler, chooser, bytes)?;
    clear(sizes, table)
}

impl PlannedStack<'_> {
    // Works one call, and replies with what it answered.
    fn work<G: Guide>(&self, guide: &G, table: &mut [Record], call: Call) -> Answer
        ensures answers { result ≡ (outcome (G.reply guide.now) (state_of self.now table.old) call).answer }
        ensures leaves { table.new ≡ (outcome (G.reply guide.now) (state_of self.now table.old) call).after.table }
    {
        match call {
            Call::Inject {
                source,
                destination,
                tag,
            } => {
                self.inject(table, source, destination, tag)?;
                Ok(Done::Injected)
            }
            Call::Move {
                router,
                buffer,
                port,
            } => {
                self.move_packet(guide, table, router, buffer, port)?;
                Ok(Done::Moved)
            }
            Call::Collect { router, buffer } => {
                let record = self.collect(table, router, buffer)?;
                Ok(Done::Collected(record))
            }
        }
    }

    // Works a list of calls one by one, and writes what each answered at the index of its call.
    fn work_all<G: Guide>(
        &self,
        guide: &G,
        table: &mut [Record],
        calls: &[Call],
        answers: &mut [Answer],
    )
        requires { length calls.now ≤ length answers.old }
        ensures leaves { table.new ≡ (ran (G.reply guide.now) (state_of self.now table.old) calls.now).table }
        ensures replies { answers.new ≡ answered (G.reply guide.now) (state_of self.now table.old) calls.now ++ drop (length calls.now) answers.old }
    {
        for (i, call) in calls.iter().enumerate() {
            answers[i] = self.work(guide, table, *call);
        }
    }
}

// Starts a run, works a list of calls, and writes what each answered to the front of `answers`. It takes what
// `start_run` does, piece by piece.
pub fn run_script<C: Chooser, F: Filler<C>>(
    sizes: Sizes,
    map: &[u8],
    filler: &F,
    chooser: &mut C,
    bytes: &mut [u8],
    table: &mut [Record],
    calls: &[Call],
    answers: &mut [Answer],
) -> Result<(), Refusal>
    ensures runs { Ran (job sizes map.now (F.half filler.now) (F.next filler.now)) (F.Guide.reply (F.partner filler.now)) calls.now bytes.old chooser.old table.old answers.old bytes.new chooser.new table.new answers.new result }
    ensures certified { Certain (F.Guide.reply (F.partner filler.now)) (state sizes map.now bytes.new (clear_table sizes table.old)) result }
{
    if answers.len() < calls.len() {
        return Err(Refusal::ShortBuffer);
    }
    start_run(sizes, map, filler, chooser, bytes, table)?;
    let stack = PlannedStack { sizes, map, bytes };
    stack.work_all(&filler.guide(), table, calls, answers);
    Ok(())
}
