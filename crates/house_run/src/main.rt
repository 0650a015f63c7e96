// Plans a stack of 24 by 24 by 4 by a buyer's own rules, works a crowded script on it, and prints what happened.

#![tactic(auto)]

mod crowd;
mod report;

use channel_laws::{Done, Record};
use channels::{run_script, table_size};
use crowd::{crowd, links};
use house_rules::{InnerElevators, Spread};
use mesh::{Sizes, TurnOrder};
use report::report;

fn run(rt: &HostRuntime, sizes: Sizes, order: TurnOrder) -> anyhow::Result<()> {
    let heap = rt.alloc();
    let map = links(heap, sizes)?;
    let calls = crowd(heap, sizes)?;
    let mut bytes = vec![in heap; 0; sizes.routers()]?;
    let mut table = vec![in heap; Record::EMPTY; table_size(sizes)]?;
    let mut answers = vec![in heap; Ok(Done::Injected); calls.len()]?;
    let mut chooser = Spread { count: 0 };
    match run_script(
        sizes,
        &map,
        &InnerElevators { order },
        &mut chooser,
        &mut bytes,
        &mut table,
        &calls,
        &mut answers,
    ) {
        Ok(()) => Ok(report(rt, chooser.count, &answers, &table)?),
        Err(refusal) => Ok(println!(rt; "{refusal}")?),
    }
}

fn main(rt: HostRuntime) -> anyhow::Result<()> {
    let sizes = Sizes::new(24, 24, 4)?;
    // West first: only West is in set 0.
    let order = TurnOrder::new(1, 1, 1, 0)?;
    run(&rt, sizes, order)
}
