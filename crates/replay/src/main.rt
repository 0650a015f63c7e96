// Reads a script from standard input: a stack, how it is planned, and calls on its channel table. Prints the plan,
// what each call did, and the packets that are still held.

#![tactic(auto)]

mod faults;
mod lines;
mod report;
mod running;
mod script;

use std::io::{BufWriter, Read, Write};
use std::process::ExitCode;

// Reads the whole script before anything is printed.
fn replay(rt: &HostRuntime) -> anyhow::Result<()> {
    let heap = rt.alloc();
    let mut input = Vec::new(heap);
    rt.stdin().read_to_end(&mut input)?;
    let script = script::parse(heap, &input)?;
    let mut out = BufWriter::new(heap, rt.stdout())?;
    running::work(heap, &script, &mut out)?;
    out.flush()?;
    Ok(())
}

fn main(rt: HostRuntime) -> ExitCode {
    match replay(&rt) {
        Ok(()) => ExitCode::SUCCESS,
        Err(error) => {
            // Where standard error takes nothing, the status still tells.
            let _told = eprintln!(rt; "replay: {error}");
            ExitCode::FAILURE
        }
    }
}
