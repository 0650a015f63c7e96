// Works a script: reads its description, runs its calls over the plan, and reports.
use crate::lines;
use crate::report::{
    write_answers, write_fault, write_held, write_plan, write_refusal, write_totals,
};
use crate::script::Script;
use channel_laws::{Answer, Buffer, Call, Done, Record};
use channels::{PlannedStack, run_script, table_size};
use description::read;
use mesh::{MAP_BYTES, Refusal, Sizes, TurnOrder};
use routing::ShiftRegister;
use schemes::{Scheme, Tie};
use std::alloc::Global;
use std::io::Write;

// The scheme that a script names. No `From`: it needs the turn order of the stack besides.
fn scheme_of(named: lines::Scheme, order: TurnOrder) -> Scheme {
    match named {
        lines::Scheme::MdSafe => Scheme::MdSafe(order),
        lines::Scheme::RandomOffline => Scheme::RandomOffline(order),
        lines::Scheme::Optimistic => Scheme::Optimistic,
    }
}

// The tie rule that a script names: a register of zero is refused.
impl TryFrom<lines::Tie> for Tie {
    type Error = Refusal;

    fn try_from(named: lines::Tie) -> Result<Tie, Refusal> {
        match named {
            lines::Tie::First => Ok(Tie::First),
            lines::Tie::Last => Ok(Tie::Last),
            lines::Tie::Register(state) => Ok(Tie::Register(ShiftRegister::new(state)?)),
        }
    }
}

// A line for each packet that the table holds, in the order of its records: an empty buffer has no ports to tell.
fn report_held<W: Write>(
    stack: &PlannedStack<'_>,
    scheme: Scheme,
    table: &[Record],
    out: &mut W,
) -> anyhow::Result<()> {
    for (i, record) in table.iter().enumerate() {
        let router = stack.sizes.router_at(i / Buffer::COUNT);
        let buffer = (i % Buffer::COUNT) as u8;
        if let Ok(permitted) = stack.ports(&scheme, table, router, buffer) {
            write_held(out, router, buffer, *record, permitted)?;
        }
    }
    Ok(())
}

// Plans the stack, works the calls, and reports the plan, what each call did, and what the table holds in the end.
fn run<W: Write>(
    heap: Global,
    sizes: Sizes,
    map: &[u8],
    scheme: Scheme,
    calls: &[Call],
    chooser: &mut Tie,
    out: &mut W,
) -> anyhow::Result<()> {
    let mut bytes = vec![in heap; 0; sizes.routers()]?;
    let mut table = vec![in heap; Record::EMPTY; table_size(sizes)]?;
    let mut answers: Vec<Answer> = vec![in heap; Ok(Done::Injected); calls.len()]?;
    if let Err(refusal) = run_script(
        sizes,
        map,
        &scheme,
        chooser,
        &mut bytes,
        &mut table,
        calls,
        &mut answers,
    ) {
        return write_refusal(out, refusal);
    }
    write_plan(out, sizes, &bytes)?;
    write_answers(out, calls, &answers)?;
    let stack = PlannedStack {
        sizes,
        map,
        bytes: &bytes,
    };
    report_held(&stack, scheme, &table, out)?;
    let held = table.iter().filter(|record| !record.is_empty()).count();
    write_totals(out, &answers, held)?;
    Ok(())
}

// Works a script, and writes the report.
pub(crate) fn work<W: Write>(heap: Global, script: &Script, out: &mut W) -> anyhow::Result<()> {
    let mut map = [0; MAP_BYTES];
    let description = match read(&script.description, &mut map) {
        Ok(description) => description,
        Err(fault) => return write_fault(out, fault),
    };
    match Tie::try_from(script.planning.tie) {
        Ok(mut chooser) => run(
            heap,
            description.sizes,
            &map,
            scheme_of(script.planning.scheme, description.order),
            &script.calls,
            &mut chooser,
            out,
        ),
        Err(refusal) => write_refusal(out, refusal),
    }
}
