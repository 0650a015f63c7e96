// What a replay prints.
use channel_laws::{Answer, Call, Done, Ports, Record};
use description_laws::StackFault;
use listing::{LONGEST, list_fault, list_plan};
use mesh::{Refusal, Router, Sizes};
use runs::{Kind, count};
use std::io::Write;
use std::{fmt, io};

#[derive(Clone, Copy)]
struct Spot(Router);

impl fmt::Display for Spot {
    fn fmt<W: fmt::Write>(&self, f: &mut fmt::Formatter<W>) -> fmt::Result {
        let Router { x, y, z } = self.0;
        write!(f, "{x} {y} {z}")
    }
}

#[derive(Clone, Copy)]
struct Packet(Record);

impl fmt::Display for Packet {
    fn fmt<W: fmt::Write>(&self, f: &mut fmt::Formatter<W>) -> fmt::Result {
        let source = Spot(self.0.source);
        let destination = Spot(self.0.destination);
        let tag = self.0.tag;
        let moves = self.0.moves;
        write!(f, "{source} {destination} {tag} {moves}")
    }
}

// The numbers of the ports of a set, rising, a space before each.
#[derive(Clone, Copy)]
struct Numbers(Ports);

impl fmt::Display for Numbers {
    fn fmt<W: fmt::Write>(&self, f: &mut fmt::Formatter<W>) -> fmt::Result {
        let Ports { planar, up, down } = self.0;
        // The ports in the order of their numbers.
        let set = [
            planar.east,
            planar.west,
            planar.north,
            planar.south,
            up,
            down,
        ];
        for (port, permitted) in set.iter().enumerate() {
            if *permitted {
                write!(f, " {port}")?;
            }
        }
        Ok(())
    }
}

pub(crate) fn write_fault<W: Write>(out: &mut W, fault: StackFault) -> anyhow::Result<()> {
    let mut text = [0; LONGEST];
    let count = list_fault(fault, &mut text)?;
    out.write_all(&text[..count])?;
    Ok(())
}

pub(crate) fn write_plan<W: Write>(out: &mut W, sizes: Sizes, bytes: &[u8]) -> anyhow::Result<()> {
    let mut text = [0; LONGEST];
    let count = list_plan(sizes, bytes, &mut text)?;
    writeln!(out, "plan ok")?;
    out.write_all(&text[..count])?;
    Ok(())
}

pub(crate) fn write_refusal<W: Write>(out: &mut W, refusal: Refusal) -> anyhow::Result<()> {
    writeln!(out, "plan {refusal}")?;
    Ok(())
}

// Not a `Display`: that would be one more wrapper around the same `match`.
fn word(call: Call) -> &'static str {
    match call {
        Call::Inject { .. } => "inject",
        Call::Move { .. } => "move",
        Call::Collect { .. } => "collect",
    }
}

fn write_answer<W: Write>(out: &mut W, call: Call, answer: Answer) -> io::Result<()> {
    let word = word(call);
    match answer {
        Ok(Done::Injected | Done::Moved) => writeln!(out, "{word} ok"),
        Ok(Done::Collected(record)) => writeln!(out, "{word} ok {}", Packet(record)),
        Err(refusal) => writeln!(out, "{word} {refusal}"),
    }
}

// A line for each call.
pub(crate) fn write_answers<W: Write>(
    out: &mut W,
    calls: &[Call],
    answers: &[Answer],
) -> io::Result<()> {
    for (call, answer) in calls.iter().zip(answers.iter()) {
        write_answer(out, *call, *answer)?;
    }
    Ok(())
}

// A line for a packet that is held in a buffer of a router.
pub(crate) fn write_held<W: Write>(
    out: &mut W,
    router: Router,
    buffer: u8,
    record: Record,
    ports: Ports,
) -> io::Result<()> {
    let spot = Spot(router);
    let packet = Packet(record);
    let numbers = Numbers(ports);
    writeln!(out, "held {spot} {buffer} {packet} ports{numbers}")
}

// How many calls were accepted, and how many packets are held.
pub(crate) fn write_totals<W: Write>(
    out: &mut W,
    answers: &[Answer],
    held: usize,
) -> io::Result<()> {
    let injected = count(Kind::Injected, answers);
    let moved = count(Kind::Moved, answers);
    let collected = count(Kind::Collected, answers);
    writeln!(
        out,
        "injected {injected} moved {moved} collected {collected} held {held}"
    )
}
