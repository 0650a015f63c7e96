// Works through the samples and prints what each call did. The starred ones are proved too.

#![tactic(auto)]

mod failure;
mod journey;

ghost use Rattle.samples.specs.Facts.{Samples};

use crate::failure::Failure;
use crate::journey::show_journey;
use listing::list_plan;
use mesh::{Place, Refusal, Sizes, TurnOrder, Way};
use planner::plan;
use routing::{
    Chooser, Filler, First, Last, MdSafe, Optimistic, Question, RandomOffline, ShiftRegister,
};
use std::io;

// Does nothing: its contract is the samples, gathered.
fn samples_hold()
    ensures { Samples }
{}

// The link map of a stack of 3 by 3 by 2 with links at (0, 0) and (2, 2).
const MAP: [u8; 9] = [1, 0, 0, 0, 0, 0, 0, 0, 1];

// Plans the sample stack, and writes its listing into the room lent.
fn listing<'a, C: Chooser, F: Filler<C>>(
    filler: &F,
    chooser: &mut C,
    room: &'a mut [u8],
) -> Result<&'a [u8], Refusal> {
    let sizes = Sizes::new(3, 3, 2)?;
    let mut bytes = [0; 18];
    plan(sizes, &MAP, filler, chooser, &mut bytes)?;
    let count = list_plan(sizes, &bytes, room)?;
    Ok(&room[..count])
}

// Prints the listing of the sample stack's plan.
fn show<C: Chooser, F: Filler<C>>(
    rt: &HostRuntime,
    name: &str,
    filler: &F,
    chooser: &mut C,
) -> Result<(), Failure> {
    println!(rt; "{name}")?;
    rt.stdout()
        .write_all(listing(filler, chooser, &mut [0; 54])?)?;
    Ok(())
}

// Asks a register twice at a list of three, and prints state and reply.
fn show_register(rt: &HostRuntime) -> Result<(), Failure> {
    let place = Place { x: 0, y: 0 };
    let mut register = ShiftRegister::new(0xace1)?;
    for _ in 0..2 {
        let reply = register.choose(Question {
            plane: 0,
            way: Way::Up,
            router: place,
            candidates: &[place, place, place],
        });
        let state = register.state;
        println!(rt; "register {state:x} reply {reply}")?;
    }
    Ok(())
}

// What is printed of an outcome: the number of its refusal, and 0 where it is accepted.
fn number<T: Drop>(outcome: Result<T, Refusal>) -> u8 {
    outcome.err().map_or(0, Refusal::number)
}

// Prints what becomes of values at the edge of their range.
fn show_edges(rt: &HostRuntime) -> io::Result<()> {
    let alike = number(TurnOrder::new(0, 0, 0, 0));
    let mixed = number(TurnOrder::new(0, 0, 0, 1));
    println!(rt; "sets 0 0 0 0: {alike}, sets 0 0 0 1: {mixed}")?;
    let widest = number(Sizes::new(24, 1, 1));
    let wider = number(Sizes::new(25, 1, 1));
    println!(rt; "24 columns: {widest}, 25 columns: {wider}")?;
    let zero = number(ShiftRegister::new(0));
    println!(rt; "register 0: {zero}")
}

// Prints what becomes of a stack of so many planes without any link.
fn show_unlinked(rt: &HostRuntime, planes: u8) -> Result<(), Failure> {
    let sizes = Sizes::new(3, 3, planes)?;
    let mut bytes = [0; 18];
    let answer = number(plan(sizes, &[0; 9], &Optimistic, &mut First, &mut bytes));
    println!(rt; "{planes} planes without links: {answer}")?;
    Ok(())
}

fn show_orders(rt: &HostRuntime) -> Result<(), Failure> {
    let xy = TurnOrder::new(1, 0, 1, 0)?;
    show(rt, "md-safe", &MdSafe { order: xy }, &mut First)?;
    show(
        rt,
        "random-offline, XY, first",
        &RandomOffline { order: xy },
        &mut First,
    )?;
    let north_last = TurnOrder::new(1, 0, 0, 0)?;
    show(
        rt,
        "random-offline, North-Last, last",
        &RandomOffline { order: north_last },
        &mut Last,
    )?;
    show(rt, "optimistic", &Optimistic, &mut First)
}

fn main(rt: HostRuntime) -> Result<(), Failure> {
    samples_hold();
    show_orders(&rt)?;
    show_register(&rt)?;
    show_edges(&rt)?;
    show_unlinked(&rt, 1)?;
    show_unlinked(&rt, 2)?;
    show_journey(&rt, &MAP)
}
