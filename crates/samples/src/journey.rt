// One packet's journey: injected, moved five times, collected.
use crate::failure::Failure;
use channel_laws::{Answer, Call, Done, Record};
use channels::run_script;
use mesh::{Refusal, Router, Sizes, TurnOrder};
use routing::{First, RandomOffline};
use std::io;

const LOW: Router = Router { x: 1, y: 1, z: 0 };

const HIGH: Router = Router { x: 1, y: 1, z: 1 };

// West, South, Up, East, North.
const CALLS: [Call; 7] = [
    Call::Inject {
        source: LOW,
        destination: HIGH,
        tag: 7001,
    },
    Call::Move {
        router: LOW,
        buffer: 0,
        port: 1,
    },
    Call::Move {
        router: Router { x: 0, y: 1, z: 0 },
        buffer: 1,
        port: 3,
    },
    Call::Move {
        router: Router { x: 0, y: 0, z: 0 },
        buffer: 3,
        port: 4,
    },
    Call::Move {
        router: Router { x: 0, y: 0, z: 1 },
        buffer: 9,
        port: 0,
    },
    Call::Move {
        router: Router { x: 1, y: 0, z: 1 },
        buffer: 2,
        port: 2,
    },
    Call::Collect {
        router: HIGH,
        buffer: 4,
    },
];

fn show_answer(rt: &HostRuntime, answer: Answer) -> io::Result<()> {
    match answer {
        Ok(Done::Injected) => println!(rt; "injected"),
        Ok(Done::Moved) => println!(rt; "moved"),
        Ok(Done::Collected(packet)) => {
            println!(rt; "collected {} after {} moves", packet.tag, packet.moves)
        }
        Err(refusal) => println!(rt; "{refusal}"),
    }
}

// Works the journey on the sample stack, and writes what each call answered.
fn travel(map: &[u8], answers: &mut [Answer]) -> Result<(), Refusal> {
    let sizes = Sizes::new(3, 3, 2)?;
    let filler = RandomOffline {
        order: TurnOrder::new(1, 0, 1, 0)?,
    };
    let mut bytes = [0; 18];
    let mut table = [Record::EMPTY; 198];
    run_script(
        sizes, map, &filler, &mut First, &mut bytes, &mut table, &CALLS, answers,
    )
}

// Prints what each call of the journey answered.
pub(crate) fn show_journey(rt: &HostRuntime, map: &[u8]) -> Result<(), Failure> {
    let mut answers = [Ok(Done::Injected); 7];
    travel(map, &mut answers)?;
    for answer in answers {
        show_answer(rt, answer)?;
    }
    Ok(())
}
