// The channel table's calls on bad input.
use crate::samples::{SAMPLE_MAP, xy};
use channel_laws::Record;
use channels::{PlannedStack, clear, start_run};
use mesh::{Refusal, Router, Sizes};
use routing::{First, MdSafe, Pointing};
use std::process::Abort;
use std::test::Fail;

const CENTRE: Router = Router { x: 1, y: 1, z: 0 };

const ABOVE: Router = Router { x: 1, y: 1, z: 1 };

// The record of the Local buffer of CENTRE.
const LOCAL: usize = 44;

const PACKET: Record = Record {
    tag: 1,
    moves: 0,
    mark: 1,
    source: CENTRE,
    destination: ABOVE,
};

// The sample stack with a map and bytes of its own.
fn stack<'a>(map: &'a [u8], bytes: &'a [u8]) -> Result<PlannedStack<'a>, Refusal> {
    Ok(PlannedStack {
        sizes: Sizes::new(3, 3, 2)?,
        map,
        bytes,
    })
}

fn guide() -> Result<Pointing, Refusal> {
    Ok(Pointing { order: xy()? })
}

// Expects every call to refuse slices of which one is too short.
fn short(rt: &impl Abort, map: &[u8], bytes: &[u8], table: &mut [Record]) -> Result<(), Fail> {
    let stack = stack(map, bytes)?;
    let guide = guide()?;
    let short = Refusal::ShortBuffer;
    assert_eq!(rt; stack.inject(table, CENTRE, ABOVE, 1), Err(short));
    assert_eq!(rt; stack.collect(table, CENTRE, 11), Err(short));
    assert_eq!(rt; stack.ports(&guide, table, CENTRE, 11), Err(short));
    assert_eq!(rt; stack.move_packet(&guide, table, CENTRE, 11, 6), Err(short));
    Ok(())
}

// What starting a run answers, on the sample's sizes.
fn start(map: &[u8], table: &mut [Record]) -> Result<(), Refusal> {
    let filler = MdSafe { order: xy()? };
    let mut bytes = [0; 18];
    start_run(
        Sizes::new(3, 3, 2)?,
        map,
        &filler,
        &mut First,
        &mut bytes,
        table,
    )
}

#[test]
fn short_slices_are_refused(rt: HostRuntime) -> Result<(), Fail> {
    short(&rt, &[1; 8], &[0; 18], &mut [Record::EMPTY; 198])?;
    short(&rt, &SAMPLE_MAP, &[0; 17], &mut [Record::EMPTY; 198])?;
    short(&rt, &SAMPLE_MAP, &[0; 18], &mut [Record::EMPTY; 197])?;
    short(&rt, &[], &[], &mut [])?;
    let sizes = Sizes::new(3, 3, 2)?;
    let short = Refusal::ShortBuffer;
    assert_eq!(rt; clear(sizes, &mut [Record::EMPTY; 197]), Err(short));
    assert_eq!(rt; clear(sizes, &mut [PACKET; 198]), Ok(()));
    assert_eq!(rt; start(&SAMPLE_MAP, &mut [Record::EMPTY; 197]), Err(short));
    let unlinked = start(&[0; 9], &mut [Record::EMPTY; 198]);
    assert_eq!(rt; unlinked, Err(Refusal::GapUnlinked));
    Ok(())
}

// What collect answers for a buffer of router (x, y, z), in an empty table.
fn collected(x: u8, y: u8, z: u8, buffer: u8) -> Result<Record, Refusal> {
    let mut table = [Record::EMPTY; 198];
    stack(&SAMPLE_MAP, &[0; 18])?.collect(&mut table, Router { x, y, z }, buffer)
}

// What a move through a port answers, in an empty table.
fn moved(port: u8) -> Result<(), Refusal> {
    let mut table = [Record::EMPTY; 198];
    stack(&SAMPLE_MAP, &[0; 18])?.move_packet(&guide()?, &mut table, CENTRE, 0, port)
}

fn expected(value: u8, count: u8) -> Refusal {
    if value < count {
        Refusal::EmptyBuffer
    } else {
        Refusal::Outside
    }
}

#[test]
fn routers_buffers_and_ports_outside_are_refused(rt: HostRuntime) {
    for value in 0..=255u8 {
        assert_eq!(rt;
            collected(value, 0, 0, 0),
            Err(expected(value, 3)),
            "{}",
            value
        );
        assert_eq!(rt;
            collected(0, value, 0, 0),
            Err(expected(value, 3)),
            "{}",
            value
        );
        assert_eq!(rt;
            collected(0, 0, value, 0),
            Err(expected(value, 2)),
            "{}",
            value
        );
        assert_eq!(rt;
            collected(1, 1, 0, value),
            Err(expected(value, 11)),
            "{}",
            value
        );
        assert_eq!(rt; moved(value), Err(expected(value, 6)), "{}", value);
    }
}

// Expects a record in CENTRE's Local buffer to be occupied, damaged or a packet: what collect refuses it with, and
// what ports does, if it does.
fn packet_read(
    rt: &impl Abort,
    record: Record,
    collected: Refusal,
    told: Option<Refusal>,
) -> Result<(), Fail> {
    let stack = stack(&SAMPLE_MAP, &[0; 18])?;
    let mut table = [Record::EMPTY; 198];
    table[LOCAL] = record;
    let injected = stack.inject(&mut table, CENTRE, ABOVE, 1);
    assert_eq!(rt; injected, Err(Refusal::Occupied));
    assert_eq!(rt; stack.collect(&mut table, CENTRE, 0), Err(collected));
    assert_eq!(rt; stack.ports(&guide()?, &table, CENTRE, 0).err(), told);
    Ok(())
}

fn damaged(rt: &impl Abort, record: Record) -> Result<(), Fail> {
    packet_read(rt, record, Refusal::Damaged, Some(Refusal::Damaged))
}

#[test]
fn damaged_records_are_refused(rt: HostRuntime) -> Result<(), Fail> {
    let source = Router { x: 3, y: 0, z: 0 };
    let destination = Router { x: 0, y: 0, z: 2 };
    damaged(&rt, Record { mark: 2, ..PACKET })?;
    damaged(
        &rt,
        Record {
            mark: 255,
            ..PACKET
        },
    )?;
    damaged(
        &rt,
        Record {
            moves: 1001,
            ..PACKET
        },
    )?;
    damaged(&rt, Record { source, ..PACKET })?;
    damaged(
        &rt,
        Record {
            destination,
            ..PACKET
        },
    )?;
    let sound = Record {
        moves: 1000,
        ..PACKET
    };
    packet_read(&rt, sound, Refusal::NotArrived, None)
}

#[test]
fn a_full_table_refuses_moves(rt: HostRuntime) -> Result<(), Fail> {
    // The half-byte of every router points East.
    let stack = stack(&SAMPLE_MAP, &[2; 18])?;
    let guide = guide()?;
    let mut table = [PACKET; 198];
    // At the East edge the same byte leads out.
    let edge = Router { x: 2, y: 1, z: 0 };
    let tried = [
        (CENTRE, 0, Refusal::Occupied),
        (CENTRE, 1, Refusal::NotPermitted),
        (ABOVE, 0, Refusal::Arrived),
        (edge, 0, Refusal::LeavesStack),
    ];
    for (router, port, refusal) in tried {
        let answer = stack.move_packet(&guide, &mut table, router, 0, port);
        assert_eq!(rt; answer, Err(refusal), "port {}", port);
    }
    Ok(())
}
