// Listings: the text of plans and of faults, and buffers that are just long enough.
use crate::samples::{SAMPLE_PLAN, begins};
use description_laws::{ByteFault, RecordFault, StackFault};
use listing::{list_fault, list_plan};
use mesh::{Refusal, Sizes};
use std::process::Abort;
use std::test::Fail;

const SAMPLE_TEXT: &[u8; 54] = b"00 08 01\n04 03 01\n02 02 00\n00 80 10\n40 30 10\n20 20 00\n";

// The most that a text of these tests takes, with room beyond.
const ROOM: usize = 60;

// Lists into the first `len` bytes of a buffer of 7s, and expects what is answered, and what the buffer begins with.
fn listed_within<F>(
    rt: &impl Abort,
    list: &F,
    len: usize,
    answer: Result<usize, Refusal>,
    text: &[u8],
) -> Result<(), Fail>
where
    F: Fn(&mut [u8]) -> Result<usize, Refusal>,
    requires { F.IsAlwaysCallable list.now }
{
    let mut out = [7; ROOM];
    let front = out
        .get_mut(0..len)
        .ok_or_else(|| Fail::new("too long a text"))?;
    assert_eq!(rt; list(front), answer, "in {len} bytes");
    assert!(rt; begins(&out, text), "in {len} bytes");
    Ok(())
}

// Expects the text, in a buffer with room beyond it and in one of its length, and not in one a byte shorter.
fn listed_as<F>(rt: &impl Abort, list: F, text: &[u8]) -> Result<(), Fail>
where
    F: Fn(&mut [u8]) -> Result<usize, Refusal>,
    requires { F.IsAlwaysCallable list }
{
    let len = text.len();
    listed_within(rt, &list, ROOM, Ok(len), text)?;
    listed_within(rt, &list, len, Ok(len), text)?;
    let short = len.saturating_sub(1);
    listed_within(rt, &list, short, Err(Refusal::ShortBuffer), b"")
}

fn unread(refusal: Refusal, place: usize) -> StackFault {
    StackFault::Unread(RecordFault::Record { refusal, place })
}

fn unstacked(refusal: Refusal, place: usize) -> StackFault {
    StackFault::Stack { refusal, place }
}

fn fault_listed_as(rt: &impl Abort, fault: StackFault, text: &[u8]) -> Result<(), Fail> {
    listed_as(rt, |out| list_fault(fault, out), text)
}

#[test]
fn listings_fill_a_buffer_of_their_length(rt: HostRuntime) -> Result<(), Fail> {
    let sample = Sizes::new(3, 3, 2)?;
    listed_as(&rt, |out| list_plan(sample, &SAMPLE_PLAN, out), SAMPLE_TEXT)?;
    let row = Sizes::new(4, 1, 1)?;
    let bytes = [0xab, 0xcd, 0xef, 0x90, 1];
    listed_as(&rt, |out| list_plan(row, &bytes, out), b"ab cd ef 90\n")?;
    let pillar = Sizes::new(1, 1, 2)?;
    listed_as(
        &rt,
        |out| list_plan(pillar, &[0x0a, 0xff], out),
        b"0a\nff\n",
    )?;
    let ended = StackFault::Unread(RecordFault::Ends(ByteFault { place: 0 }));
    fault_listed_as(&rt, ended, b"byte 1 0\n")?;
    fault_listed_as(&rt, unread(Refusal::UnknownLetter, 4), b"record 2 4\n")?;
    fault_listed_as(
        &rt,
        unread(Refusal::NotArrived, usize::MAX),
        b"record 18 18446744073709551615\n",
    )?;
    fault_listed_as(
        &rt,
        unstacked(Refusal::LinkTwice, 16_137),
        b"stack 7 16137\n",
    )?;
    fault_listed_as(&rt, unstacked(Refusal::ShortBuffer, 0), b"stack 9 0\n")
}

#[test]
fn a_plan_one_byte_short_is_not_listed(rt: HostRuntime) -> Result<(), Fail> {
    let mut out = [7; ROOM];
    let answer = list_plan(Sizes::new(3, 3, 2)?, &SAMPLE_PLAN[0..17], &mut out);
    assert_eq!(rt; answer, Err(Refusal::ShortBuffer));
    assert!(rt; begins(&out, b""));
    Ok(())
}
