// What a run comes to.
ghost use Rattle.std.specs.Prelude.{◌≡◌, fold, count_by};
ghost use Rattle.house_run.specs.Report.{holds, longer, moves_of};

use channel_laws::{Answer, Done, Record};
use runs::{Kind, count};
use std::io;

// The moves of a packet that was handed out.
fn moves_of(answer: Answer) -> u16
    ensures { result ≡ moves_of answer }
{
    match answer {
        Ok(Done::Collected(packet)) => packet.moves,
        _ => 0,
    }
}

// The most moves of any packet that was handed out.
fn longest_way(answers: &[Answer]) -> u16
    ensures { result ≡ fold longer 0 answers.now }
{
    answers
        .iter()
        .fold(0, |most, answer| most.max(moves_of(*answer)))
}

// How many packets the table holds.
fn held(table: &[Record]) -> usize
    ensures { result ≡ count_by holds table.now }
{
    table.iter().filter(|record| !record.is_empty()).count()
}

pub(crate) fn report(
    rt: &HostRuntime,
    ties: u16,
    answers: &[Answer],
    table: &[Record],
) -> io::Result<()> {
    let injected = count(Kind::Injected, answers);
    let moved = count(Kind::Moved, answers);
    let collected = count(Kind::Collected, answers);
    let refused = count(Kind::Refused, answers);
    let held = held(table);
    let most = longest_way(answers);
    println!(rt; "planned, {ties} ties settled")?;
    println!(rt;
        "injected {injected} moved {moved} collected {collected} refused {refused} held {held}"
    )?;
    println!(rt; "the longest way of a collected packet: {most} moves")
}
