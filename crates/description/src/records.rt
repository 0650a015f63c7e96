// The record layer: whole records whose fields are in range. `place` is where a record starts.
ghost use Rattle.std.specs.Prelude.{◌≡◌, true, ◌++◌, Decides, MatchResult};
ghost use Rattle.description_laws.specs.Description.{InRange, spelled};
ghost use Rattle.description.specs.Unread.{Unreadable};

use crate::bytes::{letter, link_body, order_body, sizes_body};
use description_laws::{Record, RecordFault};
use mesh::{MOST_COLUMNS, MOST_PLANES, MOST_ROWS, Refusal, Sizes, TurnOrder};

fn in_range(record: Record) -> bool
    ensures { Decides result (InRange «record») }
{
    match record {
        Record::Stack(extent) => Sizes::try_from(extent).is_ok(),
        Record::Order(sets) => TurnOrder::try_from(sets).err() != Some(Refusal::OutOfRange),
        Record::Pillar(link) => {
            link.x < MOST_COLUMNS && link.y < MOST_ROWS && link.gap < MOST_PLANES - 1
        }
        Record::End => true,
    }
}

// A letter is looked at before its body is.
#[inline(always)]
fn whole_record(input: &[u8], place: usize) -> Result<(Record, &[u8]), RecordFault>
    ensures { MatchResult result (λ v. input.now ≡ spelled v.0 ++ v.1.now) (λ f. Unreadable input.now place f) }
{
    let (kind, body) = letter(input, place)?;
    match kind {
        'S' => {
            let (extent, rest) = sizes_body(body, place)?;
            Ok((Record::Stack(extent), rest))
        }
        'O' => {
            let (sets, rest) = order_body(body, place)?;
            Ok((Record::Order(sets), rest))
        }
        'L' => {
            let (link, rest) = link_body(body, place)?;
            Ok((Record::Pillar(link), rest))
        }
        'Z' => Ok((Record::End, body)),
        _ => Err(RecordFault::Record {
            refusal: Refusal::UnknownLetter,
            place,
        }),
    }
}

#[inline(always)]
pub(crate) fn next_record(input: &[u8], place: usize) -> Result<(Record, &[u8]), RecordFault>
    ensures { MatchResult result (λ v. (input.now ≡ spelled v.0 ++ v.1.now) × InRange v.0) (λ f. Unreadable input.now place f) }
{
    let (record, rest) = whole_record(input, place)?;
    if !in_range(record) {
        return Err(RecordFault::Record {
            refusal: Refusal::OutOfRange,
            place,
        });
    }
    Ok((record, rest))
}
