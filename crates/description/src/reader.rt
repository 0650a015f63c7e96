// The stack layer: records in their places, and the link map.
ghost use Rattle.std.specs.Prelude.{◌≡◌, ◌<◌, ◌≤◌, ◌⊎◌, ◌≢◌, length, replicate, Err, MatchResult, slice_index, slice_set};
ghost use Rattle.mesh.specs.declared.refusals.Refusal.TheVariants.{LinkOutside, LinkTwice, ShortBuffer};
ghost use Rattle.description_laws.specs.declared.faults.StackFault.TheVariants.{Stack};
ghost use Rattle.description_laws.specs.Description.{OneReading, Within};
ghost use Rattle.description.specs.Reading.{Answer, Described, Fails, Reading, extent_of, spot};

use crate::cursor::Cursor;
use description_laws::{Record, StackFault, readings_are_one};
use mesh::{LINK, Link, MAP_BYTES, Place, Refusal, Sizes, TurnOrder};

// What a description says besides its links, which the link map holds.
#[derive(Clone, Copy)]
pub struct Description {
    pub sizes: Sizes,
    pub order: TurnOrder,
}

fn clear(map: &mut [u8])
    ensures { map.new ≡ replicate (length map.old) 0 }
{
    map.fill(0);
}

// Marks a link. A byte that is marked already tells that the link was named before.
fn mark(link: Link, sizes: Sizes, map: &mut [u8; MAP_BYTES]) -> Result<(), Refusal>
    ensures { MatchResult result (λ _. Within (extent_of sizes) link × (slice_index map.old (spot (extent_of sizes) link) ≢ 1) × (map.new ≡ slice_set map.old (spot (extent_of sizes) link) 1)) (λ x. ((x ≡ LinkOutside) × (Within (extent_of sizes) link → ⊥)) ⊎ ((x ≡ LinkTwice) × Within (extent_of sizes) link × (slice_index map.old (spot (extent_of sizes) link) ≡ 1))) }
{
    if link.x >= sizes.width || link.y >= sizes.height || link.gap >= sizes.planes - 1 {
        return Err(Refusal::LinkOutside);
    }
    let index = sizes.index(link.gap, Place::from(link));
    if map[index] == LINK {
        return Err(Refusal::LinkTwice);
    }
    map[index] = LINK;
    Ok(())
}

// Reads the links and Z, and marks the links. Nothing follows Z.
fn read_links(
    start: Cursor<'_>,
    description: Description,
    map: &mut [u8; MAP_BYTES],
) -> Result<(), StackFault>
    requires { Reading start.input.now description start.rest.now map.old }
    ensures { MatchResult result (λ _. Described start.entry.input.now description map.new) (λ x. Fails start.entry.input.now x) }
{
    let mut cursor = start;
    loop {
        let (record, after) = cursor.next()?;
        match record {
            Record::Pillar(link) => cursor.or_fault(mark(link, description.sizes, map))?,
            Record::End => {
                if !description.sizes.all_linked(map) {
                    return Err(cursor.refuse(Refusal::GapUnlinked));
                }
                if !after.rest.is_empty() {
                    return Err(after.refuse(Refusal::OutOfPlace));
                }
                return Ok(());
            }
            _ => return Err(cursor.refuse(Refusal::OutOfPlace)),
        }
        cursor = after;
    }
}

// Reads into a link map that is clear.
fn read_all(input: &[u8], map: &mut [u8; MAP_BYTES]) -> Result<Description, StackFault>
    requires { map.old ≡ replicate 4032 0 }
    ensures meaning { MatchResult result (λ d. Described input.now d map.new) (λ x. Fails input.now x) }
    ensures long { length map.new ≡ 4032 }
{
    let first = Cursor { input, rest: input };
    let (sizes, second) = first.sizes()?;
    let (order, links) = second.order()?;
    let description = Description { sizes, order };
    read_links(links, description, map)?;
    Ok(description)
}

// Reads a description, and marks its links in `map`, which is 0 everywhere else. A map that is too short stays as it
// is; any other fault leaves the whole map 0.
pub fn read(input: &[u8], map: &mut [u8]) -> Result<Description, StackFault>
    ensures short { length map.old < 4032 → (result ≡ Err (Stack ShortBuffer 0)) × (map.new ≡ map.old) }
    ensures meaning { 4032 ≤ length map.old → Answer input.now map.new result }
    ensures only { OneReading input.now }
{
    // Does nothing: its contract is the clause `only`.
    readings_are_one(input);
    if map.len() < MAP_BYTES {
        return Err(StackFault::Stack {
            refusal: Refusal::ShortBuffer,
            place: 0,
        });
    }
    clear(map);
    let answer = read_all(input, map.first_chunk_mut().unwrap());
    if answer.is_err() {
        clear(map);
    }
    answer
}
