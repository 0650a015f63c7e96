// Readings: what is accepted, and every refusal with its layer, its number and its place.
use crate::samples::{SAMPLE, all, largest_unfinished};
use description::read;
use description_laws::Layer;
use mesh::{MAP_BYTES, Refusal};
use std::process::Abort;
use std::test::Fail;

// A map one byte too short, and one with room beyond.
const MAP_LESS: usize = MAP_BYTES - 1;

const ROOM: usize = 4_050;

// The layer that finds a refusal.
fn layer_for(refusal: Refusal) -> Layer {
    match refusal {
        Refusal::InputEnds => Layer::Byte,
        Refusal::UnknownLetter | Refusal::OutOfRange => Layer::Record,
        _ => Layer::Stack,
    }
}

// Whether the bytes are 1 at these indices and 0 elsewhere.
fn marks(bytes: &[u8], links: &[usize]) -> bool {
    let marked = |(i, byte): (usize, &u8)| *byte == u8::from(links.contains(&i));
    bytes.iter().enumerate().all(marked)
}

// Reads into a map that was used before, and expects a fault that leaves all of it 0.
fn refused(rt: &impl Abort, input: &[u8], refusal: Refusal, place: usize) -> Result<(), Fail> {
    let mut map = [7; ROOM];
    let Err(fault) = read(input, &mut map) else {
        return Err(Fail::new(format_args!("accepted {input:?}")));
    };
    assert_eq!(rt; fault.refusal(), refusal, "refusal of {input:?}");
    assert_eq!(rt; fault.place(), place, "place of {input:?}");
    assert_eq!(rt; fault.layer(), layer_for(refusal), "layer of {input:?}");
    assert!(rt; all(&map, 0), "map of {input:?}");
    Ok(())
}

// Reads into a map that was used before, and expects links at these indices of it, and no others.
fn accepted(rt: &impl Abort, input: &[u8], links: &[usize]) {
    let mut map = [7; ROOM];
    assert!(rt; read(input, &mut map).is_ok());
    assert!(rt; marks(&map, links), "map");
}

// The place of the record of the sample that is unfinished, or missing, after so many bytes.
fn unfinished(len: usize) -> usize {
    match len {
        0..=3 => 0,
        4..=8 => 4,
        9..=12 => 9,
        13..=16 => 13,
        _ => 17,
    }
}

// Records whose fields are out of range.
const OUT_OF_RANGE: [(&[u8], usize); 15] = [
    (b"S\x00\x03\x02", 0),
    (b"S\x19\x03\x02", 0),
    (b"S\x03\x00\x02", 0),
    (b"S\x03\x19\x02", 0),
    (b"S\x03\x03\x00", 0),
    (b"S\x03\x03\x09", 0),
    (b"S\x03\x03\x02O\x02\x00\x01\x00", 4),
    (b"S\x03\x03\x02O\x01\x02\x01\x00", 4),
    (b"S\x03\x03\x02O\x01\x00\x02\x00", 4),
    (b"S\x03\x03\x02O\x01\x00\x01\x02", 4),
    (b"S\x03\x03\x02O\x02\x02\x02\x02", 4),
    (b"S\x03\x03\x02O\x01\x00\x01\x00L\x18\x00\x00", 9),
    (b"S\x03\x03\x02O\x01\x00\x01\x00L\x00\x18\x00", 9),
    (b"S\x03\x03\x02O\x01\x00\x01\x00L\x00\x00\x07", 9),
    (b"O\x02\x00\x01\x00", 0),
];

// Records out of their places; some of them would be refused otherwise in theirs.
const OUT_OF_PLACE: [(&[u8], usize); 14] = [
    (b"O\x01\x00\x01\x00", 0),
    (b"O\x00\x00\x00\x00", 0),
    (b"L\x00\x00\x00", 0),
    (b"Z", 0),
    (b"S\x03\x03\x02S\x03\x03\x02", 4),
    (b"S\x03\x03\x02L\x00\x00\x00", 4),
    (b"S\x03\x03\x02L\x03\x00\x00", 4),
    (b"S\x03\x03\x02Z", 4),
    (b"S\x03\x03\x02O\x01\x00\x01\x00S\x03\x03\x02", 9),
    (b"S\x03\x03\x02O\x01\x00\x01\x00O\x01\x00\x01\x00", 9),
    (b"S\x03\x03\x02O\x01\x00\x01\x00O\x00\x00\x00\x00", 9),
    (
        b"S\x03\x03\x02O\x01\x00\x01\x00L\x00\x00\x00S\x03\x03\x02",
        13,
    ),
    (
        b"S\x03\x03\x02O\x01\x00\x01\x00L\x00\x00\x00O\x01\x00\x01\x00",
        13,
    ),
    (b"S\x03\x03\x02O\x01\x00\x01\x00L\x00\x00\x00ZZ", 14),
];

// The other refusals, and those that come first where two apply.
const OTHERS: [(&[u8], Refusal, usize); 22] = [
    (b"", Refusal::InputEnds, 0),
    (b"S\x00\x19", Refusal::InputEnds, 0),
    (b"O\x02\x02\x02", Refusal::InputEnds, 0),
    (b"S\x03\x03\x02S\x03\x03", Refusal::InputEnds, 4),
    (b"S\x03\x03\x02x", Refusal::UnknownLetter, 4),
    (
        b"S\x03\x03\x02O\x01\x00\x01\x00l\x00\x00\x00Z",
        Refusal::UnknownLetter,
        9,
    ),
    (
        b"S\x03\x03\x02O\x01\x00\x01\x00L\x00\x00\x00\x00",
        Refusal::UnknownLetter,
        13,
    ),
    (b"S\x03\x03\x02S\x03\x03\x09", Refusal::OutOfRange, 4),
    (b"S\x03\x03\x02O\x00\x00\x00\x00", Refusal::OneSet, 4),
    (b"S\x03\x03\x02O\x01\x01\x01\x01Z", Refusal::OneSet, 4),
    (
        b"S\x03\x03\x02O\x01\x00\x01\x00L\x03\x00\x00",
        Refusal::LinkOutside,
        9,
    ),
    (
        b"S\x03\x03\x02O\x01\x00\x01\x00L\x00\x03\x00",
        Refusal::LinkOutside,
        9,
    ),
    (
        b"S\x03\x03\x02O\x01\x00\x01\x00L\x00\x00\x01",
        Refusal::LinkOutside,
        9,
    ),
    (
        b"S\x03\x03\x01O\x01\x00\x01\x00L\x00\x00\x00Z",
        Refusal::LinkOutside,
        9,
    ),
    // Counted on past its row's end, (3, 0) would have the byte of (0, 1).
    (
        b"S\x03\x03\x02O\x01\x00\x01\x00L\x00\x01\x00L\x03\x00\x00Z",
        Refusal::LinkOutside,
        13,
    ),
    (
        b"S\x03\x03\x02O\x01\x00\x01\x00L\x00\x00\x00L\x00\x00\x00Z",
        Refusal::LinkTwice,
        13,
    ),
    (
        b"S\x03\x03\x03O\x01\x00\x01\x00L\x02\x01\x00L\x00\x00\x00L\x02\x01\x00Z",
        Refusal::LinkTwice,
        17,
    ),
    (b"S\x03\x03\x02O\x01\x00\x01\x00Z", Refusal::GapUnlinked, 9),
    (b"S\x03\x03\x02O\x01\x00\x01\x00ZZ", Refusal::GapUnlinked, 9),
    (
        b"S\x03\x03\x03O\x01\x00\x01\x00L\x00\x00\x00Z",
        Refusal::GapUnlinked,
        13,
    ),
    (
        b"S\x03\x03\x03O\x01\x00\x01\x00L\x00\x00\x01Z",
        Refusal::GapUnlinked,
        13,
    ),
    (
        b"S\x01\x01\x01O\x01\x00\x01\x00Z\x00",
        Refusal::OutOfPlace,
        10,
    ),
];

#[test]
fn refusals_by_number_and_place(rt: HostRuntime) -> Result<(), Fail> {
    for (input, place) in OUT_OF_RANGE {
        refused(&rt, input, Refusal::OutOfRange, place)?;
    }
    for (input, place) in OUT_OF_PLACE {
        refused(&rt, input, Refusal::OutOfPlace, place)?;
    }
    for (input, refusal, place) in OTHERS {
        refused(&rt, input, refusal, place)?;
    }
    Ok(())
}

fn cuts_are_refused(rt: &impl Abort, sample: &[u8]) -> Result<(), Fail> {
    for len in 0..sample.len() {
        refused(rt, &sample[0..len], Refusal::InputEnds, unfinished(len))?;
    }
    Ok(())
}

#[test]
fn a_sample_cut_short_ends_in_its_last_record(rt: HostRuntime) -> Result<(), Fail> {
    cuts_are_refused(&rt, SAMPLE)
}

// What a letter alone is refused with.
fn letter_refusal(letter: u8) -> Refusal {
    match letter {
        b'S' | b'O' | b'L' => Refusal::InputEnds,
        b'Z' => Refusal::OutOfPlace,
        _ => Refusal::UnknownLetter,
    }
}

#[test]
fn every_byte_first_and_after_the_end(rt: HostRuntime) -> Result<(), Fail> {
    for letter in 0..=255u8 {
        refused(&rt, &[letter], letter_refusal(letter), 0)?;
        let mut input = [letter; 19];
        input[0..18].copy_from_slice(SAMPLE);
        refused(&rt, &input, Refusal::OutOfPlace, 18)?;
    }
    Ok(())
}

// What the sample says besides its links, read into the shortest map.
fn sample_is_understood(rt: &impl Abort) -> Result<(), Fail> {
    let mut map = [7; MAP_BYTES];
    let description = read(SAMPLE, &mut map).map_err(|_| Fail::new("refused"))?;
    let sizes = description.sizes;
    let order = description.order;
    assert_eq!(rt; (sizes.width, sizes.height, sizes.planes), (3, 3, 2));
    assert_eq!(rt; (order.north, order.east), (1, 0));
    assert_eq!(rt; (order.south, order.west), (1, 0));
    Ok(())
}

// A map one byte too short is refused, and stays as it was.
fn short_map_is_refused(rt: &impl Abort, input: &[u8]) -> Result<(), Fail> {
    let mut map = [7; MAP_LESS];
    let Err(fault) = read(input, &mut map) else {
        return Err(Fail::new("accepted"));
    };
    assert_eq!(rt; fault.refusal(), Refusal::ShortBuffer);
    assert_eq!(rt; fault.place(), 0);
    assert_eq!(rt; fault.layer(), Layer::Stack);
    assert!(rt; all(&map, 7), "map");
    Ok(())
}

#[test]
fn maps_long_enough_hold_the_links(rt: HostRuntime) -> Result<(), Fail> {
    short_map_is_refused(&rt, SAMPLE)?;
    short_map_is_refused(&rt, b"x")?;
    sample_is_understood(&rt)?;
    accepted(&rt, SAMPLE, &[0, 8]);
    accepted(&rt, b"S\x01\x01\x01O\x00\x00\x00\x01Z", &[]);
    // Links in another order than the map's.
    accepted(
        &rt,
        b"S\x02\x03\x03O\x00\x00\x00\x01L\x00\x01\x01L\x01\x02\x00Z",
        &[5, 8],
    );
    Ok(())
}

#[test]
fn the_largest_description_and_no_more(rt: HostRuntime) -> Result<(), Fail> {
    let mut text = largest_unfinished(rt.alloc())?;
    assert_eq!(rt; text.len(), 16_137);
    refused(&rt, &text, Refusal::InputEnds, 16_137)?;
    text.push(b'Z')?;
    let mut map = [7; MAP_BYTES];
    assert!(rt; read(&text, &mut map).is_ok());
    assert!(rt; all(&map, 1));
    text.push(b'Z')?;
    refused(&rt, &text, Refusal::OutOfPlace, 16_138)?;
    text.truncate(16_137);
    text.extend_from_slice(b"L\x17\x17\x06Z")?;
    assert_eq!(rt; text.len(), 16_142);
    refused(&rt, &text, Refusal::LinkTwice, 16_137)
}
