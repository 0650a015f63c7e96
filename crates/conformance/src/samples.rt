// A stack of 3 by 3 by 2 with the links (0, 0) and (2, 2), and descriptions around it.
use mesh::{Refusal, TurnOrder};
use std::alloc::{AllocError, Global};

// S at 0, O at 4, links at 9 and 13, Z at 17.
pub(crate) const SAMPLE: &[u8; 18] = b"S\x03\x03\x02O\x01\x00\x01\x00L\x00\x00\x00L\x02\x02\x00Z";

pub(crate) const SAMPLE_MAP: [u8; 9] = [1, 0, 0, 0, 0, 0, 0, 0, 1];

pub(crate) const SAMPLE_PLAN: [u8; 18] = [
    0x00, 0x08, 0x01, 0x04, 0x03, 0x01, 0x02, 0x02, 0x00, 0x00, 0x80, 0x10, 0x40, 0x30, 0x10, 0x20,
    0x20, 0x00,
];

// Whether every byte has this value.
pub(crate) fn all(bytes: &[u8], value: u8) -> bool {
    bytes.iter().all(|byte| *byte == value)
}

// Whether a buffer of 7s now begins so, and is 7 beyond.
pub(crate) fn begins(buffer: &[u8], front: &[u8]) -> bool {
    buffer
        .strip_prefix(front)
        .is_some_and(|beyond| all(beyond, 7))
}

// East and West first.
pub(crate) fn xy() -> Result<TurnOrder, Refusal> {
    TurnOrder::new(1, 0, 1, 0)
}

// 24 by 24 by 8 with every link that there is, and Z left out: 16,137 bytes.
pub(crate) fn largest_unfinished(heap: Global) -> Result<Vec<u8>, AllocError> {
    let mut text = Vec::new(heap);
    text.extend_from_slice(b"S\x18\x18\x08O\x00\x00\x00\x01")?;
    for gap in 0..7 {
        for y in 0..24 {
            for x in 0..24 {
                text.extend_from_slice(&[b'L', x, y, gap])?;
            }
        }
    }
    Ok(text)
}
