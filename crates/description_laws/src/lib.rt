// The records of a description and the faults of a reading, as types. Their meaning is in specs/; that no input
// has two readings is proved here once, so that the reader's own crate stays quick to check.

#![tactic(auto)]

mod faults;
mod readings;
mod records;

pub use faults::{ByteFault, Layer, RecordFault, StackFault};
pub use readings::readings_are_one;
pub use records::{Extent, Record, SetNumbers};
