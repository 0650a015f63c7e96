// The channel table: its buffers, its records, the calls that work it and what they answer, as types. What the calls
// do is in specs/; that the table never stands still, and never loses a packet, is proved here once, so that the
// code's own crate stays quick to check.

#![tactic(auto)]

mod buffers;
mod calls;
mod certificate;
mod records;

pub use buffers::{Buffer, Network, Port, Ports};
pub use calls::{Answer, Call, Done};
pub use certificate::{certificate_holds, numbers_are_faithful, records_are_apart};
pub use records::Record;
