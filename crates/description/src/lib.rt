// The reader of descriptions, in three layers: bytes, records, and the stack that they describe.

#![tactic(auto)]

mod bytes;
mod cursor;
mod reader;
mod records;

pub use reader::{Description, read};
