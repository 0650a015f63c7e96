// The calls of a run, and what they answer. Buffers and ports go by their numbers: a number that is none of theirs can
// be asked for, and is refused.
use crate::records::Record;
use mesh::{Refusal, Router};

#[derive(Clone, Copy, PartialEq, Eq, Debug)]
pub enum Call {
    Inject {
        source: Router,
        destination: Router,
        tag: u32,
    },
    Move {
        router: Router,
        buffer: u8,
        port: u8,
    },
    Collect {
        router: Router,
        buffer: u8,
    },
}

// What an accepted call did.
#[derive(Clone, Copy, PartialEq, Eq, Debug)]
pub enum Done {
    Injected,
    Moved,
    Collected(Record),
}

pub type Answer = Result<Done, Refusal>;
