// What is wrong with a script: a line, and why it is not understood.
use std::alloc::{AllocError, AllocFailed};
use std::num::{IntErrorKind, ParseIntError, TryFromIntError};
use thiserror::Error;

// Why a line is not understood.
#[derive(Clone, Copy, Debug, Error)]
pub(crate) enum Reason {
    #[error("not text")]
    NotText,
    #[error("unknown word")]
    UnknownWord,
    #[error("wrong count of words")]
    WordCount,
    #[error("not a number")]
    NotNumber,
    #[error("number too large")]
    TooLarge,
    #[error("not one to four hexadecimal digits")]
    NotRegister,
    #[error("out of order")]
    OutOfOrder,
    #[error("no stack line")]
    NoStack,
    #[error("no order line")]
    NoOrder,
    #[error("no plan line")]
    NoPlan,
    #[error("out of memory")]
    Memory,
}

impl Reason {
    // The fault of the line that comes after so many.
    pub(crate) fn after(self, lines: usize) -> Fault {
        Fault {
            line: lines.saturating_add(1),
            reason: self,
        }
    }
}

impl From<AllocError> for Reason {
    fn from(_error: AllocError) -> Reason {
        Reason::Memory
    }
}

impl<T: Drop> From<AllocFailed<T>> for Reason {
    fn from(_error: AllocFailed<T>) -> Reason {
        Reason::Memory
    }
}

impl From<ParseIntError> for Reason {
    fn from(error: ParseIntError) -> Reason {
        match error.kind() {
            IntErrorKind::PosOverflow => Reason::TooLarge,
            _ => Reason::NotNumber,
        }
    }
}

impl From<TryFromIntError> for Reason {
    fn from(_error: TryFromIntError) -> Reason {
        Reason::TooLarge
    }
}

// The first line that is not understood. Lines are counted from 1.
#[derive(Clone, Copy, Debug, Error)]
#[error("line {line}: {reason}")]
pub(crate) struct Fault {
    line: usize,
    reason: Reason,
}
