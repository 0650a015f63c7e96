// Why a sample is not shown: a call refuses it, or the output fails.
use mesh::Refusal;
use std::{fmt, io};

#[derive(Drop)]
pub(crate) enum Failure {
    Refused(Refusal),
    Output(io::Error),
}

impl From<Refusal> for Failure {
    fn from(refusal: Refusal) -> Failure {
        Failure::Refused(refusal)
    }
}

impl From<io::Error> for Failure {
    fn from(error: io::Error) -> Failure {
        Failure::Output(error)
    }
}

// What `main` ends with is printed by `Debug`: by hand, so that an output that fails is told as an `io::Error` tells it.
impl fmt::Debug for Failure {
    fn fmt<W: fmt::Write>(&self, f: &mut fmt::Formatter<W>) -> fmt::Result {
        match self {
            Failure::Refused(refusal) => write!(f, "{refusal}"),
            Failure::Output(error) => write!(f, "{error:?}"),
        }
    }
}
