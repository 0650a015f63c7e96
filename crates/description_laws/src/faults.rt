// The faults of a reading, one type for each layer. A layer hands up the fault of the layer below it whole.
ghost use Rattle.std.specs.Prelude.{◌≡◌};
ghost use Rattle.description_laws.specs.declared.faults.RecordFault.TheVariants.{Ends};
ghost use Rattle.description_laws.specs.declared.faults.StackFault.TheVariants.{Unread};
ghost use Rattle.description_laws.specs.Faults.{layer_of, place_of, refusal_of};

use mesh::Refusal;

#[derive(Clone, Copy, PartialEq, Eq, Debug)]
pub enum Layer {
    Byte,
    Record,
    Stack,
}

// The input ends within the record that starts at `place`, or before it.
#[derive(Clone, Copy, PartialEq, Eq, Debug)]
pub struct ByteFault {
    pub place: usize,
}

#[derive(Clone, Copy, PartialEq, Eq, Debug)]
pub enum RecordFault {
    Ends(ByteFault),
    Record { refusal: Refusal, place: usize },
}

#[derive(Clone, Copy, PartialEq, Eq, Debug)]
pub enum StackFault {
    Unread(RecordFault),
    Stack { refusal: Refusal, place: usize },
}

impl From<ByteFault> for RecordFault {
    ghost from_gives = { λ f r. r ≡ Ends f };

    fn from(fault: ByteFault) -> RecordFault {
        RecordFault::Ends(fault)
    }
}

impl From<RecordFault> for StackFault {
    ghost from_gives = { λ f r. r ≡ Unread f };

    fn from(fault: RecordFault) -> StackFault {
        StackFault::Unread(fault)
    }
}

impl StackFault {
    pub fn layer(self) -> Layer
        ensures { result ≡ layer_of self }
    {
        match self {
            StackFault::Unread(RecordFault::Ends(_)) => Layer::Byte,
            StackFault::Unread(RecordFault::Record { .. }) => Layer::Record,
            StackFault::Stack { .. } => Layer::Stack,
        }
    }

    pub fn refusal(self) -> Refusal
        ensures { result ≡ refusal_of self }
    {
        match self {
            StackFault::Unread(RecordFault::Ends(_)) => Refusal::InputEnds,
            StackFault::Unread(RecordFault::Record { refusal, .. }) => refusal,
            StackFault::Stack { refusal, .. } => refusal,
        }
    }

    // Where the record starts that the fault is about.
    pub fn place(self) -> usize
        ensures { result ≡ place_of self }
    {
        match self {
            StackFault::Unread(RecordFault::Ends(fault)) => fault.place,
            StackFault::Unread(RecordFault::Record { place, .. }) => place,
            StackFault::Stack { place, .. } => place,
        }
    }
}
