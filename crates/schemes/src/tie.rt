// How ties are settled. An enum and no trait object: functions hand it out by value, without the heap.
ghost use Rattle.schemes.specs.Ties.{tie_after, tie_position};
ghost use Rattle.std.proofs.Common.{rules};

use routing::{Chooser, First, Last, Question, ShiftRegister};

#[derive(Clone, Copy)]
pub enum Tie {
    First,
    Last,
    Register(ShiftRegister),
}

impl Chooser for Tie {
    ghost position = { λ c q. tie_position c q };

    ghost after = { λ c q. tie_after c q };

    ghost within = { Prim.search rules };

    fn choose(&mut self, question: Question) -> usize {
        match self {
            Tie::First => First.choose(question),
            Tie::Last => Last.choose(question),
            Tie::Register(register) => register.choose(question),
        }
    }
}
