// Tie rules: which of several elevators a router's half-byte points at.
ghost use Rattle.std.specs.Prelude.{◌≡◌, ℕ, ◌-◌, ◌<◌, ◌≤◌, length};
ghost use Rattle.routing_laws.specs.Filling.{Asked};
ghost use Rattle.routing.specs.Telling.{asked_by};
ghost use Rattle.std.proofs.Common.{rules};

use mesh::{Place, Way};

// What a chooser is asked: which of these elevators a router points at for a way.
#[derive(Clone, Copy)]
pub struct Question<'a> {
    pub plane: u8,
    pub way: Way,
    pub router: Place,
    pub candidates: &'a [Place],
}

// A chooser's meaning is two functions of its state and the question: the position of the elevator chosen, and
// the state it goes on with. It is asked only where two or more candidates remain.
pub trait Chooser {
    ghost position: { Self → Asked → ℕ };

    ghost after: { Self → Asked → Self };

    fn choose(&mut self, question: Question) -> usize
        ensures replies { result ≡ position self.old (asked_by question.entry) }
        ensures goes { self.new ≡ after self.old (asked_by question.entry) };

    ghost within: { (c : Self) (q : Asked) → 2 ≤ length q.candidates → position c q < length q.candidates };
}

// Always the first candidate.
#[derive(Clone, Copy)]
pub struct First;

impl Chooser for First {
    ghost position = { λ _ _. 0 };

    ghost after = { λ c _. c };

    ghost within = { Prim.search rules };

    fn choose(&mut self, _question: Question) -> usize {
        0
    }
}

// Always the last candidate.
#[derive(Clone, Copy)]
pub struct Last;

impl Chooser for Last {
    ghost position = { λ _ q. length q.candidates - 1 };

    ghost after = { λ c _. c };

    ghost within = { Prim.search rules };

    fn choose(&mut self, question: Question) -> usize {
        question.candidates.len().saturating_sub(1)
    }
}
