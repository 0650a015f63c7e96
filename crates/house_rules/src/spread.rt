// Ties are spread: neighbouring routers reply with different positions, and so do two questions of one router.
ghost use Rattle.house_rules.specs.Spreading.{counted, spread};
ghost use Rattle.std.proofs.Common.{rules};

use mesh::Place;
use routing::{Chooser, Question};

// How many questions were asked so far, modulo 2^16.
#[derive(Clone, Copy)]
pub struct Spread {
    pub count: u16,
}

impl Chooser for Spread {
    ghost position = { λ c q. spread c.count q };

    ghost after = { λ c _. record { count = counted c.count } };

    ghost within = { Prim.search rules };

    fn choose(&mut self, question: Question) -> usize {
        let Place { x, y } = question.router;
        let turn = usize::from(self.count) + usize::from(x) + usize::from(y);
        self.count = self.count.wrapping_add(1);
        turn % question.candidates.len().max(1)
    }
}
