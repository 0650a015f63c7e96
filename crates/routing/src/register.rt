// A shift register as a chooser: its sixteen bits move at each question, and the new state picks the candidate.
ghost use Rattle.std.specs.Prelude.{◌≡◌, ◌%◌, ◌<◌, max, length, MatchResult};
ghost use Rattle.mesh.specs.declared.refusals.Refusal.TheVariants.{ZeroState};
ghost use Rattle.routing_laws.specs.Register.{Moved, bit, shifted, tapped};
ghost use Rattle.std.proofs.Common.{rules};

use crate::choosing::{Chooser, Question};
use mesh::Refusal;

// Its bits are never all zero.
#[derive(Clone, Copy)]
pub struct ShiftRegister {
    pub state: u16,
    ghost some: { 0 < state },
}

fn bit(state: u16, k: u32) -> u16
    requires { k < 16 }
    ensures { result ≡ bit k state }
{
    state >> k & 1
}

// The new top bit.
fn tap(state: u16) -> u16
    ensures { result ≡ tapped state }
{
    bit(state, 0) ^ bit(state, 2) ^ bit(state, 3) ^ bit(state, 5)
}

// The state after this one.
fn next_state(state: u16) -> u16
    ensures shifts { result ≡ shifted state }
    ensures moves { 0 < state → Moved state result }
{
    state >> 1 | tap(state) << 15
}

impl ShiftRegister {
    pub fn new(state: u16) -> Result<ShiftRegister, Refusal>
        ensures { MatchResult result (λ c. c.state ≡ state) (λ e. (e ≡ ZeroState) × (state ≡ 0)) }
    {
        if state == 0 {
            return Err(Refusal::ZeroState);
        }
        Ok(ShiftRegister { state })
    }
}

impl Chooser for ShiftRegister {
    ghost use Rattle.routing.specs.Registers.{shift};

    ghost position = { λ c q. shifted c.state % max (length q.candidates) 1 };

    ghost after = { λ c _. shift c };

    ghost within = { Prim.search rules };

    // Any position serves where there is no candidate.
    fn choose(&mut self, question: Question) -> usize {
        self.state = next_state(self.state);
        usize::from(self.state) % question.candidates.len().max(1)
    }
}
