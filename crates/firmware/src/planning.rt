// Planning a stack, and listing its location bytes. Schemes, tie rules and answers are numbers: C has no other enums.
ghost use Rattle.std.specs.Prelude.{◌≡◌, MatchResult};
ghost use Rattle.mesh.specs.Numbers.{number_of};
ghost use Rattle.firmware.specs.Opening.{Called};
ghost use Rattle.firmware.specs.Planning.{ListedPlan, NoTie, PlannedBy, TieIs, tie_state};

use crate::opening::{Opened, code, open};
use crate::shapes::Stack;
use listing::list_plan;
use mesh::Refusal;
use planner::plan;
use routing::ShiftRegister;
use schemes::Tie;

// The tie rule with a number; a register starts from the state given.
fn tie_of(number: u8, state: u16) -> Result<Tie, Refusal>
    ensures { MatchResult result (λ t. TieIs number state t) (λ x. NoTie number state x) }
{
    match number {
        0 => Ok(Tie::First),
        1 => Ok(Tie::Last),
        2 => Ok(Tie::Register(ShiftRegister::new(state)?)),
        _ => Err(Refusal::OutOfRange),
    }
}

// The state that is handed back.
fn state_of(tie: Tie, old: u16) -> u16
    ensures { result ≡ tie_state old tie }
{
    match tie {
        Tie::First | Tie::Last => old,
        Tie::Register(register) => register.state,
    }
}

fn plan_by(opened: Opened, tie: u8, state: &mut u16, map: &[u8], bytes: &mut [u8]) -> u8
    ensures { PlannedBy opened.sizes opened.scheme tie state.old map.now bytes.old bytes.new state.new result }
{
    match tie_of(tie, *state) {
        Ok(mut chooser) => {
            let result = plan(opened.sizes, map, &opened.scheme, &mut chooser, bytes);
            *state = state_of(chooser, *state);
            code(result)
        }
        Err(refusal) => refusal.number(),
    }
}

// Plans a stack by its scheme and a tie rule; `state` is that of a register, before and after.
#[unsafe(no_mangle)]
pub extern "C" fn tulgravyn_plan(
    stack: &Stack,
    tie: u8,
    state: &mut u16,
    map: &[u8],
    bytes: &mut [u8],
) -> u8
    ensures { Called stack.now (λ s f. PlannedBy s f tie state.old map.now bytes.old bytes.new state.new result) (λ x. (result ≡ number_of x) × (bytes.new ≡ bytes.old) × (state.new ≡ state.old)) }
{
    match open(*stack) {
        Ok(opened) => plan_by(opened, tie, state, map, bytes),
        Err(refusal) => refusal.number(),
    }
}

// Lists the location bytes of a plan; `count` is the number of bytes written, and stays where the call is refused.
#[unsafe(no_mangle)]
pub extern "C" fn tulgravyn_list_plan(
    stack: &Stack,
    bytes: &[u8],
    out: &mut [u8],
    count: &mut usize,
) -> u8
    ensures { Called stack.now (λ s _. ListedPlan s bytes.now out.old out.new count.old count.new result) (λ x. (result ≡ number_of x) × (out.new ≡ out.old) × (count.new ≡ count.old)) }
{
    match open(*stack) {
        Ok(opened) => match list_plan(opened.sizes, bytes, out) {
            Ok(written) => {
                *count = written;
                0
            }
            Err(refusal) => refusal.number(),
        },
        Err(refusal) => refusal.number(),
    }
}
