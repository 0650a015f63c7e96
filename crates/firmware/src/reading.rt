// Reading a description, and listing a fault.
ghost use Rattle.std.specs.Prelude.{◌≡◌, MatchOption, ◌≢◌};
ghost use Rattle.mesh.specs.Numbers.{number_of};
ghost use Rattle.firmware.specs.Reading.{ListedFault, Reads, fault_of, stack_of};

use crate::shapes::{Fault, Stack};
use description::{Description, read};
use description_laws::{ByteFault, RecordFault, StackFault};
use listing::list_fault;
use mesh::Refusal;

impl From<StackFault> for Fault {
    ghost from_gives = { λ f r. r ≡ fault_of f };

    fn from(fault: StackFault) -> Fault {
        Fault {
            place: fault.place(),
            number: fault.refusal().number(),
            layer: fault.layer() as u8,
        }
    }
}

// The stack that a description says; the scheme stays.
fn stack_of(description: Description, old: Stack) -> Stack
    ensures { result ≡ stack_of description old }
{
    Stack {
        width: description.sizes.width,
        height: description.sizes.height,
        planes: description.sizes.planes,
        north: description.order.north,
        east: description.order.east,
        south: description.order.south,
        west: description.order.west,
        scheme: old.scheme,
    }
}

// Reads a description into `map` and `stack`; a fault is written to `fault`, and `stack` stays.
#[unsafe(no_mangle)]
pub extern "C" fn tulgravyn_read(
    input: &[u8],
    map: &mut [u8],
    stack: &mut Stack,
    fault: &mut Fault,
) -> u8
    ensures { Reads input.now map.old map.new stack.old stack.new fault.old fault.new result }
{
    match read(input, map) {
        Ok(description) => {
            *stack = stack_of(description, *stack);
            0
        }
        Err(found) => {
            *fault = Fault::from(found);
            found.refusal().number()
        }
    }
}

// The fault that C hands back, if a reading can have it.
fn found_fault(fault: Fault) -> Option<StackFault>
    ensures { MatchOption result ((f : StackFault) → fault_of f ≡ fault → ⊥) (λ f. fault_of f ≡ fault) }
{
    let place = fault.place;
    let refusal = Refusal::try_from(fault.number).ok()?;
    match (fault.layer, refusal) {
        (0, Refusal::InputEnds) => Some(StackFault::Unread(RecordFault::Ends(ByteFault { place }))),
        (1, _) => Some(StackFault::Unread(RecordFault::Record { refusal, place })),
        (2, _) => Some(StackFault::Stack { refusal, place }),
        _ => None,
    }
}

// Lists a fault that was read; `count` is the number of bytes written, and stays where the call is refused.
#[unsafe(no_mangle)]
pub extern "C" fn tulgravyn_list_fault(fault: &Fault, out: &mut [u8], count: &mut usize) -> u8
    ensures { ListedFault fault.now out.old out.new count.old count.new result }
{
    let Some(found) = found_fault(*fault) else {
        return Refusal::OutOfRange.number();
    };
    match list_fault(found, out) {
        Ok(written) => {
            *count = written;
            0
        }
        Err(refusal) => refusal.number(),
    }
}
