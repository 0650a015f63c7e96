// What every call on a stack tests first: sizes, turn order and scheme.
ghost use Rattle.std.specs.Prelude.{◌≡◌, MatchResult};
ghost use Rattle.firmware.specs.Opening.{Opens, Refuses, code, scheme_of};

use crate::shapes::Stack;
use mesh::{Refusal, Sizes, TurnOrder};
use schemes::Scheme;

// The scheme with a number: C has numbers where the library has enums.
fn scheme_of(number: u8, order: TurnOrder) -> Result<Scheme, Refusal>
    ensures { result ≡ scheme_of number order }
{
    match number {
        0 => Ok(Scheme::MdSafe(order)),
        1 => Ok(Scheme::RandomOffline(order)),
        2 => Ok(Scheme::Optimistic),
        _ => Err(Refusal::OutOfRange),
    }
}

// A stack that may be worked on.
#[derive(Clone, Copy)]
pub(crate) struct Opened {
    pub(crate) sizes: Sizes,
    pub(crate) scheme: Scheme,
}

// The stack that C describes, or the first refusal: sizes, turn order, scheme.
pub(crate) fn open(stack: Stack) -> Result<Opened, Refusal>
    ensures { MatchResult result (λ v. Opens stack v.sizes v.scheme) (λ x. Refuses stack x) }
{
    let sizes = Sizes::new(stack.width, stack.height, stack.planes)?;
    let order = TurnOrder::new(stack.north, stack.east, stack.south, stack.west)?;
    let scheme = scheme_of(stack.scheme, order)?;
    Ok(Opened { sizes, scheme })
}

// The number that answers C: 0, or that of the refusal.
pub(crate) fn code(res: Result<(), Refusal>) -> u8
    ensures { result ≡ code res }
{
    match res {
        Ok(()) => 0,
        Err(refusal) => refusal.number(),
    }
}
