// Reads a description from standard input, plans the stack by MD-safe, and prints the location bytes or the fault.

#![tactic(auto)]

ghost use Rattle.std.specs.Prelude.{◌≡◌, ℕ, ◌-◌, ◌<◌, take, MatchResult};
ghost use Rattle.mesh.specs.declared.refusals.Refusal.TheVariants.{ShortBuffer};
ghost use Rattle.listing.specs.Listed.{Listed};
ghost use Rattle.listing.specs.Text.{plan_text};
ghost use Rattle.routing_laws.specs.Elevators.{Joined};
ghost use Rattle.plan.specs.Answering.{Answered, Says, safe_plan};

use description::{Description, read};
use listing::{LONGEST, list_fault, list_plan};
use mesh::{MAP_BYTES, Refusal};
use planner::plan;
use routing::{First, MdSafe};
use std::io::Read;

// Only so many bytes of the input count: the largest description and one link more.
const INPUT: usize = 16_142;

// The location bytes of the largest stack.
const ROUTERS: usize = 4_608;

// Plans a stack by MD-safe, and lists the location bytes at the front of `out`. The reply is how many bytes these are.
fn list_stack(
    description: Description,
    map: &[u8; MAP_BYTES],
    out: &mut [u8],
) -> Result<usize, Refusal>
    requires { (g : ℕ) → g < description.sizes.planes - 1 → Joined description.sizes.width description.sizes.height map.now g }
    ensures { Listed (plan_text description.sizes (safe_plan description.sizes map.now)) out.old out.new result }
{
    let sizes = description.sizes;
    let mut bytes = [0; ROUTERS];
    plan(
        sizes,
        map,
        &MdSafe {
            order: description.order,
        },
        &mut First,
        &mut bytes,
    )?;
    list_plan(sizes, &bytes[..sizes.routers()], out)
}

// The answer to a description: the listing of its plan, or of its first fault.
fn answer(input: &[u8], out: &mut [u8]) -> Result<usize, Refusal>
    ensures { Answered input.now out.old out.new result }
{
    let mut map = [0; MAP_BYTES];
    match read(input, &mut map) {
        Ok(description) => list_stack(description, &map, out),
        Err(fault) => list_fault(fault, out),
    }
}

// The text for an input, of which only so many bytes count.
fn text_for<'a>(input: &[u8], out: &'a mut [u8]) -> Result<&'a [u8], Refusal>
    ensures { MatchResult result (λ text. Says (take 16142 input.now) text.now) (λ x. x ≡ ShortBuffer) }
{
    let count = answer(&input[..input.len().min(INPUT)], out)?;
    Ok(&out[..count])
}

fn main(rt: HostRuntime) -> anyhow::Result<()> {
    let mut input = Vec::new(rt.alloc());
    rt.stdin().take(INPUT as u64).read_to_end(&mut input)?;
    let mut out = [0; LONGEST];
    let text = text_for(&input, &mut out)?;
    rt.stdout().write_all(text)?;
    Ok(())
}
