// Plan: every gap's two halves, by a filler that may ask a chooser.
ghost use Rattle.std.specs.Prelude.{◌≡◌, ℕ, ◌+◌, ◌-◌, ◌*◌, ◌<◌, ◌≤◌, length, replicate};
ghost use Rattle.mesh.specs.declared.compass.Way.TheVariants.{Up, Down};
ghost use Rattle.routing_laws.specs.Elevators.{Joined};
ghost use Rattle.routing_laws.specs.Filling.{put_plane, task};
ghost use Rattle.routing.specs.Telling.{task_of};
ghost use Rattle.routing_laws.specs.Plan.{Planned, after_gap, begun, chooser_after, job, planned};

use crate::gaps::Gaps;
use mesh::{Refusal, Sizes, Way};
use routing::{Chooser, Filler, Places, Task};

// Fills one half of a plane among the bytes of all planes. The chooser and the bytes stand beside the task, as in
// `Filler::fill`: a task is only read, and those two are changed.
fn fill_plane<C: Chooser, F: Filler<C>>(task: Task, filler: &F, chooser: &mut C, bytes: &mut [u8])
    requires { task.plane * (task.sizes.width * task.sizes.height) + task.sizes.width * task.sizes.height ≤ length bytes.old }
    ensures writes { bytes.new ≡ put_plane (task.entry.sizes.width * task.entry.sizes.height) task.entry.plane task.entry.way bytes.old (F.half filler.now (task_of task.entry) chooser.old) }
    ensures goes { chooser.new ≡ F.next filler.now (task_of task.entry) chooser.old }
{
    let area = task.sizes.area();
    let start = usize::from(task.plane) * area;
    filler.fill(task, chooser, &mut bytes[start..start + area]);
}

// Fills the two halves of a gap: Up of the plane below it, then Down of the plane above it.
fn fill_gap<C: Chooser, F: Filler<C>>(
    gaps: Gaps,
    gap: u8,
    filler: &F,
    chooser: &mut C,
    bytes: &mut [u8],
)
    requires inner { gap + 1 < gaps.sizes.planes }
    requires fits { length bytes.old ≡ gaps.sizes.planes * (gaps.sizes.width * gaps.sizes.height) }
    ensures writes { bytes.new ≡ after_gap (job gaps.entry.sizes gaps.entry.map.now (F.half filler.now) (F.next filler.now)) chooser.old gap bytes.old }
    ensures goes { chooser.new ≡ chooser_after (job gaps.entry.sizes gaps.entry.map.now (F.half filler.now) (F.next filler.now)) chooser.old gap }
{
    let mut elevators = Places::new();
    gaps.elevators(gap, &mut elevators);
    let below = Task {
        sizes: gaps.sizes,
        plane: gap,
        way: Way::Up,
        elevators: &elevators,
    };
    let above = Task {
        sizes: gaps.sizes,
        plane: gap + 1,
        way: Way::Down,
        elevators: &elevators,
    };
    fill_plane(below, filler, chooser, bytes);
    fill_plane(above, filler, chooser, bytes);
}

// Fills every gap in turn: by its number, as it fills parts of two planes. The bytes are those of the stack's routers
// and no more.
fn fill_gaps<C: Chooser, F: Filler<C>>(gaps: Gaps, filler: &F, chooser: &mut C, bytes: &mut [u8])
    requires { length bytes.old ≡ gaps.sizes.planes * (gaps.sizes.width * gaps.sizes.height) }
    ensures writes { bytes.new ≡ planned (job gaps.entry.sizes gaps.entry.map.now (F.half filler.now) (F.next filler.now)) chooser.old }
    ensures goes { chooser.new ≡ begun (job gaps.entry.sizes gaps.entry.map.now (F.half filler.now) (F.next filler.now)) chooser.old (gaps.entry.sizes.planes - 1) }
{
    bytes.fill(0);
    for gap in 0..gaps.sizes.planes - 1 {
        fill_gap(gaps, gap, filler, chooser, bytes);
    }
}

// Plans a stack: writes the location byte of each router, gap by gap. What it works on is lent piece by piece: a struct
// of them would be made for this one call.
pub fn plan<C: Chooser, F: Filler<C>>(
    sizes: Sizes,
    map: &[u8],
    filler: &F,
    chooser: &mut C,
    bytes: &mut [u8],
) -> Result<(), Refusal>
    ensures { Planned (job sizes map.now (F.half filler.now) (F.next filler.now)) bytes.old chooser.old bytes.new chooser.new result }
{
    let routers = sizes.routers();
    if map.len() < sizes.gaps() * sizes.area() || bytes.len() < routers {
        return Err(Refusal::ShortBuffer);
    }
    let linked = sizes.all_linked(map);
    if !linked {
        return Err(Refusal::GapUnlinked);
    }
    fill_gaps(Gaps { sizes, map }, filler, chooser, &mut bytes[..routers]);
    Ok(())
}
