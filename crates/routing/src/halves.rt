// How a filler that asks nobody writes its half.
ghost use Rattle.std.specs.Prelude.{◌≡◌, ℕ, ◌*◌, map, length};
ghost use Rattle.mesh.specs.declared.grid.Place.{Place};
ghost use Rattle.routing_laws.specs.Elevators.{places};
ghost use Rattle.routing_laws.specs.Filling.{put_halves};

use crate::filling::Task;
use mesh::Place;

// Writes one half of a plane: at each router the half-byte of its place.
pub(crate) fn write_half<F: Fn(Place) -> u8>(task: Task, half: F, bytes: &mut [u8])
    requires callable { F.IsAlwaysCallable half }
    requires whole { length bytes.old ≡ task.sizes.width * task.sizes.height }
    ensures { (f : Place → ℕ) → ((p : Place) (v : ℕ) → F.post half p v → v ≡ f p) → bytes.new ≡ put_halves task.entry.way bytes.old (map f (places task.entry.sizes.width task.entry.sizes.height)) }
{
    for (i, byte) in bytes.iter_mut().enumerate() {
        *byte = task.way.with_half(*byte, half(task.sizes.place_at(i)));
    }
}
