// Lists of places, in room of their own or in room that the caller lends: no filler needs the heap.
ghost use Rattle.std.specs.Prelude.{◌≡◌, ◌+◌, ◌<◌, ◌≤◌, ◌&&◌, [], ◌∷◌, ◌++◌, Bool, length, take, filter, if◌then◌else◌, nat_lt, slice_set};
ghost use Rattle.mesh.specs.declared.grid.Place.{Place};

use arrayvec::ArrayVec;
use mesh::Place;

// The most routers that a plane has, and so the most elevators.
pub const MOST: usize = 576;

pub type Places = ArrayVec<Place, MOST>;

// Puts a place behind the `count` kept so far if it passes and there is room, and replies with the new count: for a
// filler whose room is a slice of the caller's.
pub fn keep(room: &mut [Place], count: usize, place: Place, passes: bool) -> usize
    ensures counts { result ≡ (if passes && nat_lt count (length room.old) then count + 1 else count) }
    ensures after { room.new ≡ (if passes then slice_set room.old count place else room.old) }
    ensures bound { result ≤ count + 1 }
    ensures kept { count < length room.old → take result room.new ≡ take count room.old ++ (if passes then place ∷ [] else []) }
{
    if !passes {
        return count;
    }
    if count < room.len() {
        room[count] = place;
        count + 1
    } else {
        count
    }
}

// Lists the places that pass a test, in their order: all that there are, up to the room that the list has.
pub fn list_passing<F: Fn(&Place) -> bool, const N: usize>(
    places: &[Place],
    passes: F,
    list: &mut ArrayVec<Place, N>,
)
    requires { F.IsAlwaysCallable passes }
    ensures { (test : Place → Bool) → ((p : _) (b : Bool) → F.post passes p b → b ≡ test p.now) → list.new.items ≡ take N (filter test places.now) }
{
    list.clear();
    for place in places {
        if passes(place) && !list.is_full() {
            list.push(*place);
        }
    }
}
