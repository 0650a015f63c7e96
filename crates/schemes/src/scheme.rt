// How location bytes are filled, and by which turn order they are read. An enum and no trait object: functions
// hand it out by value, without the heap.
use mesh::TurnOrder;

#[derive(Clone, Copy)]
pub enum Scheme {
    MdSafe(TurnOrder),
    RandomOffline(TurnOrder),
    Optimistic,
}
