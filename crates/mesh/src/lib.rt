// The vocabulary of a stack: its sizes, its places and routers, directions, half-bytes, turn orders, and the
// refusals that every call of the library answers with.

#![tactic(auto)]

mod compass;
mod grid;
mod halves;
mod links;
mod measures;
mod refusals;
mod stack;
mod turning;
mod turns;

pub use compass::{Direction, Directions, Trip, Way};
pub use grid::{Link, Place, Router};
pub use links::{LINK, MAP_BYTES};
pub use refusals::{Refusal, UnknownNumber};
pub use stack::{MOST_COLUMNS, MOST_PLANES, MOST_ROWS, Sizes};
pub use turning::LAST_SET;
pub use turns::TurnOrder;
