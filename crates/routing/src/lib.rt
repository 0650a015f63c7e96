// The interfaces by which a buyer brings tie rules, fillers and guides, and those that are supplied.

#![tactic(auto)]

mod choosing;
mod filling;
mod guiding;
mod halves;
mod optimistic;
mod pointing;
mod register;
mod rooms;
mod safe;
mod seeking;
mod ties;

pub use choosing::{Chooser, First, Last, Question};
pub use filling::{Filler, Task};
pub use guiding::{Guide, Request};
pub use optimistic::Optimistic;
pub use pointing::Pointing;
pub use register::ShiftRegister;
pub use rooms::{MOST, Places, keep, list_passing};
pub use safe::MdSafe;
pub use ties::RandomOffline;
