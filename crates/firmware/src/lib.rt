// The library for firmware written in C: numbers and slices only. Each call answers 0, or the number of its refusal.

#![tactic(auto)]

mod opening;
mod planning;
mod reading;
mod shapes;
mod tables;

pub use planning::{tulgravyn_list_plan, tulgravyn_plan};
pub use reading::{tulgravyn_list_fault, tulgravyn_read};
pub use shapes::{Fault, Stack};
pub use tables::{
    tulgravyn_clear, tulgravyn_collect, tulgravyn_inject, tulgravyn_move, tulgravyn_ports,
};
