// The text of a plan and of a fault, written into a buffer of the caller's.

#![tactic(auto)]

mod fault;
mod plan;

pub use fault::list_fault;
pub use plan::{LONGEST, list_plan};
