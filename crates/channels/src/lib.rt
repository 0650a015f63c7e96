// The channel table: packets that wait in the buffers of a stack's routers, and move.

#![tactic(auto)]

mod calls;
mod entering;
mod held;
mod moving;
mod permits;
mod runs;
mod spots;
mod stacks;

pub use calls::clear;
pub use runs::{run_script, start_run};
pub use spots::table_size;
pub use stacks::PlannedStack;
