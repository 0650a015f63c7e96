// Planning: location bytes for every router of a stack, by any filler and any chooser.

#![tactic(auto)]

mod gaps;
mod planning;

pub use planning::plan;
