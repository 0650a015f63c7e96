// The supplied choosers, fillers and guides as values that are picked while a program runs: one type for the ties, and
// one for a filler together with its guide.

#![tactic(auto)]

mod filling;
mod guiding;
mod scheme;
mod tie;

pub use scheme::Scheme;
pub use tie::Tie;
