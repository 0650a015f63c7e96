// What runs over a planned stack come to.

#![tactic(auto)]

mod counting;

pub use counting::{Kind, count};
