// What fillers, choosers and guides mean, and the theorems about them. There is no code here to speak of: the
// lemmas stand apart from the code that cites them, so that the code's own crates stay quick to check.

#![tactic(auto)]

mod theorems;

pub use theorems::{
    candidates_are_exact, compasses_are_exact, optimistic_keeps_the_rules,
    pointing_keeps_the_rules, safe_halves_point,
};
