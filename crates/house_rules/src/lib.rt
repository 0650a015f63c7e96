// A buyer's own rules, brought from outside: a chooser, a guide and a filler that keep the library's promises.

#![tactic(auto)]

mod inner;
mod spread;
mod toward;

pub use inner::InnerElevators;
pub use spread::Spread;
pub use toward::TowardDestination;
