// Tests of the library as its callers use it, by examples whose answers were worked out by hand.

#![tactic(auto)]

#[cfg(test)]
mod listings;
#[cfg(test)]
mod nearest;
#[cfg(test)]
mod planning;
#[cfg(test)]
mod reading;
#[cfg(test)]
mod samples;
#[cfg(test)]
mod tables;
#[cfg(test)]
mod values;
