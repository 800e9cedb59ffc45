//! Tests of the crates of endpoints, of frame files and what is buried in them, and of the plan, over their public calls
//! alone. They stand apart from these crates, so that none is proved a second time for its tests.
#![tactic(auto)]

#[cfg(test)]
mod buried;
#[cfg(test)]
mod comparison;
#[cfg(test)]
mod cut;
#[cfg(test)]
mod ends;
#[cfg(test)]
mod fixtures;
#[cfg(test)]
mod frames;
#[cfg(test)]
mod numbers;
#[cfg(test)]
mod plan;
#[cfg(test)]
mod sheets;
#[cfg(test)]
mod slots;
