//! Tests of the crates of pictures, of their decoding and of what is certified of them, over their public calls alone. They
//! stand apart from these crates, so that none is proved a second time for its tests.
#![tactic(auto)]

#[cfg(test)]
mod certified;
#[cfg(test)]
mod comparison;
#[cfg(test)]
mod decoding;
#[cfg(test)]
mod fixtures;
#[cfg(test)]
mod frames;
#[cfg(test)]
mod parts;
#[cfg(test)]
mod planes;
#[cfg(test)]
mod prediction;
#[cfg(test)]
mod reconstruction;
#[cfg(test)]
mod requantised;
#[cfg(test)]
mod store;
