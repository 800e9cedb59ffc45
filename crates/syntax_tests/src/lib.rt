//! Tests of the crates of the syntax layer and of the arithmetic below it, over their public calls alone. They stand
//! apart from these crates, so that none is proved a second time for its tests.
#![tactic(auto)]

#[cfg(test)]
mod bits;
#[cfg(test)]
mod blocks;
#[cfg(test)]
mod codes;
#[cfg(test)]
mod comparison;
#[cfg(test)]
mod fixtures;
#[cfg(test)]
mod heads;
#[cfg(test)]
mod heads_written;
#[cfg(test)]
mod macroblocks;
#[cfg(test)]
mod quant;
#[cfg(test)]
mod slice_text;
#[cfg(test)]
mod slices;
#[cfg(test)]
mod slices_written;
#[cfg(test)]
mod transform;
#[cfg(test)]
mod units;
#[cfg(test)]
mod vectors;
