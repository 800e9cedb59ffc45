//! Tests of the crates of fresh coding, of found records, of the recoder and of the jobs over frame files, over their public
//! calls alone. They stand apart from these crates, so that none is proved a second time for its tests.
#![tactic(auto)]

#[cfg(test)]
mod audit;
#[cfg(test)]
mod coding;
#[cfg(test)]
mod comparison;
#[cfg(test)]
mod fixtures;
#[cfg(test)]
mod fresh;
#[cfg(test)]
mod glue;
#[cfg(test)]
mod reader;
#[cfg(test)]
mod recoder;
#[cfg(test)]
mod records;
