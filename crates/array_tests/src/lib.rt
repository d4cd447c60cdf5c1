//! Tests of arrays, of chunks and of the equality of arrays, of builders, and of arrays that are
//! encoded as dictionaries. They stand in a crate of their own, so that the crates that they test are
//! proved once. What a test has is let go by a call: where it goes out of scope, all that lies in it
//! would be let go in the proof of the test.
#![tactic(auto)]

#[cfg(test)]
mod dictionaries;
#[cfg(test)]
mod equality;
#[cfg(test)]
mod flat;
#[cfg(test)]
mod flat_builders;
#[cfg(test)]
mod making;
#[cfg(test)]
mod memory;
#[cfg(test)]
mod nested;
#[cfg(test)]
mod nested_builders;
#[cfg(test)]
mod samples;
#[cfg(test)]
mod values;
