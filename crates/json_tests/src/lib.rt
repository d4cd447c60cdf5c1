//! Tests of the JSON text of columns, and of lines of JSON: which lines are rows, and arrays that are
//! written as lines. They stand in a crate of their own, so that what they test is proved once. What
//! a test has is let go by a call: where it goes out of scope, all that lies in it would be let go in
//! the proof of the test.
#![tactic(auto)]

#[cfg(test)]
mod arrays;
#[cfg(test)]
mod batches;
#[cfg(test)]
mod faults;
#[cfg(test)]
mod line_sources;
#[cfg(test)]
mod lines;
#[cfg(test)]
mod pieces;
#[cfg(test)]
mod refusals;
#[cfg(test)]
mod rows;
#[cfg(test)]
mod samples;
#[cfg(test)]
mod texts;
