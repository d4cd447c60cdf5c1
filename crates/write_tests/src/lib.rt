//! Tests of the Avro writer and of the words of types, in a crate of their own, so that
//! `avro_write` and `cli_words` are proved once. What a test has is let go by a call: where it goes
//! out of scope, all that lies in it would be let go in the proof of the test.
#![tactic(auto)]

#[cfg(test)]
mod arrays;
#[cfg(test)]
mod calls;
#[cfg(test)]
mod rows;
#[cfg(test)]
mod words;
