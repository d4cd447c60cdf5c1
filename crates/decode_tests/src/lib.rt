//! Tests of the decoder, in a crate of their own, so that the decoder is proved once.
#![tactic(auto)]

#[cfg(test)]
mod blocks;
#[cfg(test)]
mod builders;
#[cfg(test)]
mod large;
#[cfg(test)]
mod nested;
#[cfg(test)]
mod samples;
#[cfg(test)]
mod schemas;
