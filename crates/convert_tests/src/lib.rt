//! Tests of files: their blocks as chunks, conversions between files and lines, and files that are
//! rewritten in their canonical form; and of the functions of `guide`, which is proved once so. What
//! a test has is let go by a call: where it goes out of scope, all that lies in it would be let go in
//! the proof of the test.
#![tactic(auto)]

#[cfg(test)]
mod canonical_files;
#[cfg(test)]
mod columns;
#[cfg(test)]
mod encoded_lines;
#[cfg(test)]
mod files;
#[cfg(test)]
mod guide_blocks;
#[cfg(test)]
mod guide_files;
#[cfg(test)]
mod guide_lines;
#[cfg(test)]
mod guide_rows;
#[cfg(test)]
mod guide_samples;
#[cfg(test)]
mod guide_sums;
#[cfg(test)]
mod line_files;
#[cfg(test)]
mod lines;
#[cfg(test)]
mod plans;
#[cfg(test)]
mod reader;
#[cfg(test)]
mod rewrite;
#[cfg(test)]
mod samples;
#[cfg(test)]
mod to_avro;
#[cfg(test)]
mod to_avro_faults;
#[cfg(test)]
mod written;
