//! Tests of the crates beneath arrays: of lists, types, numbers, dates, JSON texts, schemas, and the
//! headers and blocks of files. They stand in a crate of their own, so that those crates are proved
//! once. What a test has is let go by a call: where it goes out of scope, all that lies in it would
//! be let go in the proof of the test.
#![tactic(auto)]

#[cfg(test)]
mod bitmaps;
#[cfg(test)]
mod blocks;
#[cfg(test)]
mod cards;
#[cfg(test)]
mod dates;
#[cfg(test)]
mod files;
#[cfg(test)]
mod headers;
#[cfg(test)]
mod json_texts;
#[cfg(test)]
mod lists_and_errors;
#[cfg(test)]
mod metadata;
#[cfg(test)]
mod samples;
#[cfg(test)]
mod schema_texts;
#[cfg(test)]
mod schemas_and_cursors;
#[cfg(test)]
mod sources_and_sinks;
#[cfg(test)]
mod timestamps;
#[cfg(test)]
mod types_and_numbers;
#[cfg(test)]
mod written_files;
#[cfg(test)]
mod written_schemas;
