//! Iterators that lend their items: each item is shown until the next is asked for.
#![tactic(auto)]

mod buffered;
mod fallible;
mod joined;
mod streaming;
#[cfg(test)]
mod tests;

pub use buffered::BufStreamingIterator;
pub use fallible::FallibleStreamingIterator;
pub use joined::write_joined;
pub use streaming::StreamingIterator;
