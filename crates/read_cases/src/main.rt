//! Prints, for each case on its input, the columns that JSON values or lines are read as, or the
//! error. A case is a line: its name, a colon, a command and what that works on. Other lines, which
//! begin with `#`, are printed as they are.
//!
//! These commands take a type, the word `of` and a JSON text:
//!
//! - `read` gives the JSON text of the column, without brackets;
//! - `stored` gives what lies in memory, and `keys` the keys and the values of a dictionary;
//! - `records` gives the column of each field of a struct.
//!
//! These take a type, the word `of` and rows, between which stands ` | `:
//!
//! - `rows` and `given` give the column of the rows, which an iterator gives in the second case;
//! - `lines` gives the columns of the rows' members, read without a tree, and of further rows after
//!   each ` / `, by the same builders;
//! - `columns` and `structs` do the same with dictionaries, each as a column or all as structs.
//!
//! `whole` takes a mantissa and an exponent, `number` a JSON text, and `integer` and `float` a mantissa
//! that no JSON text has so; each gives the whole number. `many` makes what is too long for a line.
//!
//! A type is read from its words: `list Int64` are lists of integers, `sized:2 Int64` lists of two,
//! and `struct:a,b Int64 list Utf8` structs of `a` and `b`.
#![tactic(auto)]

mod answers;
mod columns;
mod lines;
mod many;
mod numbers;
mod stored;
mod texts;
mod types;

use std::io;

fn main(rt: HostRuntime) -> io::Result<()> {
    for line in rt.lines(rt.alloc()) {
        let text = answers::printed(rt.alloc(), line?.as_str())?;
        println!(rt; "{text}")?;
    }
    Ok(())
}
