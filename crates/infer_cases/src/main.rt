//! Prints, for each case on its input, the type that is inferred for JSON texts or lines, or the
//! error. A case is a line: its name, a colon, a command and what that works on. Other lines, which
//! begin with `#`, are printed as they are.
//!
//! - `infer` gives the type of a JSON text, `records` the schema of an array of records;
//! - `coerce` coerces the types of an array's items, and `rows` adds the items one at a time;
//! - `lines` gives the type of JSON lines, and `given` that of lines that an iterator gives;
//! - `first` gives the type of so many lines, under a limit of bytes, and the byte that comes next;
//! - `failing` gives the type of lines where the read of this number fails;
//! - `many` makes a long text.
//!
//! In lines, `\n`, `\r` and `\x` with two digits stand for a byte.
#![tactic(auto)]

mod answers;
mod lines;
mod many;
mod sources;
mod types;

use std::io;

fn main(rt: HostRuntime) -> io::Result<()> {
    for line in rt.lines(rt.alloc()) {
        let text = answers::printed(rt.alloc(), line?.as_str())?;
        println!(rt; "{text}")?;
    }
    Ok(())
}
