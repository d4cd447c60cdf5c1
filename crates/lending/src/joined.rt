//! Lent items, written with a separator between them.
ghost use Rattle.std.specs.Prelude.{◌≡◌, ◌≤◌, OnOk, IfOk, OnErr, IfErr, IsTrue, IsFalse};
ghost use Rattle.std.specs.Io.KnownBytes.{Appends, Keeps};
ghost use Rattle.arrow_base.specs.Outside.{AppendsPrefix, RoseOrFull};
ghost use Rattle.lending.specs.Joined.{WritesShown, WritesTold, StopsWriting, Wrote, StopsAtItem, piece};
ghost use Rattle.lending.specs.Lending.{ShowsEnd, TellsNone};

use crate::FallibleStreamingIterator;
use arrow_base::{Sink, write_all};
use arrow_core::{Error, Result};

/// Writes the items that the lender shows, with the separator between each two. The lender may be
/// asked for items.
///
/// `WriteFault` where a write failed; the sink then took a prefix of some of the items. The
/// lender's own error as it came; the sink then took the items before it.
pub fn write_joined<K: Sink, I: FallibleStreamingIterator<Error = Error>>(
    sink: &mut K,
    separator: u8,
    mut lender: I,
) -> Result<()>
    requires { I.can_advance lender }
    ensures shown { OnOk result
        (WritesShown I.step I.shown lender separator (K.held sink.old) (K.held sink.new)) }
    ensures err { IfErr result
        (StopsWriting I.step I.shown lender separator (K.held sink.old) (K.held sink.new)
        (K.faults sink.old) (K.faults sink.new)) }
    ensures told { OnOk result
        (WritesTold (I.items lender) separator (K.held sink.old) (K.held sink.new)) }
    ensures never_falls { K.faults sink.old ≤ K.faults sink.new }
    ensures same { K.identity sink.new ≡ K.identity sink.old }
{
    let mut is_first = true;
    while write_next(sink, separator, &mut lender, is_first)? {
        is_first = false;
    }
    Ok(())
}

/// Writes the next item, and says whether there was one.
fn write_next<K: Sink, I: FallibleStreamingIterator<Error = Error>>(
    sink: &mut K,
    separator: u8,
    lender: &mut I,
    is_first: bool,
) -> Result<bool>
    requires { I.can_advance lender.old }
    ensures again { I.can_advance lender.new }
    ensures item { IfOk result
        (λ more. IsTrue more
        → Wrote I.step I.shown I.items I.to_come separator is_first lender.old lender.new
        (K.held sink.old) (K.held sink.new)) }
    ensures end { IfOk result
        (λ more. IsFalse more → ShowsEnd I.step I.shown lender.old × TellsNone I.items lender.old
        × Keeps (K.held sink.old) (K.held sink.new)) }
    ensures err { IfErr result
        (StopsAtItem I.step I.shown separator is_first lender.old (K.held sink.old)
        (K.held sink.new) (K.faults sink.old) (K.faults sink.new)) }
    ensures never_falls { K.faults sink.old ≤ K.faults sink.new }
    ensures same { K.identity sink.new ≡ K.identity sink.old }
{
    lender.advance()?;
    match lender.get() {
        None => Ok(false),
        Some(item) => {
            write_piece(sink, separator, item, is_first)?;
            Ok(true)
        }
    }
}

/// Writes an item, after the separator but for the first.
fn write_piece<K: Sink>(sink: &mut K, separator: u8, item: &[u8], is_first: bool) -> Result<()>
    ensures ok { OnOk result
        (Appends (K.held sink.old) (K.held sink.new) (piece separator is_first item.now)) }
    ensures only { IfErr result (λ e. e ≡ Error.WriteFault) }
    ensures prefix { OnErr result
        (AppendsPrefix (K.held sink.old) (K.held sink.new) (piece separator is_first item.now)) }
    ensures never_falls { K.faults sink.old ≤ K.faults sink.new }
    ensures cause { OnErr result (RoseOrFull (K.faults sink.old) (K.faults sink.new)) }
    ensures same { K.identity sink.new ≡ K.identity sink.old }
{
    if is_first {
        return write_all(sink, item);
    }
    write_all(sink, &[separator])?;
    write_all(sink, item)
}
