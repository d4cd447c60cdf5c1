//! Lent pieces, written to a sink one by one.
ghost use Rattle.std.specs.Prelude.{◌≡◌, ◌≤◌, None, false, IsTrue};
ghost use Rattle.ndjson.specs.Writing.{WritesNext, WritesPiece};

use arrow_base::{Error, Result, Sink, write_all};
use lending::FallibleStreamingIterator;

/// Writes what an iterator lends, as a `Serializer`, to a sink, one piece at a time.
#[derive(Drop)]
pub struct FileWriter<K, I> {
    writer: K,
    iterator: I,
    has_ended: bool,
}

// Takes the iterator's next piece and writes it; answers whether there was one.
fn write_next<K: Sink, I: FallibleStreamingIterator<Error = Error>>(
    writer: &mut K,
    iterator: &mut I,
) -> Result<bool>
    requires { I.can_advance iterator.old }
    ensures again { I.can_advance iterator.new }
    ensures writes { WritesPiece I.step I.shown iterator.old result iterator.new
        (K.held writer.old) (K.held writer.new) (K.faults writer.old) (K.faults writer.new) }
    ensures never_falls { K.faults writer.old ≤ K.faults writer.new }
    ensures same { K.identity writer.new ≡ K.identity writer.old }
{
    iterator.advance()?;
    match iterator.get() {
        None => Ok(false),
        Some(piece) => {
            write_all(writer, piece)?;
            Ok(true)
        }
    }
}

impl<K: Sink, I: FallibleStreamingIterator<Error = Error>> FileWriter<K, I> {
    ghost use Rattle.ndjson.specs.FileWriter.{writer_of, iterator_of, has_ended};

    /// A writer of what the iterator lends. It takes no memory.
    pub fn new(writer: K, iterator: I) -> FileWriter<K, I>
        ensures writer { writer_of result ≡ writer }
        ensures iterator { iterator_of result ≡ iterator }
        ensures not_ended { has_ended result ≡ false }
    {
        FileWriter {
            writer,
            iterator,
            has_ended: false,
        }
    }

    /// Writes the iterator's next piece, and just that. None where there is no further one, and
    /// after a None or an error, when nothing is asked for or written any more. The iterator may be
    /// asked for pieces.
    ///
    /// The iterator's own error, with nothing written; `WriteFault` where a write failed, with a
    /// prefix of the piece written.
    pub fn next(&mut self) -> Option<Result<()>>
        requires { I.can_advance (iterator_of self.old) }
        ensures again { I.can_advance (iterator_of self.new) }
        ensures ended { IsTrue (has_ended self.old) → (result ≡ None) × (self.new ≡ self.old) }
        ensures writes { has_ended self.old ≡ false
            → WritesNext I.step I.shown (iterator_of self.old) result (iterator_of self.new)
            (has_ended self.new)
            (K.held (writer_of self.old)) (K.held (writer_of self.new))
            (K.faults (writer_of self.old)) (K.faults (writer_of self.new)) }
        ensures never_falls { K.faults (writer_of self.old) ≤ K.faults (writer_of self.new) }
        ensures same { K.identity (writer_of self.new) ≡ K.identity (writer_of self.old) }
    {
        if self.has_ended {
            return None;
        }
        match write_next(&mut self.writer, &mut self.iterator) {
            Ok(true) => Some(Ok(())),
            Ok(false) => {
                self.has_ended = true;
                None
            }
            Err(error) => {
                self.has_ended = true;
                Some(Err(error))
            }
        }
    }

    /// The sink and the iterator, as they stand: to go on writing, or to use the iterator's buffer
    /// again. It takes no memory.
    pub fn into_inner(self) -> (K, I)
        ensures writer { result.0 ≡ writer_of self }
        ensures iterator { result.1 ≡ iterator_of self }
    {
        let FileWriter {
            writer,
            iterator,
            ..
        } = self;
        (writer, iterator)
    }
}
