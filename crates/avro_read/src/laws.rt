//! What the readers of two projections give of the same file.

ghost use Rattle.avro_read.specs.Laws.{NarrowerReads, NarrowerEnds, NarrowerIsDecoded, NarrowerIsMade};

/// Where a file's blocks are read under a projection, a projection that keeps no more reads the
/// same chunks with just the columns that it keeps, call after call of `Reader::next` until memory
/// runs out, from a source that tells the same bytes and doesn't fail, and under the same limit. A
/// reader is made for it, unless memory runs out.
pub fn narrower_reads()
    ensures chunks { NarrowerReads }
    ensures end { NarrowerEnds }
    ensures decoded { NarrowerIsDecoded }
    ensures made { NarrowerIsMade }
{}
