//! The next batch of rows, lent in one call.
ghost use Rattle.std.specs.Borrow.{sem};
ghost use Rattle.std.specs.Io.BufRead.{Rests};
ghost use Rattle.ndjson_read.specs.contracts.file_reader.FileReader.{the_row as reader_row};
ghost use Rattle.ndjson_read.specs.Advancing.{AdvancesNext};

use crate::file_reader::FileReader;
use arrow_base::{Result, Source, Text};

impl<S: Source> FileReader<S> {
    /// Shows the next batch of rows, as `advance` does, and lends it; `None` where it shows none. The
    /// errors are those of `advance`.
    pub fn next(&mut self) -> Result<Option<&[Text]>>
        ensures* advances { sem 𝓛 (Rests (reader_row S.row) self.entry
            (λ after. AdvancesNext S.left S.faults S.identity self.old result after)) }
    {
        self.advance()?;
        Ok(self.get())
    }
}
