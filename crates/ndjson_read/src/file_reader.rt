//! The rows of a source of lines, in batches.
ghost use Rattle.std.specs.Prelude.{◌≡◌, ◌≢◌, ◌≤◌, ◌-◌, [], Some, None, Ok, IfSome, IfOk, IfErr, OnOk, OnErr, MatchOption, MatchResult, length, take, vec_len};
ghost use Rattle.std.specs.Option.{option_map, ForSome};
ghost use Rattle.ndjson_read.specs.OneLine.{state_of as line_state};
ghost use Rattle.ndjson_read.specs.Reading.{ShowsRows, NoRows};

use crate::line_source::{LineSource, read_rows};
use arrow_base::{Error, Result, Source, Text};
use std::alloc::Global;

/// The rows of a source of JSON lines, in batches. A line runs through its line feed, or to the end
/// of the source. It is a row where `str::trim` leaves something of it; a row keeps its line feed.
/// Whether a row is a JSON text isn't looked at.
#[derive(Drop)]
pub struct FileReader<S> {
    alloc: Global,
    lines: LineSource<S>,
    rows: Vec<Text>,
    shown: usize,
    limit: Option<usize>,
    failed: Option<Error>,
    ghost within: { shown ≤ vec_len rows },
}

// How many rows may still be shown after these.
fn limit_after(limit: Option<usize>, shown: usize) -> Option<usize>
    requires { ForSome limit (λ limit. shown ≤ limit) }
    ensures { result ≡ option_map (λ limit. limit - shown) limit }
{
    limit.map(|limit| limit - shown)
}

// Reads the next rows, `wanted` of them at most, into the first of the texts, and answers how many
// there are.
fn read_batch<S: Source>(
    alloc: Global,
    lines: &mut LineSource<S>,
    rows: &mut Vec<Text>,
    wanted: usize,
) -> Result<usize>
    requires { wanted ≤ vec_len rows.old }
    ensures count { IfOk result (λ shown. shown ≤ wanted) }
    ensures ok { IfOk result (λ shown. ShowsRows wanted
        (line_state S.left S.faults lines.old) (line_state S.left S.faults lines.new)
        (take shown rows.new.items)) }
    ensures err { IfErr result (NoRows wanted
        (line_state S.left S.faults lines.old) (line_state S.left S.faults lines.new)) }
    ensures len { vec_len rows.new ≡ vec_len rows.old }
    ensures same { S.identity lines.new.source ≡ S.identity lines.old.source }
{
    let shown = read_rows(alloc, lines, rows, wanted)?;
    Ok(shown)
}

impl<S: Source> FileReader<S> {
    ghost use Rattle.ndjson_read.specs.FileReader.{source_of, batch_of, limit_of, byte_limit_of, lines_of, shown_of, failure_of, wanted_of, state_of};

    /// A reader of batches of as many rows as `rows` has texts, and of `limit` rows in all, where
    /// that is given. It takes at most `byte_limit` bytes of the source, over all calls together,
    /// and one more where it answers `LimitExceeded`. It takes no memory.
    pub fn new(
        alloc: Global,
        reader: S,
        rows: Vec<Text>,
        limit: Option<usize>,
        byte_limit: u64,
    ) -> FileReader<S>
        ensures source { source_of result ≡ reader }
        ensures batch { batch_of result ≡ vec_len rows }
        ensures limit { limit_of result ≡ limit }
        ensures byte_limit { byte_limit_of result ≡ byte_limit }
        ensures lines { lines_of result ≡ 0 }
        ensures nothing_shown { shown_of result ≡ [] }
        ensures not_failed { failure_of result ≡ None }
    {
        FileReader {
            alloc,
            lines: LineSource {
                source: reader,
                limit: byte_limit,
                lines: 0,
            },
            rows,
            shown: 0,
            limit,
            failed: None,
        }
    }

    // How many rows the next batch has at most.
    fn wanted(&self) -> usize
        ensures { result ≡ wanted_of self.now }
    {
        match self.limit {
            Some(limit) => limit.min(self.rows.len()),
            None => self.rows.len(),
        }
    }

    /// Shows the next batch of rows. Fewer rows are shown only where the source ended, or at the
    /// limit, or none where there was an error.
    ///
    /// No byte is taken past the line feed of the row that fills the batch or the limit, nor past a
    /// line that isn't UTF-8, and none where no row is wanted.
    ///
    /// `ReadFault` with the number of the line being read, counted from 1, where a read failed;
    /// `LimitExceeded` where one byte more than the byte limit was taken;
    /// `ExternalFormat(Utf8Line)` where a line isn't UTF-8; `OutOfMemory`. After an error no rows
    /// are shown, and nothing more is taken. The memory of the texts is used again from batch to
    /// batch.
    pub fn advance(&mut self) -> Result<()>
        ensures failed { IfSome (failure_of self.old)
            (λ e. (result ≡ Ok tt) × (source_of self.new ≡ source_of self.old)
            × (shown_of self.new ≡ []) × (failure_of self.new ≡ Some e)) }
        ensures ok { failure_of self.old ≡ None → OnOk result (ShowsRows (wanted_of self.old)
            (state_of S.left S.faults self.old) (state_of S.left S.faults self.new)
            (shown_of self.new)) }
        ensures err { failure_of self.old ≡ None → IfErr result (NoRows (wanted_of self.old)
            (state_of S.left S.faults self.old) (state_of S.left S.faults self.new)) }
        ensures hidden { OnErr result (shown_of self.new ≡ []) }
        ensures now { failure_of self.old ≡ None → MatchResult result
            (λ _. failure_of self.new ≡ None) (λ e. failure_of self.new ≡ Some e) }
        ensures limit { limit_of self.new
            ≡ option_map (λ limit. limit - length (shown_of self.new)) (limit_of self.old) }
        ensures batch { batch_of self.new ≡ batch_of self.old }
        ensures same { S.identity (source_of self.new) ≡ S.identity (source_of self.old) }
    {
        self.shown = 0;
        if self.failed.is_some() {
            return Ok(());
        }
        let wanted = self.wanted();
        match read_batch(self.alloc, &mut self.lines, &mut self.rows, wanted) {
            Ok(shown) => {
                self.shown = shown;
                self.limit = limit_after(self.limit, shown);
                Ok(())
            }
            Err(error) => {
                self.failed = Some(error);
                Err(error)
            }
        }
    }

    /// The rows of the last `advance`. None before the first one, where there are no such rows, and
    /// after an error. It takes no memory.
    pub fn get(&self) -> Option<&[Text]>
        ensures { MatchOption result (shown_of self.now ≡ [])
            (λ rows. (rows.now ≡ shown_of self.now) × (shown_of self.now ≢ [])) }
    {
        if self.shown == 0 {
            return None;
        }
        Some(&self.rows[..self.shown])
    }

    /// How many lines were read so far, as far as 64 bits count them: after `ReadFault` and
    /// `LimitExceeded` without the line in which they came, after `ExternalFormat(Utf8Line)` with
    /// it. It takes no memory.
    pub fn lines(&self) -> u64
        ensures { result ≡ lines_of self.now }
    {
        self.lines.lines
    }

    /// The error that an `advance` answered, if one did. It takes no memory.
    pub fn failed(&self) -> Option<Error>
        ensures { result ≡ failure_of self.now }
    {
        self.failed
    }

    /// The source as it stands, and the texts, of which nothing but their number is promised. It
    /// takes no memory.
    pub fn into_inner(self) -> (S, Vec<Text>)
        ensures source { result.0 ≡ source_of self }
        ensures texts { vec_len result.1 ≡ batch_of self }
    {
        let FileReader { lines, rows, .. } = self;
        (lines.source, rows)
    }
}
