//! Lines, taken from a source one after another.
ghost use Rattle.std.specs.Prelude.{◌≡◌, ◌≤◌, [], IfOk, IfErr, IfSome, IfNone, length, take, IsUtf8};
ghost use Rattle.std.specs.Io.KnownBytes.{IsAtEnd};
ghost use Rattle.ndjson_read.specs.Lines.{is_row};
ghost use Rattle.ndjson_read.specs.OneLine.{state_of, one_or_none, within_line, PushesBytes, TakesLine, NoBytes, NoLine};
ghost use Rattle.ndjson_read.specs.Reading.{Takes, n_more, ShowsRows, NoRows};

use arrow_base::{Error, Reason, Result, Source, Text};
use simdutf8::basic::from_utf8;
use std::alloc::Global;
use std::mem;

// A source whose lines are read: how many bytes may still be taken of it, and how many lines were
// read so far, as far as 64 bits count them.
#[derive(Drop)]
pub(crate) struct LineSource<S> {
    pub(crate) source: S,
    pub(crate) limit: u64,
    pub(crate) lines: u64,
}

// How many lines these bytes are, which are none or one.
fn count_of(line: &[u8]) -> u64
    ensures { result ≡ length (one_or_none line.now) }
{
    if line.is_empty() { 0 } else { 1 }
}

// A failed read, with the number of the line that it came in; another error as it is.
fn within_line(error: Error, number: u64) -> Error
    ensures { result ≡ within_line error number }
{
    match error {
        Error::ReadFault { .. } => Error::ReadFault { line: Some(number) },
        other => other,
    }
}

impl<S: Source> LineSource<S> {
    // Takes bytes, and puts them at the end of `line`, no further than a line feed and than one
    // byte past the limit. Answers the last of them; none at the end of the source.
    fn push_bytes(&mut self, line: &mut Vec<u8>) -> Result<Option<u8>>
        ensures bytes { IfOk result (λ next. IfSome next
            (λ byte. PushesBytes (state_of S.left S.faults self.old)
            (state_of S.left S.faults self.new)
            line.old.items line.new.items byte)) }
        ensures end { IfOk result (λ next. IfNone next
            (Takes (state_of S.left S.faults self.old) (state_of S.left S.faults self.new) []
            × IsAtEnd (S.left self.new.source) × (line.new.items ≡ line.old.items))) }
        ensures err { IfErr result (NoBytes (state_of S.left S.faults self.old)
            (state_of S.left S.faults self.new)) }
        ensures lines { self.new.lines ≡ self.old.lines }
        ensures same { S.identity self.new.source ≡ S.identity self.old.source }
    {
        let most = (self.limit as usize).saturating_add(1);
        match self.source.read_through(b'\n', most, line) {
            Ok(0) => Ok(None),
            Ok(taken) => {
                if taken as u64 > self.limit {
                    return Err(Error::LimitExceeded);
                }
                self.limit -= taken as u64;
                Ok(line.last().copied())
            }
            Err(error) => Err(within_line(error, self.lines.saturating_add(1))),
        }
    }

    // Counts a line, where it is one: it isn't empty.
    fn count_line(&mut self, line: &[u8])
        ensures { self.new ≡ record self.old
            { lines = n_more self.old.lines (length (one_or_none line.now)) } }
    {
        self.lines = self.lines.saturating_add(count_of(line));
    }

    // Takes a line into `line`, with its line feed, and says whether there may be another: the last
    // line may lack its line feed, and be empty.
    fn read_line(&mut self, line: &mut Vec<u8>) -> Result<bool>
        ensures ok { IfOk result
            (TakesLine (state_of S.left S.faults self.old) (state_of S.left S.faults self.new)
            line.new.items) }
        ensures err { IfErr result (NoLine (state_of S.left S.faults self.old)
            (state_of S.left S.faults self.new)) }
        ensures same { S.identity self.new.source ≡ S.identity self.old.source }
    {
        line.clear();
        while let Some(byte) = self.push_bytes(line)? {
            if byte == b'\n' {
                self.count_line(line);
                return Ok(true);
            }
        }
        self.count_line(line);
        Ok(false)
    }
}

// A line as a text, in the memory that it is in.
fn text_of(line: Vec<u8>) -> Result<Text>
    ensures ok { IfOk result (λ text. (text ≡ line.items) × IsUtf8 line.items) }
    ensures err { IfErr result (λ e. (e ≡ Error.ExternalFormat Reason.Utf8Line)
        × (IsUtf8 line.items → ⊥)) }
{
    if from_utf8(&line).is_err() {
        return Err(Error::ExternalFormat(Reason::Utf8Line));
    }
    Ok(Text::from_string(unsafe { String::from_utf8_unchecked(line) }))
}

// What was taken for a line: whether it is a row, and whether there may be another line.
#[derive(Drop, Clone, Copy)]
struct Line {
    is_row: bool,
    more: bool,
}

// Takes a line into a text, whose memory is used again.
fn read_text<S: Source>(alloc: Global, source: &mut LineSource<S>, text: &mut Text) -> Result<Line>
    ensures ok { IfOk result (λ line. TakesLine
        (state_of S.left S.faults source.old) (state_of S.left S.faults source.new) text.new
        line.more) }
    ensures utf8 { IfOk result (λ line. IsUtf8 text.new) }
    ensures is_row { IfOk result (λ line. line.is_row ≡ is_row text.new) }
    ensures err { IfErr result (NoLine (state_of S.left S.faults source.old)
        (state_of S.left S.faults source.new)) }
    ensures same { S.identity source.new.source ≡ S.identity source.old.source }
{
    let empty = Text::from_string(String::new(alloc));
    let mut bytes = mem::replace(text, empty).into_string().into_bytes();
    let more = source.read_line(&mut bytes)?;
    let line = text_of(bytes)?;
    let is_row = !line.as_str().trim().is_empty();
    *text = line;
    Ok(Line { is_row, more })
}

// Takes rows, `wanted` of them, or fewer where the source ends, and answers how many. They are the
// first of the texts. Lines that aren't rows are passed over.
pub(crate) fn read_rows<S: Source>(
    alloc: Global,
    source: &mut LineSource<S>,
    rows: &mut [Text],
    wanted: usize,
) -> Result<usize>
    requires { wanted ≤ length rows.old }
    ensures count { IfOk result (λ n. n ≤ wanted) }
    ensures ok { IfOk result (λ n. ShowsRows wanted
        (state_of S.left S.faults source.old) (state_of S.left S.faults source.new)
        (take n rows.new)) }
    ensures err { IfErr result (NoRows wanted
        (state_of S.left S.faults source.old) (state_of S.left S.faults source.new)) }
    ensures same { S.identity source.new.source ≡ S.identity source.old.source }
{
    let mut n = 0;
    let mut more = true;
    while more && n < wanted {
        let line = read_text(alloc, source, &mut rows[n])?;
        more = line.more;
        if line.is_row {
            n += 1;
        }
    }
    Ok(n)
}
