//! Arrays as lines of JSON.
ghost use Rattle.std.specs.Prelude.{◌≡◌, ℕ, ◌<◌, ◌⊎◌, ◌++◌, [], List, Option, Some, None, Result, Ok, false, IsTrue, IfOk, IfErr};
ghost use Rattle.std.specs.Bool.{MatchBool};
ghost use Rattle.std.specs.Iterator.{size};
ghost use Rattle.std.specs.Borrow.{sem};
ghost use Rattle.std.specs.Io.BufRead.{Rests};
ghost use Rattle.arrow_core.specs.Errors.{OnlyOutOfMemory};
ghost use Rattle.arrow_core.specs.declared.error.Error.TheVariants.{OutOfMemory};
ghost use Rattle.arrow_array.specs.Arrays.{array_slots};
ghost use Rattle.lending.specs.Filling.{Ends};
ghost use Rattle.lending.specs.Lending.{Advanced, AdvancedNext, IsShown, IsNext};
ghost use Rattle.json_write.specs.Arrays.{array_refusal, FindsNone, Stops, StopsAt};
ghost use Rattle.ndjson.specs.Serializer.{array_lines, AddsGiven, FindsLines};

use arrow_base::{Error, Result};
use arrow_columns::Array;
use json_text::{check, columns_within, integer_form, push, push_value};
use lending::FallibleStreamingIterator;

/// Shows, for each array that isn't empty, each slot's JSON text with a line feed after it.
#[derive(Drop)]
pub struct Serializer<I>
where
    I: Iterator<Item = Result<Array>>,
{
    arrays: I,
    buffer: Vec<u8>,
    is_valid: bool,
    has_ended: bool,
}

// Appends the text of each of the array's slots, and a line feed after each.
//
// `OutOfMemory` alone.
fn push_lines(out: &mut Vec<u8>, array: &Array) -> Result<()>
    ensures ok { IfOk result (λ _. out.new.items ≡ out.old.items ++ array_lines array.now) }
    ensures memory { OnlyOutOfMemory result }
{
    let columns = columns_within(*out.allocator(), array.data_type())?;
    let form = integer_form(array.data_type());
    for i in 0..array.len() {
        push_value(out, array, i, &form, columns.as_slice())?;
        push(out, b"\n")?;
    }
    Ok(())
}

// Appends the array's lines, if it has a text, and answers whether it has slots.
fn push_array(out: &mut Vec<u8>, array: &Array) -> Result<bool>
    ensures accepted { IfOk result (λ _. array_refusal array.now ≡ None) }
    ensures filled { IfOk result
        (λ filled. MatchBool filled
        ((array_slots array.now ≡ [] → ⊥)
        × (out.new.items ≡ out.old.items ++ array_lines array.now))
        ((array_slots array.now ≡ []) × (out.new.items ≡ out.old.items))) }
    ensures err { IfErr result
        (λ e. (array_refusal array.now ≡ Some e) ⊎ (e ≡ OutOfMemory)) }
{
    if let Err(error) = check(array) {
        return Err(error);
    }
    if array.len() == 0 {
        return Ok(false);
    }
    match push_lines(out, array) {
        Ok(()) => Ok(true),
        Err(error) => Err(error),
    }
}

// The same for what was given; the error is its own, if it is one.
fn push_given(out: &mut Vec<u8>, given: Result<Array>) -> Result<bool>
    ensures ok { IfOk result (λ filled. AddsGiven given filled out.old.items out.new.items) }
    ensures err { IfErr result (λ e. StopsAt given e) }
{
    match given {
        Ok(array) => push_array(out, &array),
        Err(error) => Err(error),
    }
}

// Goes on to the next array that has slots, and adds their lines; answers whether there is one.
fn find<I: Iterator<Item = Result<Array>>>(arrays: &mut I, out: &mut Vec<u8>) -> Result<bool>
    requires ends { Ends I.can_next I.remaining arrays.old }
    requires empty { out.old.items ≡ [] }
    ensures found { IfOk result (λ filled. MatchBool filled
        (FindsLines I.next_gives arrays.old out.new.items arrays.new)
        (FindsNone I.next_gives arrays.old arrays.new)) }
    ensures ends { IfOk result (λ filled. IsTrue filled → Ends I.can_next I.remaining arrays.new) }
    ensures falls { IfOk result (λ filled. IsTrue filled
        → size (I.remaining arrays.new) < size (I.remaining arrays.old)) }
    ensures some { IfErr result (λ _. 0 < size (I.remaining arrays.old)) }
    ensures err { IfErr result (λ e. Stops I.next_gives arrays.old e arrays.new) }
{
    while let Some(given) = arrays.next() {
        match push_given(out, given) {
            Ok(true) => return Ok(true),
            Ok(false) => {}
            Err(error) => return Err(error),
        }
    }
    Ok(false)
}

impl<I> Serializer<I>
where
    I: Iterator<Item = Result<Array>>,
{
    ghost use Rattle.ndjson.specs.Serializer.{arrays_of, has_ended, shown_of};

    /// Shows the lines of these arrays, in order, from the buffer, which is emptied before each.
    /// The iterator has to end. Nothing is shown before the first `advance`. Takes no memory.
    pub fn new(arrays: I, buffer: Vec<u8>) -> Self
        requires ends { Ends I.can_next I.remaining arrays }
        ensures arrays { arrays_of result ≡ arrays }
        ensures not_ended { has_ended result ≡ false }
        ensures nothing_shown { shown_of result ≡ None }
    {
        Serializer {
            arrays,
            buffer,
            is_valid: false,
            has_ended: false,
        }
    }
}

impl<I> FallibleStreamingIterator for Serializer<I>
where
    I: Iterator<Item = Result<Array>>,
{
    ghost use Rattle.ndjson.specs.Serializer.{arrays_of, shown_of, to_come_of, MayAdvance, Advances, TellsItems};

    type Error = Error;

    ghost can_advance = { λ s. MayAdvance I.can_next I.remaining s };

    ghost step = { λ before answer after. Advances I.next_gives before answer after };

    ghost shown = { λ s. shown_of s };

    ghost to_come = { λ s. to_come_of I.remaining s };

    ghost items = { λ s told. TellsItems I.next_gives s told };

    ghost hints = { λ _ hint. hint ≡ (0, None) };

    /// Goes on to the next array that isn't empty.
    ///
    /// Of each array in order, an empty one too: `NotYetImplemented(NoJsonText)` where its type has
    /// no JSON text, `InvalidArgumentError(ZoneOffset)` where the zone of a timestamp, at any
    /// depth, is no offset, `InvalidArgumentError(DateRange)` where it shows a date or a timestamp
    /// whose year isn't one of 0 to 9999; `OutOfMemory`; or the iterator's own error. After an
    /// error nothing comes any more.
    fn advance(&mut self) -> Result<()> {
        self.is_valid = false;
        if self.has_ended {
            return Ok(());
        }
        self.has_ended = true;
        self.buffer.clear();
        match find(&mut self.arrays, &mut self.buffer) {
            Ok(true) => {
                self.has_ended = false;
                self.is_valid = true;
                Ok(())
            }
            Ok(false) => Ok(()),
            Err(error) => Err(error),
        }
    }

    fn get(&self) -> Option<&[u8]> {
        if self.is_valid {
            Some(self.buffer.as_slice())
        } else {
            None
        }
    }

    fn next(&mut self) -> Result<Option<&[u8]>> {
        FallibleStreamingIterator::advance(self)?;
        Ok(FallibleStreamingIterator::get(self))
    }

    fn size_hint(&self) -> (usize, Option<usize>) {
        (0, None)
    }
}
