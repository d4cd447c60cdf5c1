//! Integers by the type that they are of: dates, timestamps, and integers.
ghost use Rattle.std.specs.Prelude.{◌≡◌, ◌++◌, OnOk, if◌then◌else◌};
ghost use Rattle.std.specs.Io.{StartsWith};
ghost use Rattle.json_dates.specs.Times.{date_json, timestamp_json};
ghost use Rattle.json_text.specs.Columns.{IsForm, integer_in_range, integer_text};
ghost use Rattle.json_text.specs.JsonText.{null, zone_offset};

use crate::bytes::{Appended, push_null, push_signed};
use arrow_core::{DataType, Text, TimeUnit};
use json_dates::{
    day_of_milliseconds, is_printed_day, is_printed_timestamp, parse_offset, push_date,
    push_timestamp,
};
use std::alloc::AllocError;

/// How the integers of a column are written, made once from its type.
#[derive(Clone, Copy)]
pub enum IntegerForm {
    /// In decimal.
    Decimal,
    /// As dates, of days since 1970-01-01.
    Days,
    /// As dates, of milliseconds since 1970-01-01 00:00:00.
    Milliseconds,
    /// As timestamps that count a unit, on the clock of an offset in minutes east of UTC.
    Timestamp(TimeUnit, Option<i16>),
}

/// The minutes that the offset of a zone, if there is one, is east of UTC.
#[inline]
fn minutes_of(zone: &Option<Text>) -> Option<i16>
    ensures { result ≡ zone_offset zone.now }
{
    match zone {
        Some(zone) => parse_offset(zone.as_str()),
        None => None,
    }
}

/// How integers of the type are written, or where it is a type of lists or a dictionary, those of
/// its items or values.
pub fn integer_form(data_type: &DataType) -> IntegerForm
    ensures { IsForm result data_type.now }
{
    match data_type {
        DataType::Date32 => IntegerForm::Days,
        DataType::Date64 => IntegerForm::Milliseconds,
        DataType::Timestamp(unit, zone) => IntegerForm::Timestamp(*unit, minutes_of(zone)),
        DataType::List(field) => integer_form(&field.get().data_type),
        DataType::LargeList(field) => integer_form(&field.get().data_type),
        DataType::FixedSizeList(field, _) => integer_form(&field.get().data_type),
        DataType::Dictionary(_, values, _) => integer_form(values.get()),
        _ => IntegerForm::Decimal,
    }
}

/// Appends the text of a day.
fn push_day(out: &mut Vec<u8>, day: i64) -> Appended
    ensures ok { OnOk result (out.new.items ≡ out.old.items ++ date_json day) }
    ensures kept { StartsWith out.new.items out.old.items }
{
    match push_date(out, day) {
        Ok(()) => Ok(()),
        Err(_) => Err(AllocError),
    }
}

/// Appends the text of a timestamp on the clock of an offset.
fn push_moment(out: &mut Vec<u8>, unit: TimeUnit, offset: Option<i16>, value: i64) -> Appended
    ensures ok { OnOk result (out.new.items ≡ out.old.items ++ timestamp_json unit offset value) }
    ensures kept { StartsWith out.new.items out.old.items }
{
    match push_timestamp(out, unit, offset, value) {
        Ok(()) => Ok(()),
        Err(_) => Err(AllocError),
    }
}

/// Appends the text of an integer by its form.
#[inline(never)]
fn push_formed(out: &mut Vec<u8>, form: &IntegerForm, integer: i64) -> Appended
    ensures ok { OnOk result (out.new.items ≡ out.old.items ++ integer_text form.now integer) }
    ensures kept { StartsWith out.new.items out.old.items }
{
    match form {
        IntegerForm::Decimal => push_signed(out, integer),
        IntegerForm::Days => push_day(out, integer),
        IntegerForm::Milliseconds => push_day(out, day_of_milliseconds(integer)),
        IntegerForm::Timestamp(unit, offset) => push_moment(out, *unit, *offset, integer),
    }
}

/// Appends the text of an integer by its form, or `null` where there is none.
///
/// `AllocError` where there is no memory. What stood in `out` stays: on `Ok` the text follows it, on
/// an error a part of the text.
#[inline]
pub fn push_integer_if(
    out: &mut Vec<u8>,
    form: &IntegerForm,
    is_valid: bool,
    integer: i64,
) -> Appended
    ensures ok { OnOk result
        (out.new.items
        ≡ out.old.items ++ (if is_valid then integer_text form.now integer else null)) }
    ensures kept { StartsWith out.new.items out.old.items }
{
    if !is_valid {
        return push_null(out);
    }
    match form {
        IntegerForm::Decimal => push_signed(out, integer),
        _ => push_formed(out, form, integer),
    }
}

/// Whether an integer of the form, if it is a date or a timestamp, is printed.
#[inline]
pub fn integer_in_range(form: &IntegerForm, integer: i64) -> bool
    ensures { result ≡ integer_in_range form.now integer }
{
    match form {
        IntegerForm::Decimal => true,
        IntegerForm::Days => is_printed_day(integer),
        IntegerForm::Milliseconds => is_printed_day(day_of_milliseconds(integer)),
        IntegerForm::Timestamp(unit, offset) => is_printed_timestamp(*unit, *offset, integer),
    }
}
