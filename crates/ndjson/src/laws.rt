//! Laws of the texts of slots and rows. The functions do nothing: the contract of each is a law.
ghost use Rattle.ndjson.specs.Laws.{ColumnsReadBack, LinesAreRows, LinesReadBack, RowsAreJson, RowsAreShallow, RowValuesMeanRows, SlotLinesAreRows, TextsAreJson, TextsAreShallow, TextsReadBack, ValuesMeanSlots};

/// The text of a slot, of a type that has JSON text, is a JSON text, which stands for the slot's
/// value: a null, a boolean, a number, a string, an array or an object (`value`). As a text stands
/// for one value (`one_value` of `json_tree`), `parse` of that text finds this value or none; and
/// where lists and structs stand in each other at most 128 deep, it finds it unless memory runs out
/// (`within_the_limit` there).
pub fn slot_texts()
    ensures json { TextsAreJson }
    ensures shallow { TextsAreShallow }
{}

/// A slot's value, read under the slot's type, is that slot; and so is whatever value the slot's
/// text stands for. So a column that is read from the values of slots has just these slots. The
/// type has a JSON text and a reading, holds no date or timestamp, which are written as strings and
/// read as numbers, and names no field of a struct twice.
pub fn slots_read_back()
    ensures values { ValuesMeanSlots }
    ensures texts { TextsReadBack }
    ensures columns { ColumnsReadBack }
{}

/// The object of a row is a JSON text, and so is its line, with the line feed or without it: it
/// stands for the object of the values of the row's slots, each under its name. Where the row's
/// lists and structs stand in each other at most 127 deep, `parse` finds it unless memory runs out.
pub fn row_texts()
    ensures json { RowsAreJson }
    ensures shallow { RowsAreShallow }
{}

/// The members of a row's value, each read under the type of its name, are the row's slots; and so
/// are those of whatever value the row's line stands for. Each type has a JSON text and a reading,
/// holds no date or timestamp and names no field of a struct twice; no two names are the same.
pub fn rows_read_back()
    ensures values { RowValuesMeanRows }
    ensures lines { LinesReadBack }
{}

/// The lines that are written of a table of rows, and of slots, are the rows that a reader of JSON
/// lines sees: no text holds a line feed, and none is blank.
pub fn lines_are_rows()
    ensures rows { LinesAreRows }
    ensures slots { SlotLinesAreRows }
{}
