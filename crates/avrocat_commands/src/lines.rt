//! The lines that show columns: a name, a colon, and the slots between brackets.
ghost use Rattle.std.specs.Prelude.{◌≡◌, ◌+◌, ◌<◌, ◌≤◌, ◌++◌, ◌∷◌, [], length, map, take, codes, OnOk, if◌then◌else◌, ◌==◌};
ghost use Rattle.std.specs.Char.{digit_char};
ghost use Rattle.std.specs.Fmt.{signed_decimal};
ghost use Rattle.arrow_core.specs.Errors.{OnlyOutOfMemory};
ghost use Rattle.arrow_core.specs.declared.slot.Slot.TheVariants.{List as ListSlot, Binary as BinarySlot};
ghost use Rattle.arrow_base.specs.Outside.{last_count};
ghost use Rattle.arrow_base.specs.WrittenString.{json_string};
ghost use Rattle.arrow_array.specs.Arrays.{array_slots};
ghost use Rattle.arrow_array.specs.Lent.{IsPart, part_slots};
ghost use Rattle.arrow_array.specs.Slots.{slot_at};
ghost use Rattle.arrow_array.specs.Structs.{HaveSlots, record_at};
ghost use Rattle.arrow_columns.specs.Cells.{cell_slot, interval_slot, CellFits};
ghost use Rattle.avrocat_commands.specs.Shown.{hexadecimal, line_of, shown, slot_text, joined};

use arrow_base::utf8::write_str;
use arrow_base::{Error, Failed, Result, Sink, Text};
use arrow_columns::{Array, Cell, Part, cell_at};
use arrow_core::MonthsDaysNs;
use itoa::{Buffer, Integer};
use std::alloc::Global;

/// A hexadecimal digit.
fn hexadecimal_digit(digit: u8) -> u8
    requires { digit < 16 }
    ensures { result ≡ digit_char digit }
{
    if digit < 10 {
        b'0' + digit
    } else {
        b'a' - 10 + digit
    }
}

/// A byte as two hexadecimal digits.
fn hexadecimal(byte: u8) -> [u8; 2]
    ensures { result ≡ hexadecimal byte }
{
    [hexadecimal_digit(byte / 16), hexadecimal_digit(byte % 16)]
}

/// Text that grows in memory. As a sink it fails only where there is no memory.
#[derive(Drop)]
pub struct Lines {
    text: Vec<u8>,
    faults: u64,
    ghost faults_in: { faults ≤ last_count },
}

impl Sink for Lines {
    ghost use Rattle.std.specs.Prelude.{Some};

    ghost held = { λ l. Some l.text.items };

    ghost faults = { λ l. l.faults };

    fn write(&mut self, bytes: &[u8]) -> std::result::Result<usize, Failed> {
        match self.text.extend_from_slice(bytes) {
            Ok(()) => Ok(bytes.len()),
            Err(_) => {
                self.faults = self.faults.saturating_add(1);
                Err(Failed)
            }
        }
    }

    ghost bounded = { λ l. l.faults_in };
}

impl Lines {
    /// No line yet.
    pub fn new(alloc: Global) -> Lines
        ensures { result.text.items ≡ [] }
    {
        Lines {
            text: Vec::new(alloc),
            faults: 0,
        }
    }

    /// The text so far.
    pub fn as_slice(&self) -> &[u8]
        ensures { result.now ≡ self.now.text.items }
    {
        self.text.as_slice()
    }

    /// Adds the line of one column.
    pub fn push_column(&mut self, name: &str, column: &Array) -> Result<()>
        ensures ok { OnOk result (self.new.text.items ≡ self.old.text.items
            ++ line_of name.now (array_slots column.now)) }
        ensures memory { OnlyOutOfMemory result }
    {
        self.push(name.as_bytes())?;
        self.push(b":[")?;
        self.push_slots(column)?;
        self.push(b"]\n")
    }

    /// Adds the line of each column, under the names in turn.
    pub fn push_columns(&mut self, names: &[Text], columns: &[Array]) -> Result<()>
        requires { length names.now ≡ length columns.now }
        ensures ok { OnOk result (self.new.text.items ≡ self.old.text.items
            ++ shown names.now (map array_slots columns.now)) }
        ensures memory { OnlyOutOfMemory result }
    {
        for i in 0..names.len() {
            self.push_column(names[i].as_str(), &columns[i])?;
        }
        Ok(())
    }

    /// Adds the slots of a column, with commas between them.
    fn push_slots(&mut self, column: &Array) -> Result<()>
        ensures ok { OnOk result (self.new.text.items ≡ self.old.text.items
            ++ joined (map slot_text (array_slots column.now))) }
        ensures memory { OnlyOutOfMemory result }
    {
        for i in 0..column.len() {
            self.push_comma(i)?;
            self.push_slot(column, i)?;
        }
        Ok(())
    }

    /// Adds the text of slot `i`.
    #[cycle(slots)]
    fn push_slot(&mut self, column: &Array, i: usize) -> Result<()>
        requires { i < length (array_slots column.now) }
        ensures ok { OnOk result (self.new.text.items ≡ self.old.text.items
            ++ slot_text (slot_at (array_slots column.now) i)) }
        ensures memory { OnlyOutOfMemory result }
    {
        let cell = cell_at(column, i);
        self.push_cell(&cell)
    }

    /// Adds the text of what a slot holds.
    #[cycle(slots)]
    fn push_cell(&mut self, cell: &Cell<'_>) -> Result<()>
        requires { CellFits cell.now }
        ensures ok { OnOk result (self.new.text.items ≡ self.old.text.items
            ++ slot_text (cell_slot cell.now)) }
        ensures memory { OnlyOutOfMemory result }
    {
        match cell {
            Cell::Null => self.push(b"null"),
            Cell::Boolean(boolean) => self.push_boolean(*boolean),
            Cell::Integer(number) => self.push_integer(*number),
            Cell::Interval(interval) => self.push_interval(*interval),
            Cell::String(text) => self.push_string(text),
            Cell::Binary(bytes) => self.push_binary(bytes),
            Cell::List(part) => self.push_list(part),
            Cell::Struct(children, i) => self.push_struct(children, *i),
        }
    }

    /// Adds the text of a list.
    #[cycle(slots)]
    fn push_list(&mut self, part: &Part<'_>) -> Result<()>
        requires { IsPart part.now }
        ensures ok { OnOk result (self.new.text.items ≡ self.old.text.items
            ++ slot_text (ListSlot (part_slots part.now))) }
        ensures memory { OnlyOutOfMemory result }
    {
        self.push(b"[")?;
        for k in 0..part.end - part.start {
            self.push_comma(k)?;
            self.push_slot(part.array, part.start + k)?;
        }
        self.push(b"]")
    }

    /// Adds the text of the struct of the slots at index `i`.
    #[cycle(slots)]
    fn push_struct(&mut self, children: &[Array], i: usize) -> Result<()>
        requires { HaveSlots (i + 1) children.now }
        ensures ok { OnOk result (self.new.text.items ≡ self.old.text.items
            ++ slot_text (record_at (map array_slots children.now) i)) }
        ensures memory { OnlyOutOfMemory result }
    {
        self.push(b"{")?;
        for k in 0..children.len() {
            self.push_comma(k)?;
            self.push_slot(&children[k], i)?;
        }
        self.push(b"}")
    }

    /// Adds a number in decimal.
    fn push_number<I: Integer>(&mut self, number: I) -> Result<()>
        ensures ok { OnOk result (self.new.text.items ≡ self.old.text.items ++ I.text number) }
        ensures memory { OnlyOutOfMemory result }
    {
        self.push(Buffer::new().format(number).as_bytes())
    }

    /// Adds an integer in decimal. Most fit 64 bits, which print faster.
    fn push_integer(&mut self, number: i128) -> Result<()>
        ensures ok { OnOk result (self.new.text.items ≡ self.old.text.items
            ++ signed_decimal number) }
        ensures memory { OnlyOutOfMemory result }
    {
        match i64::try_from(number) {
            Ok(short) => self.push_number(short),
            Err(_) => self.push_number(number),
        }
    }

    /// Adds an interval: its months, days and nanoseconds.
    fn push_interval(&mut self, interval: MonthsDaysNs) -> Result<()>
        ensures ok { OnOk result (self.new.text.items ≡ self.old.text.items
            ++ slot_text (interval_slot interval)) }
        ensures memory { OnlyOutOfMemory result }
    {
        self.push(b"{")?;
        self.push_number(interval.months)?;
        self.push(b",")?;
        self.push_number(interval.days)?;
        self.push(b",")?;
        self.push_number(interval.ns)?;
        self.push(b"}")
    }

    /// Adds bytes in hexadecimal.
    fn push_binary(&mut self, bytes: &[u8]) -> Result<()>
        ensures ok { OnOk result (self.new.text.items ≡ self.old.text.items
            ++ slot_text (BinarySlot bytes.now)) }
        ensures memory { OnlyOutOfMemory result }
    {
        self.push(b"0x")?;
        for i in 0..bytes.len() {
            self.push(&hexadecimal(bytes[i]))?;
        }
        Ok(())
    }

    /// Adds the comma before the slot of this index.
    fn push_comma(&mut self, index: usize) -> Result<()>
        ensures ok { OnOk result (self.new.text.items ≡ self.old.text.items
            ++ (if index == 0 then [] else codes ",")) }
        ensures memory { OnlyOutOfMemory result }
    {
        if index == 0 {
            return Ok(());
        }
        self.push(b",")
    }

    fn push_boolean(&mut self, boolean: bool) -> Result<()>
        ensures ok { OnOk result (self.new.text.items ≡ self.old.text.items
            ++ (if boolean then codes "true" else codes "false")) }
        ensures memory { OnlyOutOfMemory result }
    {
        if boolean {
            self.push(b"true")
        } else {
            self.push(b"false")
        }
    }

    /// Adds the JSON string of a string.
    fn push_string(&mut self, text: &str) -> Result<()>
        ensures ok { OnOk result (self.new.text.items ≡ self.old.text.items
            ++ json_string text.now) }
        ensures memory { OnlyOutOfMemory result }
    {
        match write_str(self, text) {
            Ok(()) => Ok(()),
            Err(_) => Err(Error::OutOfMemory),
        }
    }

    fn push(&mut self, bytes: &[u8]) -> Result<()>
        ensures ok { OnOk result (self.new.text.items ≡ self.old.text.items ++ bytes.now) }
        ensures memory { OnlyOutOfMemory result }
    {
        self.text.extend_from_slice(bytes)?;
        Ok(())
    }
}
