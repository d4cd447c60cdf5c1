//! The texts of the values that primitive columns keep.
ghost use Rattle.std.specs.Prelude.{◌≡◌, ◌++◌, OnOk, if◌then◌else◌};
ghost use Rattle.std.specs.Io.{StartsWith};
ghost use Rattle.arrow_core.specs.declared.types.DataType.{DataType as TheDataType};
ghost use Rattle.arrow_array.specs.Parts.{IsPlain};
ghost use Rattle.json_text.specs.Columns.{IsForm};
ghost use Rattle.json_text.specs.JsonText.{text, null};

use crate::bytes::{Appended, push_null, push_signed_if, push_unsigned_if, push_wide_if};
use crate::integers::{IntegerForm, push_integer_if};
use arrow_core::{MonthsDaysNs, NativeType};

/// A value of a primitive column, with its text.
pub(crate) trait Printed: NativeType {
    /// Appends the text of a valid value, by the form of its column's integers, and `null` for
    /// another.
    fn push_if(self, out: &mut Vec<u8>, form: &IntegerForm, is_valid: bool) -> Appended
        ensures ok { OnOk result ((t : TheDataType) → IsPlain Self.PRIMITIVE t → IsForm form.now t
            → out.new.items
            ≡ out.old.items ++ (if is_valid then text t (Self.native_slot self) else null)) }
        ensures kept { StartsWith out.new.items out.old.items };
}

impl Printed for i8 {
    fn push_if(self, out: &mut Vec<u8>, _form: &IntegerForm, is_valid: bool) -> Appended {
        push_signed_if(out, is_valid, self as i64)
    }
}

impl Printed for i16 {
    fn push_if(self, out: &mut Vec<u8>, _form: &IntegerForm, is_valid: bool) -> Appended {
        push_signed_if(out, is_valid, self as i64)
    }
}

impl Printed for i32 {
    fn push_if(self, out: &mut Vec<u8>, form: &IntegerForm, is_valid: bool) -> Appended {
        push_integer_if(out, form, is_valid, self as i64)
    }
}

impl Printed for i64 {
    fn push_if(self, out: &mut Vec<u8>, form: &IntegerForm, is_valid: bool) -> Appended {
        push_integer_if(out, form, is_valid, self)
    }
}

impl Printed for i128 {
    fn push_if(self, out: &mut Vec<u8>, _form: &IntegerForm, is_valid: bool) -> Appended {
        push_wide_if(out, is_valid, self)
    }
}

impl Printed for u8 {
    fn push_if(self, out: &mut Vec<u8>, _form: &IntegerForm, is_valid: bool) -> Appended {
        push_unsigned_if(out, is_valid, self as u64)
    }
}

impl Printed for u16 {
    fn push_if(self, out: &mut Vec<u8>, _form: &IntegerForm, is_valid: bool) -> Appended {
        push_unsigned_if(out, is_valid, self as u64)
    }
}

impl Printed for u32 {
    fn push_if(self, out: &mut Vec<u8>, _form: &IntegerForm, is_valid: bool) -> Appended {
        push_unsigned_if(out, is_valid, self as u64)
    }
}

impl Printed for u64 {
    fn push_if(self, out: &mut Vec<u8>, _form: &IntegerForm, is_valid: bool) -> Appended {
        push_unsigned_if(out, is_valid, self)
    }
}

impl Printed for MonthsDaysNs {
    fn push_if(self, out: &mut Vec<u8>, _form: &IntegerForm, _is_valid: bool) -> Appended {
        push_null(out)
    }
}
