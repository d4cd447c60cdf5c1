//! The texts of columns, and of rows.
use arrow_array::Array;
use arrow_core::{Result, Text};
use json_text::{check, push_slots};
use std::alloc::Global;

/// Appends a text.
pub fn push(out: &mut Vec<u8>, text: &str) -> Result<()> {
    out.extend_from_slice(text.as_bytes())?;
    Ok(())
}

/// Appends the slots of a column.
pub fn append_slots(out: &mut Vec<u8>, array: &Array) -> Result<()> {
    if array.len() == 0 {
        return push(out, "no slot");
    }
    check(array)?;
    push_slots(out, array)?;
    Ok(())
}

/// Appends the slots of a column, if there is one.
pub fn append_array(out: &mut Vec<u8>, read: Result<Array>) -> Result<()> {
    match read {
        Ok(array) => {
            let done = append_slots(out, &array);
            drop(array);
            done
        }
        Err(error) => Err(error),
    }
}

/// Appends the slots of each column.
pub fn append_arrays(out: &mut Vec<u8>, arrays: &[Array]) -> Result<()> {
    let mut is_first = true;
    for array in arrays {
        push(out, if is_first { "" } else { "; " })?;
        append_slots(out, array)?;
        is_first = false;
    }
    Ok(())
}

/// Rows between which stands ` | `, each but the last with its line feed.
pub fn rows_of(alloc: Global, text: &str) -> Result<String> {
    let mut rows = String::new(alloc);
    let mut is_first = true;
    for row in text.split(" | ") {
        rows.push_str(if is_first { "" } else { "\n" })?;
        rows.push_str(row)?;
        is_first = false;
    }
    Ok(rows)
}

/// The same, each as a text of its own.
pub fn row_texts(alloc: Global, text: &str) -> Result<Vec<Text>> {
    let rows = rows_of(alloc, text)?;
    let mut texts = Vec::new(alloc);
    for row in rows.as_str().split_inclusive('\n') {
        texts.push(Text::try_from_str(alloc, row)?)?;
    }
    Ok(texts)
}
