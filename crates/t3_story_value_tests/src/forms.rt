//! Two operands before each of some forms of code that tell the same of them.
use crate::story::shown_with_values;
use std::alloc::Global;
use std::test::Fail;

/// A left operand, a right one, and what is shown: 1 where they are so to each other, and else 0.
pub(crate) type OperandsRow = (&'static str, &'static str, &'static str);

/// What comes after a form: what is shown where it goes on, at `no` and at `yes`.
const ANSWERS: &str =
    "no: / push_0 / builtin_a 1 0 / retnil / yes: / push_1 / builtin_a 1 0 / retnil";

/// The number of the first row with operands for which one of these forms doesn't show what it says.
pub(crate) fn first_unlike_of(
    alloc: Global,
    forms: &[&str],
    rows: &[OperandsRow],
) -> Result<Option<usize>, Fail> {
    for (index, row) in rows.iter().enumerate() {
        if is_unlike(alloc, forms, row)? {
            return Ok(Some(index));
        }
    }
    Ok(None)
}

/// Whether one of these forms doesn't show what a row says.
fn is_unlike(alloc: Global, forms: &[&str], row: &OperandsRow) -> Result<bool, Fail> {
    let (left, right, want) = *row;
    for form in forms {
        let body = format!(in alloc; "{left} / {right} / {form} / {ANSWERS}")?;
        let shown = shown_with_values(alloc, &body)?;
        if shown.as_slice() != want.as_bytes() {
            return Ok(true);
        }
    }
    Ok(false)
}
