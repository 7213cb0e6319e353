//! A story over texts, lists, vectors and tables: constants and static objects of each kind.
use std::alloc::Global;
use std::test::Fail;
use t3_testing::{Row, lines, outcome, written};

/// What stands before the body in its source. The metaclasses are 0 tads-object, 1 string, 2 list, 3 vector and
/// 4 lookuptable; the sets are A tads-io and B tads-gen. Of the constants, `again` has the text of `ab`, `broken`
/// isn't UTF-8, the element of `wrong` means nothing, `looped` has itself as its element, and `cut` is a text that
/// ends with the page. `twin` is equal to `items`, but has a live string. The objects are 1 a tads-object, 2 the
/// string `b`, 3 a list as `items`, 4 a vector of 5 and true, and 5 the transient string `ab`. The next persistent
/// object is 6.
const BEFORE: &str =
    "image / block \"ENTP\" 1 / entry @main 10 10 0 0 0 0 - / block \"CPDF\" 1 / pool 1 1 512 / \
    block \"CPDF\" 1 / pool 2 1 256 / block \"MCLD\" 1 / metaclass \"tads-object/030005\" 2 - / \
    metaclass \"string\" 2 - / metaclass \"list\" 2 - / metaclass \"vector\" 2 - / metaclass \"lookuptable\" 2 - / \
    block \"FNSD\" 1 / function-set \"tads-io/030007\" / function-set \"tads-gen/030008\" / \
    block \"CPPG\" 1 / page 2 0 0 / ab: / text \"ab\" / again: / text \"ab\" / b: / text \"b\" / \
    empty: / text \"\" / number: / text \" -12x\" / broken: / u2 1 / bytes ff / \
    items: / u2 3 / hold 7 1 / hold 8 @b / hold 1 0 / twin: / u2 3 / hold 7 1 / hold 5 2 / hold 1 0 / \
    none: / u2 0 / wrong: / u2 1 / hold 3 0 / looped: / u2 1 / hold 10 @looped / cut: / u2 9 / bytes 61 / \
    block \"OBJS\" 1 / objects 0 0 / object 1 / u2 0 / u2 0 / u2 0 / \
    block \"OBJS\" 1 / objects 1 0 / object 2 / text \"b\" / \
    block \"OBJS\" 1 / objects 2 0 / object 3 / u2 3 / hold 7 1 / hold 8 @b / hold 1 0 / \
    block \"OBJS\" 1 / objects 3 0 / object 4 / u2 0 / u2 2 / hold 7 5 / hold 2 0 / \
    block \"OBJS\" 1 / objects 1 2 / object 5 / text \"ab\" / \
    block \"CPPG\" 1 / page 1 0 0 / main: / method 0 2 9 0";

/// What a method of two locals and this body shows beside these values.
pub(crate) fn shown_with_values(alloc: Global, body: &str) -> Result<Vec<u8>, Fail> {
    let source = format!(in alloc; "{BEFORE} / {body} / end 0")?;
    let (_, image) = written(alloc, "asm", &lines(alloc, &source)?)?;
    let (_, shown) = outcome(alloc, &["run", "a.t3"], Some(&image))?;
    Ok(shown)
}

/// The number of the first row whose body doesn't show what it says beside these values.
pub(crate) fn first_unlike_with_values(alloc: Global, rows: &[Row]) -> Result<Option<usize>, Fail> {
    for (index, (body, want)) in rows.iter().enumerate() {
        let shown = shown_with_values(alloc, body)?;
        if shown.as_slice() != want.as_bytes() {
            return Ok(Some(index));
        }
    }
    Ok(None)
}
