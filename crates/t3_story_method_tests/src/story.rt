//! A story whose metaclasses have methods, and what its run shows.
use std::alloc::Global;
use std::test::Fail;
use t3_testing::{Row, lines, played, written};

/// The pools, the function sets for input and output and for all else, and the metaclasses: by the property 20 and those
/// after it the methods of tads-objects are called by their indices, by 10 those of all objects, by 30 those of strings, by
/// 40 those of lists, by 60 those of vectors and by 90 those of tables. By 39 collections have a method.
const METACLASSES: &str =
    "image / block \"ENTP\" 1 / entry @main 10 10 0 0 0 0 - / block \"CPDF\" 1 / pool 1 1 4096 / \
                      block \"CPDF\" 1 / pool 2 1 4096 / block \"FNSD\" 1 / function-set \"tads-io/030007\" / \
                      function-set \"tads-gen/030008\" / block \"MCLD\" 1 / \
                      metaclass \"tads-object/030005\" 2 - / prop 20 / prop 21 / prop 22 / prop 23 / \
                      metaclass \"root-object/030004\" 2 - / prop 10 / prop 11 / prop 12 / prop 13 / prop 14 / prop 15 / \
                      prop 16 / prop 17 / prop 18 / \
                      metaclass \"string/030008\" 2 - / prop 30 / prop 31 / prop 32 / prop 33 / prop 34 / prop 35 / prop 36 / \
                      prop 37 / prop 38 / \
                      metaclass \"collection/030000\" 2 - / prop 39 / \
                      metaclass \"list/030008\" 2 - / prop 40 / prop 41 / prop 42 / prop 43 / prop 44 / prop 45 / prop 46 / \
                      prop 47 / prop 48 / prop 49 / prop 50 / prop 51 / prop 52 / prop 53 / prop 54 / prop 55 / prop 56 / \
                      prop 57 / prop 58 / \
                      metaclass \"vector/030005\" 2 - / prop 60 / prop 61 / prop 62 / prop 63 / prop 64 / prop 65 / prop 66 / \
                      prop 67 / prop 68 / prop 69 / prop 70 / prop 71 / prop 72 / prop 73 / prop 74 / prop 75 / prop 76 / \
                      prop 77 / prop 78 / prop 79 / prop 80 / prop 81 / prop 82 / prop 83 / prop 84 / \
                      metaclass \"lookuptable/030003\" 2 - / prop 90 / prop 91 / prop 92 / prop 93 / prop 94 / prop 95 / prop 96 / \
                      prop 97 / prop 98 / prop 99 / prop 100";

/// Objects and constants: 1 is a class whose property 2 is 12; 2 has it as superclass, and a constructor with one
/// argument, which becomes the new object's property 3; 3 is transient and has none. The next persistent object is 4.
const THINGS: &str =
    "block \"OBJS\" 1 / objects 0 0 / object 1 / u2 0 / u2 1 / u2 1 / u2 2 / hold 7 12 / \
                      object 2 / u2 1 / u2 1 / u2 0 / u4 1 / u2 4 / hold 11 @built / \
                      block \"OBJS\" 1 / objects 0 2 / object 3 / u2 0 / u2 1 / u2 0 / u2 5 / hold 7 15 / \
                      block \"SYMD\" 1 / symbol 6 4 \"Constructor\" / block \"CPPG\" 1 / page 2 0 0 / \
                      word: / text \"wörd\" / short: / text \"wö\" / last: / text \"d\" / \
                      three: / u2 3 / hold 7 11 / hold 7 12 / hold 7 11 / pair: / u2 2 / hold 8 @word / hold 7 5 / \
                      block \"CPPG\" 1 / page 1 0 0 / main: / method 0 2 8 0";

/// The methods behind the body: `show` says its argument, also where it is nil.
const METHODS: &str =
    "show: / method 1 0 4 0 / getarg1 0 / builtin_b 1 6 / getr0 / builtin_a 1 0 / retnil / \
                       built: / method 1 0 4 0 / getarg1 0 / setpropself 3 / retnil";

/// What the story of this body shows that is run with these options.
pub(crate) fn shown(alloc: Global, options: &[&str], body: &str) -> Result<Vec<u8>, Fail> {
    let source = format!(in alloc; "{METACLASSES} / {THINGS} / {body} / {METHODS} / end 0")?;
    let (_, image) = written(alloc, "asm", &lines(alloc, &source)?)?;
    let (_, shown) = played(alloc, &image, options, b"")?;
    Ok(shown)
}

/// The number of the first row whose body doesn't show what it says.
pub(crate) fn first_unlike(alloc: Global, rows: &[Row]) -> Result<Option<usize>, Fail> {
    for (index, (body, want)) in rows.iter().enumerate() {
        let shown = shown(alloc, &[], body)?;
        if shown.as_slice() != want.as_bytes() {
            return Ok(Some(index));
        }
    }
    Ok(None)
}
