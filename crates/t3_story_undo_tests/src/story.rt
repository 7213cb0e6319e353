//! A story with objects, and what its run shows.
use std::alloc::Global;
use std::test::Fail;
use t3_testing::{Row, lines, played, written};

/// What stands before a method's body: a page of code; five metaclasses, of which the first is that of tads-objects, and
/// vectors and tables have methods by the properties from 200 and from 100 on; the general functions as set 0, those for
/// input and output as set 1 and the machine's own as set 2; and objects 1 to 3, of which object 1 has property 3 as 10,
/// and the others are classes with a constructor.
const BEFORE: &str =
    "image / block \"ENTP\" 1 / entry @main 10 10 0 0 0 0 - / block \"CPDF\" 1 / pool 1 1 4096 / \
                      block \"MCLD\" 1 / metaclass \"tads-object/030005\" 2 - / metaclass \"string/030008\" 2 - / \
                      metaclass \"list/030008\" 2 - / metaclass \"vector/030005\" 2 - / prop 200 / prop 201 / \
                      prop 202 / prop 203 / prop 204 / prop 205 / prop 206 / prop 207 / prop 208 / prop 209 / \
                      prop 210 / prop 211 / prop 212 / prop 213 / prop 214 / prop 215 / prop 216 / prop 217 / \
                      prop 218 / prop 219 / prop 220 / metaclass \"lookuptable/030003\" 2 - / prop 100 / prop 101 / \
                      prop 102 / prop 103 / prop 104 / prop 105 / prop 106 / prop 107 / prop 108 / prop 109 / \
                      prop 110 / block \"FNSD\" 1 / function-set \"tads-gen/030008\" / \
                      function-set \"tads-io/030007\" / function-set \"t3vm/010006\" / block \"OBJS\" 1 / \
                      objects 0 0 / object 1 / u2 0 / u2 1 / u2 0 / u2 3 / hold 7 10 / object 2 / u2 0 / u2 1 / \
                      u2 1 / u2 7 / hold 11 @undoes / object 3 / u2 0 / u2 1 / u2 1 / u2 7 / hold 11 @saves / \
                      block \"SYMD\" 1 / symbol 6 7 \"Constructor\" / block \"CPPG\" 1 / page 1 0 0 / main: / \
                      method 0 2 8 0";

/// The methods behind the body: `show` says its argument, also where it is nil, and `save` and `back` make a savepoint and
/// undo it, and answer what those answered. The constructor `undoes` makes an undo, and looks at self where it has an
/// argument; `saves` makes a savepoint of self whose property 4 is 4, and undoes to it.
const METHODS: &str =
    "show: / method 1 0 4 0 / getarg1 0 / builtin_a 1 6 / getr0 / builtin_b 1 0 / retnil / \
                       save: / method 0 0 4 0 / builtin_a 0 13 / ret / back: / method 0 0 4 0 / builtin_a 0 14 / ret / \
                       undoes: / method 128 0 4 0 / builtin_a 0 14 / getargc / jf @undone / getpropself 3 / undone: / retnil / \
                       saves: / method 0 0 4 0 / pushint8 4 / setpropself 4 / builtin_a 0 13 / pushint8 5 / setpropself 4 / \
                       builtin_a 0 14 / retnil";

/// What the story of this body shows that is run with these options.
pub(crate) fn shown(alloc: Global, options: &[&str], body: &str) -> Result<Vec<u8>, Fail> {
    let source = format!(in alloc; "{BEFORE} / {body} / {METHODS} / end 0")?;
    let (_, image) = written(alloc, "asm", &lines(alloc, &source)?)?;
    let (_, shown) = played(alloc, &image, options, b"")?;
    Ok(shown)
}

/// The number of the first row whose body doesn't show what it says.
pub(crate) fn first_unlike(
    alloc: Global,
    options: &[&str],
    rows: &[Row],
) -> Result<Option<usize>, Fail> {
    for (index, (body, want)) in rows.iter().enumerate() {
        let shown = shown(alloc, options, body)?;
        if shown.as_slice() != want.as_bytes() {
            return Ok(Some(index));
        }
    }
    Ok(None)
}
