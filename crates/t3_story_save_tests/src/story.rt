//! A story that saves, and what its runs show and put.
use std::alloc::Global;
use std::test::Fail;
use t3_cli::{Status, t3_main};
use t3_io::{SureConsole, SureDepot};
use t3_testing::{Row, lines, owned, written};

/// What stands before a method's body: a page of code and one of constants; the metaclasses of tads-objects, of vectors
/// and of tables, which have methods by the properties from 100 on; the general functions as set 0 and those for input
/// and output as set 1; names, of which some are no names of files, and a line; and objects 1 and 2, without properties
/// but for the constructor of object 2, a class.
const BEFORE: &str =
    "image / block \"ENTP\" 1 / entry @main 10 10 0 0 0 0 - / block \"CPDF\" 1 / pool 1 1 512 / \
                      block \"CPDF\" 1 / pool 2 1 512 / block \"MCLD\" 1 / metaclass \"tads-object/030005\" 2 - / \
                      metaclass \"vector/030005\" 2 - / metaclass \"lookuptable/030003\" 2 - / prop 100 / prop 101 / \
                      prop 102 / prop 103 / prop 104 / prop 105 / \
                      block \"FNSD\" 1 / function-set \"tads-gen/030008\" / function-set \"tads-io/030007\" / \
                      block \"CPPG\" 1 / page 2 0 0 / name: / text \"s.sav\" / other: / text \"o.sav\" / \
                      image: / text \"a.t3\" / empty: / text \"\" / one: / text \"s\" / \
                      most: / text \"0123456789abcdef0123456789abcdef0123456789abcdef0123456789abcdef\" / \
                      long: / text \"0123456789abcdef0123456789abcdef0123456789abcdef0123456789abcdef0\" / \
                      slash: / text \"a/b\" / dot: / text \".sav\" / line: / text \"a\\n\" / \
                      block \"OBJS\" 1 / objects 0 0 / object 1 / u2 0 / u2 0 / u2 0 / object 2 / u2 0 / u2 1 / u2 1 / \
                      u2 7 / hold 11 @construct / block \"SYMD\" 1 / symbol 6 7 \"Constructor\"";

/// What stands right before the body.
const MAIN: &str = "block \"CPPG\" 1 / page 1 0 0 / main: / method 0 2 8 0";

/// The functions behind the body: `show` says its argument, also where it is nil. The constructor restores the state of
/// its argument, and looks at self.
const FUNCTIONS: &str =
    "show: / method 1 0 4 0 / getarg1 0 / builtin_a 1 6 / getr0 / builtin_b 1 0 / retnil / \
                         construct: / method 1 0 4 0 / getarg1 0 / builtin_a 1 16 / getpropself 3 / retnil";

/// The image of the story of this body.
pub(crate) fn story(alloc: Global, body: &str) -> Result<Vec<u8>, Fail> {
    story_beside(alloc, "block \"BODY\" 0", body)
}

/// The same beside a further block.
pub(crate) fn story_beside(alloc: Global, block: &str, body: &str) -> Result<Vec<u8>, Fail> {
    let source = format!(in alloc; "{BEFORE} / {block} / {MAIN} / {body} / {FUNCTIONS} / end 0")?;
    let (_, image) = written(alloc, "asm", &lines(alloc, &source)?)?;
    Ok(image)
}

/// The status and what is shown where the story `a.t3` of a depot is run with this input.
pub(crate) fn run_in(
    alloc: Global,
    depot: &mut SureDepot,
    input: &[u8],
) -> Result<(Status, Vec<u8>), Fail> {
    let mut console = SureConsole::new(alloc, input)?;
    let status = t3_main(alloc, &owned(alloc, &["run", "a.t3"])?, depot, &mut console);
    Ok((status, Vec::from_slice(alloc, console.shown())?))
}

/// What the story of this body shows that is run with an input, and then again without one, over the same depot.
pub(crate) fn shown_twice(
    alloc: Global,
    body: &str,
    input: &[u8],
) -> Result<(Vec<u8>, Vec<u8>), Fail> {
    let mut depot = SureDepot::new(alloc);
    depot.keep(b"a.t3", &story(alloc, body)?)?;
    let (_, first) = run_in(alloc, &mut depot, input)?;
    let (_, second) = run_in(alloc, &mut depot, b"")?;
    Ok((first, second))
}

/// The number of the first row whose body doesn't show what it says.
pub(crate) fn first_unlike(alloc: Global, rows: &[Row]) -> Result<Option<usize>, Fail> {
    for (index, (body, want)) in rows.iter().enumerate() {
        let mut depot = SureDepot::new(alloc);
        depot.keep(b"a.t3", &story(alloc, body)?)?;
        let (_, shown) = run_in(alloc, &mut depot, b"")?;
        if shown.as_slice() != want.as_bytes() {
            return Ok(Some(index));
        }
    }
    Ok(None)
}
