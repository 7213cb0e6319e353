//! The objects, functions and methods of the stories in which calls are made.
use std::alloc::Global;
use std::test::Fail;
use t3_testing::{lines, played, written};

/// A method's body, methods that stand at address 1024, and what its run shows. The entry method has two locals.
pub(crate) type CallRow = (&'static str, &'static str, &'static str);

/// What stands before the entry method in the source: three pages of code, one of constants, tads-objects as
/// metaclass 0, the sets A tads-io, B tads-gen and C t3vm, and symbols.
///
/// Properties: 2 is nil, 3 the object's own number, 4 a text that is said, 5 a list, 6 a method of any number of
/// arguments, 7 of no object, 8 the constructor, 9 the number of a fault, 10 a method of the row, and 11 to 13 are
/// methods that count their arguments. Objects: 4 has the superclasses 2 and 3, which both have 1, so its order is 4, 2,
/// 3, 1. Exceptions are of 5. Object 6 has none of them, and no header stands where its constructor is to be. 7 is a
/// string. The next persistent object is 8.
const BEFORE: &str =
    "image / block \"ENTP\" 1 / entry @main 10 10 0 0 0 0 - / block \"CPDF\" 1 / pool 1 3 1024 / \
    block \"CPDF\" 1 / pool 2 1 64 / block \"MCLD\" 1 / metaclass \"tads-object/030005\" 2 - / metaclass \"string\" 2 - / \
    block \"FNSD\" 1 / function-set \"tads-io/030007\" / function-set \"tads-gen/030008\" / function-set \"t3vm/010006\" / \
    block \"SYMD\" 1 / symbol 6 8 \"Constructor\" / symbol 5 5 \"RuntimeError\" / symbol 6 9 \"errno_\" / \
    block \"CPPG\" 1 / page 2 0 0 / up: / text \"up\" / open: / text \"(\" / close: / text \")\" / \
    pair: / u2 2 / hold 7 61 / hold 7 62 / block \"OBJS\" 1 / objects 0 0 / \
    object 1 / u2 0 / u2 8 / u2 1 / u2 2 / hold 1 0 / u2 3 / hold 7 13 / u2 4 / hold 9 @up / u2 5 / hold 10 @pair / \
    u2 6 / hold 11 @base / u2 11 / hold 11 @one / u2 12 / hold 11 @some / u2 13 / hold 11 @maybe / \
    object 2 / u2 1 / u2 3 / u2 1 / u4 1 / u2 3 / hold 7 23 / u2 6 / hold 11 @own / u2 10 / hold 11 @row / \
    object 3 / u2 1 / u2 2 / u2 1 / u4 1 / u2 3 / hold 7 33 / u2 8 / hold 11 @row / \
    object 4 / u2 2 / u2 1 / u2 0 / u4 2 / u4 3 / u2 3 / hold 7 43 / \
    object 5 / u2 0 / u2 0 / u2 1 / \
    object 6 / u2 0 / u2 3 / u2 0 / u2 3 / hold 7 63 / u2 8 / hold 11 5000 / u2 10 / hold 11 @row / \
    block \"OBJS\" 1 / objects 1 0 / object 7 / text \"hi\" / \
    block \"CPPG\" 1 / page 1 0 0 / main: / method 0 2 8 0";

/// Functions and methods that rows call. The two of property 6 say property 3 of self, how many arguments they got, and
/// what property 3 is behind the object that defines them, of which there is none behind object 1.
const CAST: &str =
    "own: / method 128 0 8 0 / getpropself 3 / getr0 / builtin_a 1 0 / getargc / builtin_a 1 0 / \
    inherit 0 3 / getr0 / builtin_a 1 0 / pushint8 7 / retval / \
    base: / method 128 0 8 0 / getpropself 3 / getr0 / builtin_a 1 0 / getargc / builtin_a 1 0 / \
    inherit 0 3 / getr0 / not / builtin_a 1 0 / pushint8 8 / retval / \
    one: / method 1 0 8 0 / getarg1 0 / retval / \
    some: / method 129 0 8 0 / getarg1 0 / retval / \
    maybe: / method 1 0 8 0 1 / getarg1 1 / retval / \
    says: / method 1 0 8 0 / pushstr @close / getarg1 0 / pushstr @open / builtin_a 3 0 / retnil";

/// What is shown where this body of the entry method is run beside these methods, with these options.
pub(crate) fn shown_of(
    alloc: Global,
    body: &str,
    methods: &str,
    options: &[&str],
) -> Result<Vec<u8>, Fail> {
    let source = format!(in alloc;
        "{BEFORE} / {body} / block \"CPPG\" 1 / page 1 1 0 / row: / {methods} / block \"CPPG\" 1 / page 1 2 0 / {CAST} / end 0"
    )?;
    let (_, image) = written(alloc, "asm", &lines(alloc, &source)?)?;
    let (_, shown) = played(alloc, &image, options, b"")?;
    Ok(shown)
}

/// The number of the first row whose body doesn't show what it says.
pub(crate) fn first_unlike_call(alloc: Global, rows: &[CallRow]) -> Result<Option<usize>, Fail> {
    for (index, (body, methods, want)) in rows.iter().enumerate() {
        let shown = shown_of(alloc, body, methods, &[])?;
        if shown.as_slice() != want.as_bytes() {
            return Ok(Some(index));
        }
    }
    Ok(None)
}
