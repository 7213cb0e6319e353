//! What a save puts, and by which names.
use crate::story::{first_unlike, run_in, story};
use std::test::Fail;
use t3_cli::Status;
use t3_io::SureDepot;
use t3_testing::Row;

/// A name has 1 to 64 letters, digits, dots, underscores and hyphens, and begins with no dot and no hyphen.
const NAMES: [Row; 13] = [
    (
        "pushstr @empty / builtin_a 1 15",
        "[unhandled object=3 fault=17]\n",
    ),
    ("pushstr @one / builtin_a 1 15 / retnil", ""),
    ("pushstr @most / builtin_a 1 15 / retnil", ""),
    (
        "pushstr @long / builtin_a 1 15",
        "[unhandled object=3 fault=17]\n",
    ),
    (
        "pushstr @slash / builtin_a 1 15",
        "[unhandled object=3 fault=17]\n",
    ),
    (
        "pushstr @dot / builtin_a 1 15",
        "[unhandled object=3 fault=17]\n",
    ),
    // A text that isn't there.
    (
        "pushstr 99999 / builtin_a 1 15",
        "[unhandled object=3 fault=21]\n",
    ),
    // No text.
    ("push_1 / builtin_a 1 15", "[unhandled object=3 fault=3]\n"),
    ("pushnil / builtin_a 1 15", "[unhandled object=3 fault=3]\n"),
    (
        "pushobj 1 / builtin_a 1 15",
        "[unhandled object=3 fault=3]\n",
    ),
    ("builtin_a 0 15", "[unhandled object=3 fault=2]\n"),
    (
        "pushstr @one / pushstr @one / builtin_a 2 15",
        "[unhandled object=3 fault=2]\n",
    ),
    // A string that the story makes names a file as a constant does, and the answer is nil.
    (
        "pushint8 115 / builtin_a 1 20 / getr0 / builtin_a 1 15 / getr0 / call 1 @show / retnil",
        "nil\n",
    ),
];

#[test]
fn takes_names_of_files(rt: HostRuntime) -> Result<(), Fail> {
    assert_eq!(rt; first_unlike(rt.alloc(), &NAMES)?, None);
    Ok(())
}

/// The state is put under its name alone, and nothing where the name is refused.
#[test]
fn puts_one_file(rt: HostRuntime) -> Result<(), Fail> {
    let alloc = rt.alloc();
    let mut depot = SureDepot::new(alloc);
    depot.keep(
        b"a.t3",
        &story(alloc, "pushstr @name / builtin_a 1 15 / retnil")?,
    )?;
    let (status, shown) = run_in(alloc, &mut depot, b"")?;
    assert_eq!(rt; shown.as_slice(), b"".as_slice());
    assert_eq!(rt; status, Status::Done);
    let state = depot.file(b"s.sav").unwrap_or(b"");
    assert!(rt; state.starts_with(b"t3state\n\x01\x00"));
    assert!(rt; depot.file(b"o.sav").is_none());
    Ok(())
}

/// A story may save over its own image: it goes on, and can't be run again.
#[test]
fn saves_over_its_image(rt: HostRuntime) -> Result<(), Fail> {
    let alloc = rt.alloc();
    let mut depot = SureDepot::new(alloc);
    let body =
        "pushint8 5 / objsetprop 1 3 / pushstr @image / builtin_a 1 15 / pushint8 6 / objsetprop 1 3 / \
                pushstr @image / builtin_a 1 16 / objgetprop 1 3 / getr0 / call 1 @show / retnil";
    depot.keep(b"a.t3", &story(alloc, body)?)?;
    let (first, shown) = run_in(alloc, &mut depot, b"")?;
    assert_eq!(rt; shown.as_slice(), b"5\n".as_slice());
    assert_eq!(rt; first, Status::Done);
    let (second, refused) = run_in(alloc, &mut depot, b"")?;
    assert_eq!(rt; refused.as_slice(), b"refused Signature at 0\n".as_slice());
    assert_eq!(rt; second, Status::ImageRefused);
    Ok(())
}
