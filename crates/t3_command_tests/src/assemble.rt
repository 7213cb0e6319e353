//! Sources that are assembled, and images that are listed.
use crate::devices::{STOPS, Stop, check_outcome, halves_of, left_by};
use std::alloc::Global;
use std::process::Abort;
use std::test::Fail;
use t3_cli::Status;
use t3_testing::{lines, outcome, written};

/// A story that says 42.
const STORY: &str =
    "image / block \"ENTP\" 1 / entry @main 10 10 0 0 0 0 - / block \"CPDF\" 1 / pool 1 1 64 / \
                     block \"FNSD\" 1 / function-set \"tads-io/030007\" / block \"CPPG\" 1 / page 1 0 0 / main: / \
                     method 0 0 2 0 / pushint8 42 / builtin_a 1 0 / retnil / end 0";

/// A story with a metaclass that isn't known.
const OTHER: &str =
    "image / block \"ENTP\" 1 / entry @main 10 10 0 0 0 0 - / block \"CPDF\" 1 / pool 1 1 64 / \
                     block \"MCLD\" 1 / metaclass \"tads-object/030005\" 2 - / \
                     metaclass \"dictionary2/030001\" 2 - / block \"CPPG\" 1 / page 1 0 0 / main: / \
                     method 0 0 1 0 / retnil / end 0";

/// What `asm` shows of a source, and the image that it puts.
fn assembled(alloc: Global, source: &str) -> Result<(Vec<u8>, Vec<u8>), Fail> {
    written(alloc, "asm", &lines(alloc, source)?)
}

/// How a run of an image ends, and what it shows.
fn check_run(
    rt: &impl Abort,
    alloc: Global,
    image: &[u8],
    want: &str,
    status: Status,
) -> Result<(), Fail> {
    check_outcome(rt, alloc, &["run", "a.t3"], Some(image), want, status)
}

#[test]
fn assembles_and_runs_a_story(rt: HostRuntime) -> Result<(), Fail> {
    let (shown, image) = assembled(rt.alloc(), STORY)?;
    assert_eq!(rt; shown.as_slice(), b"ok bytes=185\n".as_slice());
    assert_eq!(rt; image.get(142..), Some(PAGE));
    check_run(&rt, rt.alloc(), &image, "42\n", Status::Done)
}

/// The page's block of that story, and the end.
const PAGE: &[u8] = b"CPPG\x17\x00\x00\x00\x01\x00\x01\x00\x00\x00\x00\x00\x00\
                      \x00\x00\x00\x00\x02\x00\x00\x00\x00\x00\x03\x2A\xB1\x01\x00\x51\
                      EOF \x00\x00\x00\x00\x00\x00";

/// A source assembles to an image again.
fn check_again(rt: &impl Abort, alloc: Global, source: &[u8], image: &[u8]) -> Result<(), Fail> {
    let (shown, again) = written(alloc, "asm", source)?;
    assert_eq!(rt; shown.as_slice(), b"ok bytes=185\n".as_slice());
    assert_eq!(rt; again.as_slice(), image);
    Ok(())
}

/// An image is listed by a source that assembles to it.
fn check_listed(rt: &impl Abort, alloc: Global, image: &[u8]) -> Result<(), Fail> {
    let (shown, listing) = written(alloc, "list", image)?;
    assert_eq!(rt; shown.as_slice(), b"ok bytes=302\n".as_slice());
    check_again(rt, alloc, &listing, image)
}

#[test]
fn lists_what_assembles_to_the_same(rt: HostRuntime) -> Result<(), Fail> {
    let (_, image) = assembled(rt.alloc(), STORY)?;
    check_listed(&rt, rt.alloc(), &image)
}

/// An image whose metaclass isn't known is one, and no program.
fn check_other(rt: &impl Abort, alloc: Global, image: &[u8]) -> Result<(), Fail> {
    let want = "ok blocks=5 bytes=215\n";
    check_outcome(
        rt,
        alloc,
        &["check", "a.t3"],
        Some(image),
        want,
        Status::Done,
    )?;
    let refused = "load refused Metaclass 1\n";
    check_run(rt, alloc, image, refused, Status::LoadRefused)
}

#[test]
fn assembles_metaclasses(rt: HostRuntime) -> Result<(), Fail> {
    let (shown, image) = assembled(rt.alloc(), OTHER)?;
    assert_eq!(rt; shown.as_slice(), b"ok bytes=215\n".as_slice());
    check_other(&rt, rt.alloc(), &image)
}

/// The front of a source with the metaclass of tads-objects and all function sets, and its end.
const FRONT: &str =
    "image / block \"ENTP\" 1 / entry @main 10 10 0 0 0 0 - / block \"CPDF\" 1 / pool 1 1 64 / \
                     block \"MCLD\" 1 / metaclass \"tads-object/030005\" 2 - / block \"FNSD\" 1 / \
                     function-set \"tads-gen/030008\" / function-set \"t3vm\" / function-set \"tads-io\" / ";

const BACK: &str = " / end 0";

/// Objects, code, and what the run shows.
type ObjectsRow = (&'static str, &'static str, &'static str);

const WITH_OBJECTS: [ObjectsRow; 8] = [
    // The exception of a fault would be the next object.
    (
        PLAIN_7,
        "push_1 / push_0 / div",
        "[unhandled object=8 fault=4]\n",
    ),
    (PLAIN_7, "push_1 / builtin_c 1 0 / retnil", "1\n"),
    (
        PLAIN_7,
        "builtin_a 0 17 / push_1 / builtin_c 1 0 / retnil",
        "1\n",
    ),
    (PLAIN_7, "builtin_a 0 12", "[unhandled object=8 fault=8]\n"),
    (PLAIN_7, "builtin_b 0 1", "[unhandled object=8 fault=2]\n"),
    (PLAIN_7, "builtin_b 0 0", "[unhandled object=8 fault=8]\n"),
    (
        "block \"OBJS\" 1 / objects 0 0 / object 0 / u2 0 / u2 0 / u2 0",
        "retnil",
        "load refused ObjectNumber 0\n",
    ),
    (
        "block \"OBJS\" 1 / objects 0 0 / object 3 / u2 1 / u2 0 / u2 0 / u4 3",
        "retnil",
        "load refused SuperCycle 3\n",
    ),
];

/// A tads-object without superclasses and properties.
const PLAIN_7: &str = "block \"OBJS\" 1 / objects 0 0 / object 7 / u2 0 / u2 0 / u2 0";

/// The image of these objects and a method of this code.
fn image_with(alloc: Global, objects: &str, code: &str) -> Result<Vec<u8>, Fail> {
    let source = format!(in alloc;
        "{FRONT}{objects} / block \"CPPG\" 1 / page 1 0 0 / main: / method 0 0 4 0 / {code}{BACK}"
    )?;
    let (_, image) = assembled(alloc, &source)?;
    Ok(image)
}

/// The run of a row shows what it says.
fn check_with_objects(rt: &impl Abort, alloc: Global, row: &ObjectsRow) -> Result<(), Fail> {
    let (objects, code, want) = *row;
    let image = image_with(alloc, objects, code)?;
    let (_, shown) = outcome(alloc, &["run", "a.t3"], Some(&image))?;
    assert_eq!(rt; shown.as_slice(), want.as_bytes());
    Ok(())
}

#[test]
fn runs_images_with_objects(rt: HostRuntime) -> Result<(), Fail> {
    for row in &WITH_OBJECTS {
        check_with_objects(&rt, rt.alloc(), row)?;
    }
    Ok(())
}

/// Sources that are refused, and what is shown.
const REFUSED: [(&str, &str); 5] = [
    (
        "image / block \"CPPG\" 1 / page 1 0 0 / frob",
        "refused line 4 Word\n",
    ),
    (
        "image / block \"ZZZZ\" 0 / bytes 0",
        "refused line 3 Number\n",
    ),
    (
        "image / block \"CPDF\" 1 / pool 1 1 64 / block \"CPPG\" 1 / page 1 0 0 / jmp @x / end 0",
        "refused line 6 LabelMissing\n",
    ),
    ("image", "refused line 2 Order\n"),
    ("end 0", "refused line 1 Order\n"),
];

/// A source is refused, and this is shown.
fn check_refused(rt: &impl Abort, alloc: Global, source: &str, want: &str) -> Result<(), Fail> {
    let file = lines(alloc, source)?;
    let words = ["asm", "a.t3", "b.t3"];
    check_outcome(rt, alloc, &words, Some(&file), want, Status::SourceRefused)
}

#[test]
fn refuses_the_first_bad_line(rt: HostRuntime) -> Result<(), Fail> {
    for (source, want) in REFUSED {
        check_refused(&rt, rt.alloc(), source, want)?;
    }
    Ok(())
}

/// A command tells that its file isn't there, but not without a word for the other.
fn check_absent(rt: &impl Abort, alloc: Global, command: &str) -> Result<(), Fail> {
    let words = [command, "a.t3", "b.t3"];
    check_outcome(rt, alloc, &words, None, "absent a.t3\n", Status::Absent)?;
    let (status, _) = outcome(alloc, &[command, "a.t3"], None)?;
    assert_eq!(rt; status, Status::Usage);
    Ok(())
}

#[test]
fn names_no_file_that_is_not_there(rt: HostRuntime) -> Result<(), Fail> {
    for command in ["asm", "list"] {
        check_absent(&rt, rt.alloc(), command)?;
    }
    Ok(())
}

/// Whether a command of this file, which puts that one, ends as a row says.
fn stops_so(
    alloc: Global,
    command: &str,
    file: &[u8],
    wanted: &[u8],
    stop: &Stop,
) -> Result<bool, Fail> {
    let (depot_call, console_call, status, is_shown, halves) = *stop;
    let words = [command, "a.t3", "b.t3"];
    let left = left_by(alloc, &words, file, &[depot_call], &[console_call])?;
    let put = Vec::from_slice(alloc, halves_of(wanted, halves))?;
    let is_so = left.status == status && left.shown.is_empty() != is_shown;
    Ok(is_so && left.put == Some(put))
}

/// The first row that a command of this file, which puts that one, doesn't end by.
fn first_unlike(
    alloc: Global,
    command: &str,
    file: &[u8],
    wanted: &[u8],
) -> Result<Option<Stop>, Fail> {
    for stop in &STOPS {
        if !stops_so(alloc, command, file, wanted, stop)? {
            return Ok(Some(*stop));
        }
    }
    Ok(None)
}

/// An image is listed over devices that fail.
fn check_stops(rt: &impl Abort, alloc: Global, image: &[u8]) -> Result<(), Fail> {
    let (_, listing) = written(alloc, "list", image)?;
    assert_eq!(rt; first_unlike(alloc, "list", image, &listing)?, None);
    Ok(())
}

#[test]
fn stops_where_a_device_fails(rt: HostRuntime) -> Result<(), Fail> {
    let source = lines(rt.alloc(), STORY)?;
    let (_, image) = written(rt.alloc(), "asm", &source)?;
    assert_eq!(rt; first_unlike(rt.alloc(), "asm", &source, &image)?, None);
    check_stops(&rt, rt.alloc(), &image)
}
