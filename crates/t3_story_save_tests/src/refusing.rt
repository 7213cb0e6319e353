//! Files that are no states of the image.
use crate::story::{first_unlike, run_in, story_beside};
use sha2::{Digest, Sha256};
use std::alloc::{AllocError, Global};
use std::process::Abort;
use std::test::Fail;
use t3_io::SureDepot;
use t3_testing::Row;

/// The same tests as of a save, and then whether the file is there.
const NAMES: [Row; 6] = [
    (
        "pushstr @empty / builtin_a 1 16",
        "[unhandled object=3 fault=17]\n",
    ),
    (
        "pushstr @long / builtin_a 1 16",
        "[unhandled object=3 fault=17]\n",
    ),
    (
        "pushstr 99999 / builtin_a 1 16",
        "[unhandled object=3 fault=21]\n",
    ),
    ("push_1 / builtin_a 1 16", "[unhandled object=3 fault=3]\n"),
    ("builtin_a 0 16", "[unhandled object=3 fault=2]\n"),
    (
        "pushstr @most / builtin_a 1 16",
        "[unhandled object=3 fault=18]\n",
    ),
];

#[test]
fn restores_no_other_names(rt: HostRuntime) -> Result<(), Fail> {
    assert_eq!(rt; first_unlike(rt.alloc(), &NAMES)?, None);
    Ok(())
}

/// A story that saves where it is given a line, and else restores, and says what object 1 has then.
const SAVES_OR_RESTORES: &str =
    "builtin_b 0 4 / getr0 / jf @next / pushstr @name / builtin_a 1 15 / retnil / next: / pushint8 6 / \
     objsetprop 1 3 / pushstr @name / builtin_a 1 16 / objgetprop 1 3 / getr0 / call 1 @show / retnil";

/// A transient object of number 3.
const TRANSIENT_3: &str = "block \"OBJS\" 1 / objects 0 2 / object 3 / u2 0 / u2 0 / u2 0";

/// A block without meaning.
const KEPT: &str = "block \"BODY\" 0";

/// The state that this story saves, beside a block.
fn saved(alloc: Global, block: &str) -> Result<Vec<u8>, Fail> {
    let mut depot = SureDepot::new(alloc);
    depot.keep(b"a.t3", &story_beside(alloc, block, SAVES_OR_RESTORES)?)?;
    let (_, _) = run_in(alloc, &mut depot, b"x\n")?;
    Ok(Vec::from_slice(alloc, depot.file(b"s.sav").unwrap_or(b""))?)
}

/// What it shows where it restores these bytes.
fn restored(alloc: Global, block: &str, state: &[u8]) -> Result<Vec<u8>, Fail> {
    let mut depot = SureDepot::new(alloc);
    depot.keep(b"a.t3", &story_beside(alloc, block, SAVES_OR_RESTORES)?)?;
    depot.keep(b"s.sav", state)?;
    let (_, shown) = run_in(alloc, &mut depot, b"")?;
    Ok(shown)
}

/// The state with other bits in a byte at a place.
fn changed(alloc: Global, state: &[u8], at: usize, bits: u8) -> Result<Vec<u8>, Fail> {
    let mut bytes = Vec::from_slice(alloc, state)?;
    if let Some(byte) = bytes.get_mut(at) {
        *byte ^= bits;
    }
    Ok(bytes)
}

/// The same, with the digest of that.
fn forged(alloc: Global, state: &[u8], at: usize, bits: u8) -> Result<Vec<u8>, Fail> {
    let before = state.get(..state.len().saturating_sub(32)).unwrap_or(b"");
    let mut bytes = changed(alloc, before, at, bits)?;
    let mut hasher = Sha256::new();
    hasher.update(&bytes);
    bytes.extend_from_slice(&hasher.finalize())?;
    Ok(bytes)
}

const REFUSED: &[u8] = b"[unhandled object=3 fault=19]\n";

/// These bytes are refused as a state.
fn check_refused(rt: &impl Abort, alloc: Global, bytes: &[u8]) -> Result<(), Fail> {
    let shown = restored(alloc, KEPT, bytes)?;
    assert_eq!(rt; shown.as_slice(), REFUSED);
    Ok(())
}

/// Places of the signature, of the version, of the fingerprint, and behind it.
const PLACES: [usize; 6] = [0, 8, 10, 41, 42, 46];

/// The state with another bit at each of these places is refused.
fn check_changed(
    rt: &impl Abort,
    alloc: Global,
    state: &[u8],
    places: &[usize],
) -> Result<(), Fail> {
    for at in places {
        check_refused(rt, alloc, &changed(alloc, state, *at, 1)?)?;
    }
    Ok(())
}

#[test]
fn refuses_each_part(rt: HostRuntime) -> Result<(), Fail> {
    let state = saved(rt.alloc(), KEPT)?;
    check_changed(&rt, rt.alloc(), &state, &PLACES)
}

/// The last byte before the digest, and its last one.
#[test]
fn refuses_another_digest(rt: HostRuntime) -> Result<(), Fail> {
    let state = saved(rt.alloc(), KEPT)?;
    let end = state.len();
    let places = [end.saturating_sub(33), end.saturating_sub(1)];
    check_changed(&rt, rt.alloc(), &state, &places)
}

/// How many bytes are left of a state that is cut.
const SIZES: [usize; 5] = [0, 7, 9, 41, 73];

/// The state is refused where so many of its bytes are left, and where the last is missing.
fn check_cut(rt: &impl Abort, alloc: Global, state: &[u8], sizes: &[usize]) -> Result<(), Fail> {
    for size in sizes {
        check_refused(rt, alloc, state.get(..*size).unwrap_or(b""))?;
    }
    let shorter = state.len().saturating_sub(1);
    check_refused(rt, alloc, state.get(..shorter).unwrap_or(b""))
}

#[test]
fn refuses_a_front(rt: HostRuntime) -> Result<(), Fail> {
    let state = saved(rt.alloc(), KEPT)?;
    check_cut(&rt, rt.alloc(), &state, &SIZES)
}

/// The state itself is taken.
#[test]
fn takes_the_whole(rt: HostRuntime) -> Result<(), Fail> {
    let state = saved(rt.alloc(), KEPT)?;
    let shown = restored(rt.alloc(), KEPT, &state)?;
    assert_eq!(rt; shown.as_slice(), b"nil\n".as_slice());
    Ok(())
}

/// A digest that is right doesn't make a state of bytes that spell none: here more objects than there are.
#[test]
fn refuses_what_is_malformed(rt: HostRuntime) -> Result<(), Fail> {
    let alloc = rt.alloc();
    let state = saved(alloc, KEPT)?;
    let malformed = forged(alloc, &state, 46, 1)?;
    assert_eq!(rt; restored(alloc, KEPT, &malformed)?.as_slice(), REFUSED);
    Ok(())
}

/// The line that the story got is the last object of its state, number 4 beside a transient object. As number 3 it
/// would be that one.
#[test]
fn refuses_the_number_of_a_transient_object(rt: HostRuntime) -> Result<(), Fail> {
    let alloc = rt.alloc();
    let state = saved(alloc, TRANSIENT_3)?;
    assert_eq!(rt;
        restored(alloc, TRANSIENT_3, &state)?.as_slice(),
        b"nil\n".as_slice()
    );
    let clash = forged(alloc, &state, state.len().saturating_sub(40), 7)?;
    let shown = restored(alloc, TRANSIENT_3, &clash)?;
    assert_eq!(rt;
        shown.as_slice(),
        b"[unhandled object=4 fault=19]\n".as_slice()
    );
    // Without such an object it may have the number.
    let other = forged(alloc, &saved(alloc, KEPT)?, 42, 0)?;
    assert_eq!(rt;
        restored(alloc, KEPT, &other)?.as_slice(),
        b"nil\n".as_slice()
    );
    Ok(())
}

fn zeros(alloc: Global, size: usize) -> Result<Vec<u8>, AllocError> {
    Vec::from_elem(alloc, 0, size)
}

/// A file with a byte more than a state may have is refused, whatever it begins with, and is read no further.
#[test]
fn refuses_a_file_that_is_too_long(rt: HostRuntime) -> Result<(), Fail> {
    let alloc = rt.alloc();
    let state = saved(alloc, KEPT)?;
    let mut long = zeros(alloc, 268_435_457)?;
    for (byte, of_state) in long.iter_mut().zip(state.iter()) {
        *byte = *of_state;
    }
    assert_eq!(rt; restored(alloc, KEPT, &long)?.as_slice(), REFUSED);
    Ok(())
}
