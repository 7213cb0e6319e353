//! What a restart puts back, and what it leaves.
use crate::story::{first_unlike, run_in, story_beside};
use sha2::{Digest, Sha256};
use std::alloc::Global;
use std::test::Fail;
use t3_cli::Status;
use t3_io::SureDepot;
use t3_testing::Row;

const RESTARTS: [Row; 9] = [
    // The objects of the image are as it has them.
    (
        "pushint8 5 / objsetprop 1 3 / builtin_a 0 17 / objgetprop 1 3 / getr0 / call 1 @show / retnil",
        "nil\n",
    ),
    // The answer is nil, and so is that of an undo: no savepoint is held.
    (
        "builtin_a 0 13 / pushint8 5 / objsetprop 1 3 / builtin_a 0 17 / getr0 / call 1 @show / builtin_a 0 14 / getr0 / call 1 @show / retnil",
        "nilnil\n",
    ),
    // A savepoint that is made since is undone.
    (
        "builtin_a 0 17 / builtin_a 0 13 / pushint8 5 / objsetprop 1 3 / builtin_a 0 14 / getr0 / call 1 @show / objgetprop 1 3 / getr0 / call 1 @show / retnil",
        "truenil\n",
    ),
    // Objects that were made are gone, wherever they are referred to.
    (
        "new1 0 0 / getr0 / setlcl1 0 / builtin_a 0 17 / getlcl1 0 / getprop 3 / retnil",
        "[unhandled object=4 fault=20]\n",
    ),
    // Their numbers aren't given again.
    (
        "new1 0 0 / new1 0 0 / builtin_a 0 17 / push_1 / push_0 / div",
        "[unhandled object=5 fault=4]\n",
    ),
    // Locals and transient objects stay as they are.
    (
        "trnew1 0 0 / getr0 / setlcl1 0 / pushint8 7 / getlcl1 0 / setprop 4 / pushint8 8 / setlcl1 1 / builtin_a 0 17 / getlcl1 0 / getprop 4 / getr0 / call 1 @show / getlcl1 1 / call 1 @show / retnil",
        "78\n",
    ),
    // What refers to an object of the image refers to it still.
    (
        "pushobj 1 / setlcl1 0 / pushint8 5 / objsetprop 1 3 / builtin_a 0 17 / pushint8 9 / objsetprop 1 3 / getlcl1 0 / getprop 3 / getr0 / call 1 @show / retnil",
        "9\n",
    ),
    // In a function that is called, whose caller goes on with the locals that it had.
    (
        "pushint8 7 / setlcl1 0 / pushint8 5 / objsetprop 1 3 / call 0 @f / objgetprop 1 3 / getr0 / call 1 @show / getlcl1 0 / call 1 @show / retnil / f: / method 0 0 4 0 / builtin_a 0 17 / retnil",
        "nil7\n",
    ),
    ("push_1 / builtin_a 1 17", "[unhandled object=3 fault=2]\n"),
];

#[test]
fn restarts(rt: HostRuntime) -> Result<(), Fail> {
    assert_eq!(rt; first_unlike(rt.alloc(), &RESTARTS)?, None);
    Ok(())
}

/// Class 3, whose method restarts and looks at self.
const CLASS: &str =
    "block \"OBJS\" 1 / objects 0 0 / object 3 / u2 0 / u2 1 / u2 1 / u2 9 / hold 11 @f";

/// In a method of an object that was made, self is gone then.
#[test]
fn takes_self_away(rt: HostRuntime) -> Result<(), Fail> {
    let alloc = rt.alloc();
    let body =
        "pushobj 3 / new1 1 0 / getr0 / callprop 0 9 / retnil / f: / method 0 0 4 0 / builtin_a 0 17 / \
                getpropself 3 / retnil";
    let mut depot = SureDepot::new(alloc);
    depot.keep(b"a.t3", &story_beside(alloc, CLASS, body)?)?;
    let (status, shown) = run_in(alloc, &mut depot, b"")?;
    assert_eq!(rt;
        shown.as_slice(),
        b"[unhandled object=5 fault=20]\n".as_slice()
    );
    assert_eq!(rt; status, Status::Unhandled);
    Ok(())
}

/// A story that saves where it is given a line, and else restores, makes 64 transient vectors and restarts.
const FILLS_AND_RESTARTS: &str =
    "builtin_b 0 4 / getr0 / jf @next / pushstr @name / builtin_a 1 15 / retnil / next: / pushstr @name / \
     builtin_a 1 16 / pushint8 64 / setlcl1 0 / again: / pushint 65535 / push_0 / trnew1 2 1 / declcl 0 / \
     getlcl1 0 / jt @again / pushstr @one / builtin_b 1 0 / builtin_a 0 17 / retnil";

/// An object of 65 properties.
fn object_of_65(alloc: Global) -> Result<String, Fail> {
    let mut block = String::from_str(
        alloc,
        "block \"OBJS\" 1 / objects 0 0 / object 3 / u2 0 / u2 65 / u2 0",
    )?;
    for number in 1..66u32 {
        block.push_str(format!(in alloc; " / u2 {number} / hold 7 1")?.as_str())?;
    }
    Ok(block)
}

/// The state of the same image without an object, with the digest of that.
fn emptied(alloc: Global, state: &[u8]) -> Result<Vec<u8>, Fail> {
    let mut bytes = Vec::from_slice(alloc, state.get(..46).unwrap_or(b""))?;
    bytes.extend_from_slice(&[0; 4])?;
    let mut hasher = Sha256::new();
    hasher.update(&bytes);
    bytes.extend_from_slice(&hasher.finalize())?;
    Ok(bytes)
}

/// Vectors with 64 units less than a store has find room beside a state without objects, but not beside those of the
/// image, one of which has 65 properties.
#[test]
fn fills_the_store(rt: HostRuntime) -> Result<(), Fail> {
    let alloc = rt.alloc();
    let block = object_of_65(alloc)?;
    let mut depot = SureDepot::new(alloc);
    depot.keep(
        b"a.t3",
        &story_beside(alloc, block.as_str(), FILLS_AND_RESTARTS)?,
    )?;
    let (_, _) = run_in(alloc, &mut depot, b"x\n")?;
    let state = emptied(alloc, depot.file(b"s.sav").unwrap_or(b""))?;
    depot.keep(b"s.sav", &state)?;
    let (status, shown) = run_in(alloc, &mut depot, b"")?;
    assert_eq!(rt; shown.as_slice(), b"s\n[store full]\n".as_slice());
    assert_eq!(rt; status, Status::StoreFull);
    Ok(())
}
