//! Which of several methods catches, in a worked page: the method at 2 has three handlers, by hand from its
//! table.
use crate::code::{HANDLERS, pools};
use std::alloc::Global;
use std::process::Abort;
use std::test::Fail;
use t3_except::{Spot, cover};
use t3_methods::CodeRefusal;

/// The spots by method and place, the newest last, and the classes of what is thrown; and which spot catches,
/// and the address of its handler.
type CoverRow<'a> = (
    &'a [Spot],
    &'a [u32],
    Result<Option<(usize, u32)>, (u32, CodeRefusal)>,
);

const fn spot(method: u32, place: u32) -> Spot {
    Spot { method, place }
}

fn check_rows(
    rt: &impl Abort,
    alloc: Global,
    code: &[u8],
    rows: &[CoverRow<'_>],
) -> Result<(), Fail> {
    let pools = pools(alloc, code)?;
    for row in rows {
        let (spots, classes, want) = *row;
        assert_eq!(rt; cover(&pools, spots, classes), want);
    }
    Ok(())
}

/// The first and the last offset are covered, and those beside them aren't.
#[test]
fn covers_a_range_with_both_ends(rt: HostRuntime) -> Result<(), Fail> {
    let rows: [CoverRow<'_>; 5] = [
        (&[spot(2, 11)], &[5], Ok(None)),
        (&[spot(2, 12)], &[5], Ok(Some((0, 102)))),
        (&[spot(2, 22)], &[5], Ok(Some((0, 102)))),
        (&[spot(2, 32)], &[5], Ok(Some((0, 202)))),
        (&[spot(2, 33)], &[5], Ok(None)),
    ];
    check_rows(&rt, rt.alloc(), HANDLERS, &rows)
}

/// Class 0 takes all, and else one of several classes is enough.
#[test]
fn covers_by_any_class(rt: HostRuntime) -> Result<(), Fail> {
    let rows: [CoverRow<'_>; 3] = [
        (&[spot(2, 17)], &[], Ok(Some((0, 202)))),
        (&[spot(2, 42)], &[9, 6], Ok(Some((0, 302)))),
        (&[spot(2, 42)], &[5], Ok(None)),
    ];
    check_rows(&rt, rt.alloc(), HANDLERS, &rows)
}

/// The newest method that catches is taken, and none of the older ones is asked: no header stands at 40.
#[test]
fn asks_the_newest_first(rt: HostRuntime) -> Result<(), Fail> {
    let no_header = Err((40, CodeRefusal::Header));
    let rows: [CoverRow<'_>; 6] = [
        (&[], &[5], Ok(None)),
        (&[spot(2, 17), spot(2, 32)], &[5], Ok(Some((1, 202)))),
        (&[spot(2, 17), spot(2, 33)], &[5], Ok(Some((0, 102)))),
        (&[spot(40, 40), spot(2, 17)], &[5], Ok(Some((1, 102)))),
        (&[spot(40, 40), spot(2, 33)], &[5], no_header),
        (&[spot(2, 17), spot(40, 40)], &[5], no_header),
    ];
    check_rows(&rt, rt.alloc(), HANDLERS, &rows)
}

/// A table that lacks its last byte is refused, whatever its first entries say.
#[test]
fn refuses_a_cut_table(rt: HostRuntime) -> Result<(), Fail> {
    let rows: [CoverRow<'_>; 1] = [(&[spot(2, 17)], &[5], Err((2, CodeRefusal::Table)))];
    let (cut, _) = HANDLERS.split_at(HANDLERS.len() - 1);
    check_rows(&rt, rt.alloc(), cut, &rows)
}

/// A method without a table doesn't catch.
#[test]
fn passes_over_a_method_without_a_table(rt: HostRuntime) -> Result<(), Fail> {
    let rows: [CoverRow<'_>; 1] = [(&[spot(0, 10)], &[5], Ok(None))];
    check_rows(&rt, rt.alloc(), &[0; 10], &rows)
}
