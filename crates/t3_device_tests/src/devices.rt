//! The devices that tell no content, against a real file and the real output, and those in memory.
use std::alloc::Global;
use std::fs;
use std::os::unix::fs::symlink;
use std::process::Abort;
use std::test::Fail;
use t3_io::{
    Console, Depot, DeviceRefusal, FolderDepot, Got, MemoryConsole, MemoryDepot, StdConsole,
    SureConsole, SureDepot,
};

/// What a file has after two puts, what a read in its middle gives, and what one at its end does.
fn file_answers(rt: &HostRuntime) -> Result<(String, Got, [u8; 4], Got), Fail> {
    let name = "t3_io-folder.bin";
    let mut depot = FolderDepot::new(rt);
    let mut buf = [0u8; 4];
    depot.put(name.as_bytes(), b"a longer text than the next")?;
    depot.put(name.as_bytes(), b"0123456789")?;
    let put = fs::read_to_string(rt, name);
    let got = depot.read_at(name.as_bytes(), 3, &mut buf)?;
    let there = depot.read_at(name.as_bytes(), 10, &mut [0u8; 4]);
    fs::remove_file(rt, name)?;
    Ok((put?, got, buf, there?))
}

/// What a read and a put answer.
type Answers = (Result<Got, DeviceRefusal>, Result<(), DeviceRefusal>);

/// A folder is no file.
fn folder_answers(rt: &HostRuntime) -> Result<Answers, Fail> {
    fs::create_dir(rt, "t3_io-folder")?;
    let read = FolderDepot::new(rt).read_at(b"t3_io-folder", 0, &mut [0u8; 4]);
    let put = FolderDepot::new(rt).put(b"t3_io-folder", b"text");
    fs::remove_dir(rt, "t3_io-folder")?;
    Ok((read, put))
}

/// A link to itself can't be opened, though it is there: it isn't absent.
fn link_answers(rt: &HostRuntime) -> Result<Answers, Fail> {
    symlink(rt, "t3_io-link", "t3_io-link")?;
    let read = FolderDepot::new(rt).read_at(b"t3_io-link", 0, &mut [0u8; 4]);
    let put = FolderDepot::new(rt).put(b"t3_io-link", b"text");
    fs::remove_file(rt, "t3_io-link")?;
    Ok((read, put))
}

#[test]
fn a_folder_has_what_was_put_there(rt: HostRuntime) -> Result<(), Fail> {
    let (put, got, buf, there) = file_answers(&rt)?;
    assert_eq!(rt; put.as_str(), "0123456789");
    assert_eq!(rt; (got, there), (Got::Count(4), Got::Count(0)));
    assert_eq!(rt; buf.as_slice(), b"3456".as_slice());
    let read = FolderDepot::new(&rt).read_at(b"t3_io-folder.bin", 0, &mut [0u8; 4]);
    assert_eq!(rt; read, Ok(Got::Absent));
    let fault = Err(DeviceRefusal::Fault);
    assert_eq!(rt; folder_answers(&rt)?, (fault, Err(DeviceRefusal::Fault)));
    assert_eq!(rt; link_answers(&rt)?, (fault, Err(DeviceRefusal::Fault)));
    Ok(())
}

#[test]
fn the_output_takes_a_line(rt: HostRuntime) -> Result<(), Fail> {
    let mut console = StdConsole::new(&rt);
    assert_eq!(rt; console.write(b"shown by a test\n")?, 16);
    assert_eq!(rt; console.write(b"")?, 0);
    Ok(())
}

/// A test has no input: what the console reads of some, `t3_echo` shows.
#[test]
fn the_input_ends(rt: HostRuntime) -> Result<(), Fail> {
    let mut console = StdConsole::new(&rt);
    let mut buf = [0u8; 4];
    assert_eq!(rt; console.read(&mut buf)?, 0);
    assert_eq!(rt; console.read(&mut buf)?, 0);
    Ok(())
}

#[test]
fn the_sure_devices_keep_all(rt: HostRuntime) -> Result<(), Fail> {
    check_sure_depot(&rt, rt.alloc())?;
    check_sure_console(&rt, rt.alloc())
}

fn check_sure_depot(rt: &impl Abort, alloc: Global) -> Result<(), Fail> {
    let mut depot = SureDepot::new(alloc);
    check_files(rt, &mut depot)
}

/// A file that is kept and one that is put are there.
fn check_files(rt: &impl Abort, depot: &mut SureDepot) -> Result<(), Fail> {
    depot.keep(b"a", b"kept")?;
    depot.put(b"b", b"0123456789")?;
    let mut buf = [0u8; 4];
    assert_eq!(rt; depot.read_at(b"b", 8, &mut buf)?, Got::Count(2));
    assert_eq!(rt; buf.as_slice(), b"89\0\0".as_slice());
    assert_eq!(rt; depot.file(b"a"), Some(b"kept".as_slice()));
    Ok(())
}

fn check_sure_console(rt: &impl Abort, alloc: Global) -> Result<(), Fail> {
    let mut console = SureConsole::new(alloc, b"input")?;
    check_shown(rt, &mut console)?;
    check_input(rt, &mut console)
}

/// What is written is shown.
fn check_shown(rt: &impl Abort, console: &mut SureConsole) -> Result<(), Fail> {
    assert_eq!(rt; console.write(b"shown")?, 5);
    assert_eq!(rt; console.shown(), b"shown".as_slice());
    Ok(())
}

/// The input is read in pieces, and then no more.
fn check_input(rt: &impl Abort, console: &mut SureConsole) -> Result<(), Fail> {
    let mut buf = *b"89\0\0";
    check_piece(rt, console, &mut buf, 4, b"inpu")?;
    check_piece(rt, console, &mut buf, 1, b"tnpu")?;
    check_piece(rt, console, &mut buf, 0, b"tnpu")
}

/// A read gives so many bytes, and the buffer is this then.
fn check_piece(
    rt: &impl Abort,
    console: &mut SureConsole,
    buf: &mut [u8; 4],
    count: usize,
    want: &[u8],
) -> Result<(), Fail> {
    assert_eq!(rt; console.read(buf)?, count);
    assert_eq!(rt; buf.as_slice(), want);
    Ok(())
}

/// The example of the crate's first page.
#[test]
fn the_second_call_fails(rt: HostRuntime) -> Result<(), Fail> {
    let mut depot = MemoryDepot::new(rt.alloc(), &[1])?;
    depot.put(b"a", b"bytes")?;
    let mut buf = [0; 3];
    assert_eq!(rt; depot.read_at(b"a", 2, &mut buf), Err(DeviceRefusal::Fault));
    assert_eq!(rt; depot.read_at(b"a", 2, &mut buf)?, Got::Count(3));
    assert_eq!(rt; buf.as_slice(), b"tes".as_slice());
    Ok(())
}

/// The calls that are to fail, which of the four calls are answered, and what the files are then.
type DepotRow = (&'static [u32], [bool; 4], &'static [u8], &'static [u8]);

#[test]
fn a_depot_fails_by_the_numbers(rt: HostRuntime) -> Result<(), Fail> {
    let rows: [DepotRow; 4] = [
        (&[], [true, true, true, true], b"newer", b"12345"),
        (&[0], [false, true, true, true], b"ne", b"12345"),
        (&[2, 7], [true, true, false, true], b"newer", b"12345"),
        (&[1, 3], [true, false, true, false], b"newer", b"12"),
    ];
    for row in &rows {
        check_depot(&rt, rt.alloc(), row)?;
    }
    Ok(())
}

fn check_depot(rt: &impl Abort, alloc: Global, row: &DepotRow) -> Result<(), Fail> {
    let (failing, want, a, b) = *row;
    let (depot, got) = depot_answers(alloc, failing)?;
    assert_eq!(rt; got, want, "{failing:?}");
    assert_eq!(rt; depot.file(b"a"), Some(a), "{failing:?}");
    assert_eq!(rt; depot.file(b"b"), Some(b), "{failing:?}");
    Ok(())
}

/// A depot after two puts and two reads, and which of them were answered.
fn depot_answers(alloc: Global, failing: &[u32]) -> Result<(MemoryDepot, [bool; 4]), Fail> {
    let mut depot = MemoryDepot::new(alloc, failing)?;
    depot.keep(b"a", b"kept")?;
    let mut buf = [0u8; 8];
    let got = [
        depot.put(b"a", b"newer").is_ok(),
        depot.put(b"b", b"12345").is_ok(),
        depot.read_at(b"a", 0, &mut buf).is_ok(),
        depot.read_at(b"b", 0, &mut buf).is_ok(),
    ];
    Ok((depot, got))
}

/// The writes that are to fail, which of the three are answered, and what is shown then.
type WriteRow = (&'static [u32], [bool; 3], &'static [u8]);

#[test]
fn a_console_fails_by_the_numbers(rt: HostRuntime) -> Result<(), Fail> {
    let rows: [WriteRow; 4] = [
        (&[], [true, true, true], b"012"),
        (&[0], [false, true, true], b"12"),
        (&[1, 7], [true, false, true], b"02"),
        (&[0, 2], [false, true, false], b"1"),
    ];
    for row in &rows {
        check_writes(&rt, rt.alloc(), row)?;
    }
    Ok(())
}

fn check_writes(rt: &impl Abort, alloc: Global, row: &WriteRow) -> Result<(), Fail> {
    let (failing, want, shown) = *row;
    let mut console = MemoryConsole::new(alloc, b"", failing)?;
    let got = [
        console.write(b"0").is_ok(),
        console.write(b"1").is_ok(),
        console.write(b"2").is_ok(),
    ];
    assert_eq!(rt; got, want, "{failing:?}");
    assert_eq!(rt; console.shown(), shown, "{failing:?}");
    Ok(())
}

/// The reads that are to fail, how much each of the three gives, and what was taken then.
type ReadRow = (&'static [u32], [Option<usize>; 3], &'static [u8]);

#[test]
fn a_read_fails_by_the_numbers(rt: HostRuntime) -> Result<(), Fail> {
    let rows: [ReadRow; 4] = [
        (&[], [Some(3), Some(2), Some(0)], b"abcde\0"),
        (&[0], [None, Some(3), Some(2)], b"\0\0\0abc"),
        (&[1, 7], [Some(3), None, Some(2)], b"abc\0\0\0"),
        (&[0, 2], [None, Some(3), None], b"\0\0\0abc"),
    ];
    for row in &rows {
        check_reads(&rt, rt.alloc(), row)?;
    }
    Ok(())
}

fn check_reads(rt: &impl Abort, alloc: Global, row: &ReadRow) -> Result<(), Fail> {
    let (failing, want, taken) = *row;
    let mut console = MemoryConsole::new(alloc, b"abcde", failing)?;
    let mut buf = [0u8; 6];
    let mut last = [0u8; 3];
    let got = [
        console.read(&mut buf[..3]).ok(),
        console.read(&mut buf[3..]).ok(),
        console.read(&mut last).ok(),
    ];
    assert_eq!(rt; got, want, "{failing:?}");
    assert_eq!(rt; buf.as_slice(), taken, "{failing:?}");
    Ok(())
}
