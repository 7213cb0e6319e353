//! Consoles that fail or give one byte at a time, and a file that is gone at its second read.
ghost use Rattle.std.specs.Prelude.{◌-◌, ◌^◌, ◌<◌};

use crate::asking::{BRACKETS, ECHOES};
use std::alloc::Global;
use std::process::Abort;
use std::test::Fail;
use t3_cli::{Status, t3_main};
use t3_io::{Console, Depot, DeviceRefusal, Got, MemoryConsole, SureConsole, SureDepot};
use t3_testing::{owned, story};

/// The status and what is shown of a story that says `1`, asks, says the line, and asks again, over a console of
/// the input `a` whose calls of these numbers fail.
fn asks_twice(alloc: Global, failing: &[u32]) -> Result<(Status, Vec<u8>), Fail> {
    let image = story(
        alloc,
        "one: / text \"1 \"",
        "pushstr @one / builtin_a 1 0 / builtin_a 0 4 / getr0 / builtin_a 1 0 / builtin_a 0 4 / retnil",
    )?;
    let mut depot = SureDepot::new(alloc);
    depot.keep(b"a.t3", &image)?;
    let mut console = MemoryConsole::new(alloc, b"a\n", failing)?;
    let words = owned(alloc, &["run", "a.t3"])?;
    let status = t3_main(alloc, &words, &mut depot, &mut console);
    Ok((status, Vec::from_slice(alloc, console.shown())?))
}

/// Which call fails of two writes and two reads, each behind the other; what was shown, which is what came before it;
/// and the status.
const FAILING_CALLS: [(u32, &str, Status); 5] = [
    (0, "", Status::ConsoleFault),
    (1, "1", Status::ConsoleFault),
    (2, "1", Status::ConsoleFault),
    (3, "1a", Status::ConsoleFault),
    (4, "1a", Status::Done),
];

fn check_failing(
    rt: &impl Abort,
    alloc: Global,
    call: u32,
    want: &str,
    status: Status,
) -> Result<(), Fail> {
    let (got, shown) = asks_twice(alloc, &[call])?;
    assert_eq!(rt; shown.as_slice(), want.as_bytes(), "{call}");
    assert_eq!(rt; got, status, "{call}");
    Ok(())
}

#[test]
fn stops_where_a_read_or_a_write_fails(rt: HostRuntime) -> Result<(), Fail> {
    for (call, want, status) in FAILING_CALLS {
        check_failing(&rt, rt.alloc(), call, want, status)?;
    }
    Ok(())
}

/// A console whose reads give one byte at a time.
#[derive(Drop)]
struct ByteConsole(SureConsole);

impl Console for ByteConsole {
    ghost use Rattle.std.specs.Prelude.{Some};

    ghost session = { λ c. Some c.0 };

    ghost faults = { λ _. 0 };

    fn read(&mut self, buf: &mut [u8]) -> Result<usize, DeviceRefusal> {
        let size = buf.len().min(1);
        self.0.read(&mut buf[..size])
    }

    fn write(&mut self, piece: &[u8]) -> Result<usize, DeviceRefusal> {
        self.0.write(piece)
    }
}

#[test]
fn takes_a_line_byte_by_byte(rt: HostRuntime) -> Result<(), Fail> {
    let alloc = rt.alloc();
    let image = story(alloc, BRACKETS, ECHOES)?;
    let mut depot = SureDepot::new(alloc);
    depot.keep(b"a.t3", &image)?;
    let mut console = ByteConsole(SureConsole::new(alloc, b"go e\r\n\nw")?);
    let words = owned(alloc, &["run", "a.t3"])?;
    let status = t3_main(alloc, &words, &mut depot, &mut console);
    assert_eq!(rt; console.0.shown(), b"[go e][][w]".as_slice());
    assert_eq!(rt; status, Status::Done);
    Ok(())
}

/// A depot that tells nothing, and whose file is gone at its second read.
#[derive(Drop)]
struct FleetingDepot {
    bytes: Vec<u8>,
    reads: u32,
}

impl Depot for FleetingDepot {
    ghost use Rattle.std.specs.Prelude.{None};

    ghost files = { λ _. None };

    ghost faults = { λ _. 0 };

    fn read_at(&mut self, _name: &[u8], _at: u64, buf: &mut [u8]) -> Result<Got, DeviceRefusal> {
        if self.reads > 0 {
            return Ok(Got::Absent);
        }
        self.reads = 1;
        let count = buf.len().min(self.bytes.len());
        buf[..count].copy_from_slice(&self.bytes[..count]);
        Ok(Got::Count(count))
    }

    fn put(&mut self, _name: &[u8], _bytes: &[u8]) -> Result<(), DeviceRefusal> {
        Ok(())
    }
}

/// The status and what is shown of these words where the first half of a file is read before it is gone.
fn fleeting(alloc: Global, words: &[&str], file: &[u8]) -> Result<(Status, Vec<u8>), Fail> {
    let half = file.len() / 2;
    let mut depot = FleetingDepot {
        bytes: Vec::from_slice(alloc, &file[..half])?,
        reads: 0,
    };
    let mut console = SureConsole::new(alloc, b"e\n")?;
    let status = t3_main(alloc, &owned(alloc, words)?, &mut depot, &mut console);
    Ok((status, Vec::from_slice(alloc, console.shown())?))
}

const READERS: [&[&str]; 6] = [
    &["run", "a.t3"],
    &["check", "a.t3"],
    &["show", "a.t3"],
    &["rewrite", "a.t3", "b.t3"],
    &["list", "a.t3", "b.t3"],
    &["asm", "a.t3", "b.t3"],
];

fn check_fleeting(
    rt: &impl Abort,
    alloc: Global,
    words: &[&str],
    image: &[u8],
) -> Result<(), Fail> {
    let (status, shown) = fleeting(alloc, words, image)?;
    assert_eq!(rt; shown.as_slice(), b"absent a.t3\n".as_slice());
    assert_eq!(rt; status, Status::Absent);
    Ok(())
}

#[test]
fn a_file_that_goes_is_absent(rt: HostRuntime) -> Result<(), Fail> {
    let image = story(rt.alloc(), BRACKETS, ECHOES)?;
    for words in READERS {
        check_fleeting(&rt, rt.alloc(), words, &image)?;
    }
    Ok(())
}
