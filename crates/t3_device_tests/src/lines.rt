//! Inputs and their lines, worked by hand.
ghost use Rattle.std.specs.Prelude.{◌-◌, ◌^◌, ◌<◌, ◌≡◌, IfOk};

use std::alloc::Global;
use std::test::Fail;
use t3_io::{Console, DeviceRefusal, MemoryConsole, SureConsole};
use t3_lines::{LineReader, WantedLine};

/// A console whose reads give one byte at a time.
#[derive(Drop)]
struct ByteConsole(SureConsole);

impl Console for ByteConsole {
    ghost use Rattle.std.specs.Prelude.{Some};

    ghost session = { λ c. Some c.0 };

    ghost faults = { λ _. 0 };

    fn read(&mut self, buf: &mut [u8]) -> Result<usize, DeviceRefusal> {
        let size = buf.len().min(1);
        self.0.read(&mut buf[..size])
    }

    fn write(&mut self, piece: &[u8]) -> Result<usize, DeviceRefusal> {
        self.0.write(piece)
    }
}

/// The lines of an input, each in brackets, and its end.
fn bracketed<C: Console>(alloc: Global, console: &mut C) -> Result<Vec<u8>, Fail>
    requires { C.faults console.old < 2 ^ 64 - 1 }
    ensures { IfOk result (λ _. C.faults console.new ≡ C.faults console.old) }
{
    let mut lines = LineReader::new(alloc);
    let mut out = Vec::new(alloc);
    for _turn in 0..8 {
        match lines.next_line(console)? {
            WantedLine::Line(line) => {
                out.push(b'[')?;
                out.extend_from_slice(&line.0)?;
                out.push(b']')?;
            }
            WantedLine::EndOfInput => out.push(b'.')?,
            WantedLine::PastLimit => out.push(b'!')?,
        }
    }
    Ok(out)
}

const INPUTS: [(&[u8], &[u8]); 15] = [
    (b"", b"........"),
    (b"\n", b"[]......."),
    (b"look", b"[look]......."),
    (b"look\n", b"[look]......."),
    (b"look\r\n", b"[look]......."),
    (b"look\r\ntake l", b"[look][take l]......"),
    (b"\r", b"[\r]......."),
    (b"\r\n", b"[]......."),
    (b"\r\n\r", b"[][\r]......"),
    (b"a\rb\r\r\n", b"[a\rb\r]......."),
    (b"\n\nx", b"[][][x]....."),
    (b"caf\xc3\xa9\n", b"[caf\xc3\xa9]......."),
    (b"caf\xc3", b"[caf?]......."),
    (b"\xff\xc3\xa9\nb\xc3\xa9\n", b"[???][b\xc3\xa9]......"),
    (b"1\n2\n3\n4\n5\n6\n7\n8\n9", b"[1][2][3][4][5][6][7][8]"),
];

/// The lines of an input that is read in great pieces.
fn at_once(alloc: Global, input: &[u8]) -> Result<Vec<u8>, Fail> {
    let mut console = SureConsole::new(alloc, input)?;
    bracketed(alloc, &mut console)
}

#[test]
fn gives_the_lines_of_inputs(rt: HostRuntime) -> Result<(), Fail> {
    for (input, want) in INPUTS {
        assert!(rt; at_once(rt.alloc(), input)?.as_slice() == want, "{input:?}");
    }
    Ok(())
}

fn by_bytes(alloc: Global, input: &[u8]) -> Result<Vec<u8>, Fail> {
    let mut console = ByteConsole(SureConsole::new(alloc, input)?);
    bracketed(alloc, &mut console)
}

#[test]
fn gives_them_byte_by_byte(rt: HostRuntime) -> Result<(), Fail> {
    for (input, want) in INPUTS {
        assert!(rt;
            by_bytes(rt.alloc(), input)?.as_slice() == want,
            "{input:?}"
        );
    }
    Ok(())
}

/// The reads are the calls 0 and 1, of which the second gives nothing.
#[test]
fn reads_no_more_after_the_end(rt: HostRuntime) -> Result<(), Fail> {
    let mut console = MemoryConsole::new(rt.alloc(), b"look\ntake", &[2])?;
    let got = bracketed(rt.alloc(), &mut console)?;
    assert_eq!(rt; got.as_slice(), b"[look][take]......".as_slice());
    assert_eq!(rt; console.read(&mut [0]), Err(DeviceRefusal::Fault));
    Ok(())
}

#[test]
fn gives_no_line_for_a_fault(rt: HostRuntime) -> Result<(), Fail> {
    let mut console = MemoryConsole::new(rt.alloc(), b"look", &[1])?;
    let mut lines = LineReader::new(rt.alloc());
    assert!(rt; lines.next_line(&mut console).is_err());
    Ok(())
}

/// How long the first line is, where there is one, and whether the next is past the limit: of an input of
/// so many bytes with a newline at a place.
fn long_line(alloc: Global, size: usize, newline: usize) -> Result<(Option<usize>, bool), Fail> {
    let mut input = Vec::new(alloc);
    input.resize(size, b'a')?;
    if newline < input.len() {
        input[newline] = b'\n';
    }
    let mut console = SureConsole::new(alloc, &input)?;
    let mut lines = LineReader::new(alloc);
    let first = match lines.next_line(&mut console)? {
        WantedLine::Line(line) => Some(line.0.len()),
        WantedLine::EndOfInput | WantedLine::PastLimit => None,
    };
    let is_past = match lines.next_line(&mut console)? {
        WantedLine::PastLimit => true,
        WantedLine::Line(_) | WantedLine::EndOfInput => false,
    };
    Ok((first, is_past))
}

#[test]
fn takes_so_many_bytes_and_no_more(rt: HostRuntime) -> Result<(), Fail> {
    let rows = [
        (16_777_215, 16_777_215, Some(16_777_215), false),
        (16_777_216, 16_777_216, None, true),
        (16_777_216, 16_777_215, Some(16_777_215), true),
        (16_777_217, 16_777_216, None, true),
        (16_777_217, 100, Some(100), true),
    ];
    for (size, newline, line, is_past) in rows {
        let got = long_line(rt.alloc(), size, newline)?;
        assert_eq!(rt; got, (line, is_past), "{size} {newline}");
    }
    Ok(())
}
