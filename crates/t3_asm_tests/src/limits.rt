//! Sources at the limits of counts, of sizes and of blocks.
use crate::sources::assemble_few;
use std::alloc::Global;
use std::process::Abort;
use std::test::Fail;
use t3_image_write::write_image;

/// A source with one line as often as wanted.
#[derive(Clone, Copy)]
struct Repeated {
    front: &'static [u8],
    line: &'static [u8],
    behind: &'static [u8],
}

impl Repeated {
    fn text(&self, alloc: Global, count: u32) -> Result<Vec<u8>, Fail> {
        let mut text = Vec::new(alloc);
        text.extend_from_slice(self.front)?;
        for _ in 0..count {
            text.extend_from_slice(self.line)?;
        }
        text.extend_from_slice(self.behind)?;
        Ok(text)
    }
}

/// How many bytes the image of a source has, or the line at which it is refused, and why.
fn measured(rt: &impl Abort, alloc: Global, source: &[u8]) -> Result<String, Fail> {
    assert!(rt; source.len() < 4_294_967_295);
    match assemble_few(alloc, source) {
        Ok(image) => {
            let size = write_image(alloc, &image)?.len();
            Ok(format!(in alloc; "{size} bytes")?)
        }
        Err(refusal) => {
            let line = refusal.line;
            let why = refusal.why;
            Ok(format!(in alloc; "{line} {why:?}")?)
        }
    }
}

/// Each row has a count of lines, and what the source says with so many.
fn check_counts(
    rt: &impl Abort,
    alloc: Global,
    source: &Repeated,
    rows: &[(u32, &str)],
) -> Result<(), Fail> {
    for row in rows {
        let (count, expected) = *row;
        let text = source.text(alloc, count)?;
        assert_eq!(rt; measured(rt, alloc, &text)?.as_str(), expected);
    }
    Ok(())
}

#[test]
fn counts_names(rt: HostRuntime) -> Result<(), Fail> {
    check_counts(
        &rt,
        rt.alloc(),
        &Repeated {
            front: b"image\nblock \"FNSD\" 0\n",
            line: b"function-set \"a\"\n",
            behind: b"end 0\n",
        },
        &[(65_535, "131161 bytes"), (65_536, "2 Range")],
    )
}

#[test]
fn counts_symbols(rt: HostRuntime) -> Result<(), Fail> {
    check_counts(
        &rt,
        rt.alloc(),
        &Repeated {
            front: b"image\nblock \"SYMD\" 0\n",
            line: b"symbol 1 0 \"\"\n",
            behind: b"end 0\n",
        },
        &[(65_535, "393301 bytes"), (65_536, "2 Range")],
    )
}

#[test]
fn counts_metaclasses(rt: HostRuntime) -> Result<(), Fail> {
    check_counts(
        &rt,
        rt.alloc(),
        &Repeated {
            front: b"image\nblock \"MCLD\" 0\n",
            line: b"metaclass \"\" 0 -\n",
            behind: b"end 0\n",
        },
        &[(65_535, "458836 bytes"), (65_536, "2 Range")],
    )
}

#[test]
fn counts_objects(rt: HostRuntime) -> Result<(), Fail> {
    check_counts(
        &rt,
        rt.alloc(),
        &Repeated {
            front: b"image\nblock \"OBJS\" 0\nobjects 0 0\n",
            line: b"object 1\n",
            behind: b"end 0\n",
        },
        &[(65_535, "393305 bytes"), (65_536, "3 Range")],
    )
}

#[test]
fn counts_blocks_with_the_end(rt: HostRuntime) -> Result<(), Fail> {
    check_counts(
        &rt,
        rt.alloc(),
        &Repeated {
            front: b"image\n",
            line: b"block \"ZZZZ\" 0\n",
            behind: b"end 0\n",
        },
        &[
            (65_535, "655429 bytes"),
            (65_536, "65538 TooLong"),
            (65_537, "65538 TooLong"),
        ],
    )
}

#[test]
fn measures_objects(rt: HostRuntime) -> Result<(), Fail> {
    let alloc = rt.alloc();
    check_counts(
        &rt,
        alloc,
        &Repeated {
            front: b"image\nblock \"OBJS\" 0\nobjects 0 0\nobject 1\nu1 0\nu2 0\n",
            line: b"u4 0\n",
            behind: b"end 0\n",
        },
        &[(16_383, "65636 bytes"), (16_384, "4 Range")],
    )?;
    check_counts(
        &rt,
        alloc,
        &Repeated {
            front: b"image\nblock \"OBJS\" 0\nobjects 0 0\nobject 1\n",
            line: b"u4 0\n",
            behind: b"object 2\nu1 0\nend 0\n",
        },
        &[(16_384, "4 Range")],
    )?;
    check_counts(
        &rt,
        alloc,
        &Repeated {
            front: b"image\nblock \"OBJS\" 0\nobjects 0 1\nobject 1\n",
            line: b"u4 0\n",
            behind: b"end 0\n",
        },
        &[(16_384, "65639 bytes")],
    )
}

#[test]
fn measures_metaclasses(rt: HostRuntime) -> Result<(), Fail> {
    let alloc = rt.alloc();
    check_counts(
        &rt,
        alloc,
        &Repeated {
            front: b"image\nblock \"MCLD\" 0\nmetaclass \"a\" 2 ff\n",
            line: b"prop 1\n",
            behind: b"end 0\n",
        },
        &[(32_763, "65626 bytes"), (32_764, "3 Range")],
    )?;
    check_counts(
        &rt,
        alloc,
        &Repeated {
            front: b"image\nblock \"MCLD\" 0\nmetaclass \"a\" 2 -\n",
            line: b"prop 1\n",
            behind: b"metaclass \"b\" 2 -\nend 0\n",
        },
        &[(32_764, "3 Range"), (65_536, "3 Range")],
    )
}
