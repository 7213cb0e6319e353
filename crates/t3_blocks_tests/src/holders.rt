//! Holders that were worked out by hand.
use std::test::Fail;
use t3_holder::{Holder, Raw, holder_of, raw_bytes, raw_of, read_raw};

/// The example of the crate's first page.
#[test]
fn reads_a_holder_and_asks_what_it_means(rt: HostRuntime) {
    let raw = read_raw(&[7, 0xFE, 0xFF, 0xFF, 0xFF]);
    assert_eq!(rt; holder_of(raw), Some(Holder::Int(-2)));
    assert_eq!(rt;
        raw_bytes(raw_of(Holder::Int(-2))),
        [7, 0xFE, 0xFF, 0xFF, 0xFF]
    );
}

#[test]
fn reads_the_worked_holders(rt: HostRuntime) -> Result<(), Fail> {
    let rows: [([u8; 5], Raw, Option<Holder>); 6] = [
        (
            [0x07, 0xFF, 0xFF, 0xFF, 0xFF],
            Raw {
                tag: 7,
                bits: 4_294_967_295,
            },
            Some(Holder::Int(-1)),
        ),
        (
            [0x06, 0x05, 0x00, 0xAA, 0xBB],
            Raw {
                tag: 6,
                bits: 0xBBAA_0005,
            },
            Some(Holder::Prop(5)),
        ),
        ([0x0D, 0, 0, 0, 0], Raw { tag: 13, bits: 0 }, None),
        ([0x05, 0, 0, 0, 0], Raw { tag: 5, bits: 0 }, None),
        (
            [0x06, 0, 0, 1, 0],
            Raw {
                tag: 6,
                bits: 0x1_0000,
            },
            None,
        ),
        (
            [0x01, 1, 2, 3, 4],
            Raw {
                tag: 1,
                bits: 0x0403_0201,
            },
            Some(Holder::Nil),
        ),
    ];
    for (bytes, raw, holder) in &rows {
        assert_eq!(rt; read_raw(bytes), *raw);
        assert_eq!(rt; raw_bytes(*raw), *bytes);
        assert_eq!(rt; holder_of(*raw), *holder);
    }
    Ok(())
}

#[test]
fn gives_holders_their_bits(rt: HostRuntime) -> Result<(), Fail> {
    let least = raw_of(Holder::Int(-2_147_483_648));
    assert_eq!(rt;
        least,
        Raw {
            tag: 7,
            bits: 0x8000_0000
        }
    );
    assert_eq!(rt;
        raw_of(Holder::Prop(65_535)),
        Raw {
            tag: 6,
            bits: 65_535
        }
    );
    assert_eq!(rt; raw_of(Holder::Shown(7)), Raw { tag: 9, bits: 7 });
    assert_eq!(rt; raw_of(Holder::True), Raw { tag: 2, bits: 0 });
    Ok(())
}
