ghost use Rattle.std.specs.Prelude.{◌-◌, ◌^◌, ◌<◌, length};

use crate::{Pe, read_pe};
use cli_words::CheckCode::{Cut, Magic, NoCli, NoMz, NoPe, NotIlOnly, Outside};
use cli_words::{CheckCode, FailedCheck, Span};

const LENGTH: usize = 0x500;

/// Words of an image with 32-bit addresses. Two sections begin in memory at 2000 and 2100 and share
/// the bytes up to 2200; the second reaches to 2400 there and past the file's end. The CLI header
/// stands at 208, and says that 40 bytes of metadata stand at 220.
const NARROW: [(usize, u32); 19] = [
    (0, 0x0090_5A4D),
    (0x3C, 0x80),
    (0x80, 0x4550),
    (0x84, 0x0002_014C),
    (0x94, 0x2102_00E0),
    (0x98, 0x0006_010B),
    (0xF4, 16),
    (0x168, 0x2008),
    (0x16C, 0x48),
    (0x178 + 12, 0x2000),
    (0x178 + 16, 0x200),
    (0x178 + 20, 0x200),
    (0x1A0 + 12, 0x2100),
    (0x1A0 + 16, 0x300),
    (0x1A0 + 20, 0x400),
    (0x208, 0x48),
    (0x210, 0x2020),
    (0x214, 0x40),
    (0x218, 3),
];

/// The words that differ where addresses have 64 bits: all after the optional header's first part
/// stand 16 bytes further, up to the sections.
const WIDE: [(usize, u32); 19] = [
    (0, 0x0090_5A4D),
    (0x3C, 0x80),
    (0x80, 0x4550),
    (0x84, 0x0002_8664),
    (0x94, 0x2022_00F0),
    (0x98, 0x0006_020B),
    (0x104, 16),
    (0x178, 0x2008),
    (0x17C, 0x48),
    (0x188 + 12, 0x2000),
    (0x188 + 16, 0x200),
    (0x188 + 20, 0x200),
    (0x1B0 + 12, 0x2100),
    (0x1B0 + 16, 0x300),
    (0x1B0 + 20, 0x400),
    (0x208, 0x48),
    (0x210, 0x2020),
    (0x214, 0x40),
    (0x218, 3),
];

/// Where the parts of the narrow image lie.
const READ: Pe = Pe {
    sections_at: 0x178,
    sections: 2,
    root_at: 0x220,
    root_len: 0x40,
};

#[test]
fn reads_both_forms(rt: HostRuntime) {
    assert_eq!(rt; read_pe(&image(&NARROW)), Ok(READ));
    let wide = Pe {
        sections_at: 0x188,
        ..READ
    };
    assert_eq!(rt; read_pe(&image(&WIDE)), Ok(wide));
}

#[test]
fn refuses_at_the_first_check_that_fails(rt: HostRuntime) {
    let rows: [(usize, u32, CheckCode, u32); 20] = [
        (0, 0x5A00, NoMz, 0),
        (0x3C, 0xFFFF_FFFF, Cut, 0x500),
        (0x3C, 0x4E9, Cut, 0x500),
        (0x3C, 0x4E8, NoPe, 0x4E8),
        (0x80, 0x0100_4550, NoPe, 0x80),
        (0x98, 0x0107, Magic, 0x98),
        (0x98, 0x020B, NoCli, 0x94),
        (0x94, 215, NoCli, 0x94),
        (0x94, 216, Outside, 0x168),
        (0xF4, 14, NoCli, 0xF4),
        (0x168, 0, NoCli, 0x168),
        (0x84, 0x0017_014C, Cut, 0x500),
        (0x84, 0x0000_014C, Outside, 0x168),
        (0x94, 0xFFFF, Cut, 0x500),
        (0x168, 0x1FFF, Outside, 0x168),
        (0x168, 0x21E9, Cut, 0x500),
        (0x168, 0x23E9, Outside, 0x168),
        (0x218, 2, NotIlOnly, 0x218),
        (0x210, 0x23C1, Outside, 0x210),
        (0x214, 0xFFFF_FFFF, Outside, 0x210),
    ];
    for (at, value, code, place) in rows {
        let mut changed = image(&NARROW);
        put(&mut changed, at, value);
        assert_eq!(rt; fault(&changed), Some(FailedCheck { code, at: place }));
    }
    let whole = image(&NARROW);
    for end in [
        0, 1, 2, 0x3F, 0x40, 0x97, 0x98, 0x99, 0x9A, 0x16F, 0x170, 0x1C7, 0x1C8, 0x21F,
    ] {
        let cut = FailedCheck {
            code: Cut,
            at: end as u32,
        };
        assert_eq!(rt; fault(whole.get(..end).unwrap_or(&whole)), Some(cut));
    }
    assert_eq!(rt; fault(whole.get(..0x220).unwrap_or(&whole)), None);
}

#[test]
fn finds_places_by_the_first_section(rt: HostRuntime) {
    let bytes = image(&NARROW);
    let rows: [(u32, u32, Option<usize>); 9] = [
        (0x2000, 0x200, Some(0x200)),
        (0x2000, 0x201, None),
        (0x1FFF, 1, None),
        (0x2100, 0x100, Some(0x300)),
        (0x2100, 0x101, Some(0x400)),
        (0x23FF, 1, Some(0x6FF)),
        (0x23FF, 2, None),
        (0x2400, 0, Some(0x700)),
        (0xFFFF_FFFF, 0xFFFF_FFFF, None),
    ];
    for (rva, len, at) in rows {
        let span = at.map(|at| Span {
            at,
            len: len as usize,
        });
        assert_eq!(rt; READ.at(&bytes, rva, len), span);
    }
    assert_eq!(rt; READ.at(&[], 0x2000, 0), None);
}

fn image(words: &[(usize, u32)]) -> [u8; LENGTH] {
    let mut image = [0; LENGTH];
    for (at, word) in words {
        put(&mut image, *at, *word);
    }
    image
}

fn put(image: &mut [u8; LENGTH], at: usize, word: u32) {
    if at <= LENGTH - 4 {
        image[at..at + 4].copy_from_slice(&word.to_le_bytes());
    }
}

fn fault(bytes: &[u8]) -> Option<FailedCheck>
    requires { length bytes.now < 2 ^ 32 - 1 }
{
    read_pe(bytes).err()
}
