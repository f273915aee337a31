use image_maker::{Module, SampleName, make, sample};
use std::alloc::{AllocError, Global};
use std::test::Fail;

/// What `cksum` prints of the file of each sample, under `examples` or `.ci/samples`: its CRC, and how
/// many bytes it has.
const SAMPLES: [(SampleName, u32, usize); 8] = [
    (SampleName::Lib1, 1_965_012_546, 2_048),
    (SampleName::Lib2, 3_681_931_452, 2_048),
    (SampleName::Lib19, 3_005_337_062, 2_048),
    (SampleName::Use, 710_100_657, 2_560),
    (SampleName::Gen, 3_690_787_806, 2_560),
    (SampleName::Deep, 4_054_864_840, 2_048),
    (SampleName::Ops, 2_368_953_606, 3_072),
    (SampleName::Rel, 3_630_008_168, 2_560),
];

// The CRC of `cksum` after one byte more.
fn crc_after(crc: u32, byte: u8) -> u32 {
    let mut next = crc ^ (u32::from(byte) << 24);
    for _ in 0..8 {
        let shifted = next << 1;
        next = if next < 1 << 31 {
            shifted
        } else {
            shifted ^ 0x04C1_1DB7
        };
    }
    next
}

// The CRC of `cksum`, which goes on over the length, its lowest byte first.
fn crc_of(bytes: &[u8]) -> u32 {
    let mut crc = bytes.iter().fold(0, |crc, byte| crc_after(crc, *byte));
    let mut rest = bytes.len();
    for _ in 0..8 {
        if rest > 0 {
            crc = crc_after(crc, (rest % 256) as u8);
            rest /= 256;
        }
    }
    !crc
}

/// The image of a module, if it is sound and memory suffices.
pub(super) fn made(alloc: Global, module: &Module) -> Option<Vec<u8>> {
    if module.sound() {
        make(alloc, module).ok()
    } else {
        None
    }
}

/// The image of a sample.
pub(super) fn sample_image(
    alloc: Global,
    which: SampleName,
) -> Result<Option<Vec<u8>>, AllocError> {
    let module = sample(alloc, which)?;
    Ok(made(alloc, &module))
}

#[test]
fn the_files_are_samples(rt: HostRuntime) -> Result<(), Fail> {
    for (which, crc, len) in SAMPLES {
        let image = sample_image(rt.alloc(), which)?.ok_or("no image")?;
        assert!(rt; (crc_of(&image), image.len()) == (crc, len), "{crc}");
    }
    Ok(())
}
