//! The images of a run: how their files read, and the code that an image brings.
ghost use Rattle.std.specs.Prelude.{◌≡◌, ◌<◌, ◌^◌, length};
ghost use Rattle.std.specs.Option.{option_copied, option_map};
ghost use Rattle.bind_flow.specs.Images.{reading_at};
ghost use Rattle.bind_flow.specs.Readings.{meaning, readings};

use assembly_image::AssemblyImage;
use cli_words::{FailedCheck, Utf8Text};
use host_events::Code;
use std::marker::Model;
use std::sync::Arc;

/// How the file of an image reads.
#[derive(Drop)]
pub enum ImageReading {
    /// There is no such file.
    Absent,
    /// It is longer than an image may be.
    TooLong,
    /// It is no image: the first check that it fails.
    Bad(FailedCheck),
    /// It is an image.
    Good(Arc<AssemblyImage>),
}

/// The file of an image.
#[derive(Drop)]
pub struct ImageFile {
    pub path: Utf8Text,
    pub reading: ImageReading,
}

/// The images of a run, counted from 1. Contracts see how each file reads.
#[derive(Drop)]
pub struct Images {
    files: Vec<ImageFile>,
}

impl Model for Images {
    ghost use Rattle.std.specs.Prelude.{List, length, ◌<◌, ◌^◌};
    ghost use Rattle.assembly_image.specs.Reading.{FileReading};
    ghost use Rattle.bind_flow.specs.Readings.{readings};

    ghost Value = { List FileReading };

    ghost view = { λ images. readings images.files.items };

    ghost invariant = { λ images. length images.files.items < 2 ^ 32 };
}

impl Images {
    /// The images of these files, from image 1 on.
    pub fn of(files: Vec<ImageFile>) -> Images
        requires few { length files.items < 2 ^ 32 }
        ensures { result ≡ readings files.items }
    {
        Images { files }
    }

    /// How the file of the image of this number reads: `None` exactly for 0 and past the last image.
    pub fn reading(&self, image: u32) -> Option<&ImageReading>
        ensures { option_map meaning (option_copied result) ≡ reading_at self.now image }
    {
        let file = self.files.get(image.checked_sub(1)? as usize)?;
        Some(&file.reading)
    }
}

/// The code of an image that is published in a context.
#[derive(Drop)]
pub struct ImageCode {
    /// The image's number, counted from 1.
    pub image: u32,
    /// The context in which its assembly lives.
    pub context: u32,
    pub shared: Arc<AssemblyImage>,
}

impl Code for ImageCode {
    ghost image = { λ code. code.image };

    fn image(&self) -> u32 {
        self.image
    }
}
