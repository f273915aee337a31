//! The image files of a script, each read once.
ghost use Rattle.std.specs.Prelude.{◌≡◌, ◌≤◌, ◌++◌, ◌∷◌, [], length, IfOk, IfErr};
ghost use Rattle.std.specs.Arc.{arc_value};
ghost use Rattle.assembly_image.specs.Reading.{image_limit, module_of, reading_of};
ghost use Rattle.assembly_image.specs.Reading.FileReading.{Good};
ghost use Rattle.bind_flow.specs.Readings.{meaning};
ghost use Rattle.host_script.specs.Worded.{IsWordedVersion};
ghost use Rattle.alc_program.specs.Headline.{IsUnread, during};
ghost use Rattle.alc_program.specs.Images.{AreRead, HasWordedVersion};
ghost use Rattle.alc_program.specs.Inspect.{ReadsAs};

use crate::status::Status;
use assembly_image::{AssemblyImage, ImageFault, read_image};
use assembly_name::Version;
use bind_flow::{ImageFile, ImageReading, Images};
use cli_words::Utf8Text;
use host_script::{ImageLine, ImageLines};
use plug_io::{Files, Found};
use std::alloc::Global;
use std::sync::Arc;

/// The most bytes of an image.
pub(crate) const IMAGE_LIMIT: u32 = 4_194_304;

/// How the files of these images read, in the order of the lines, or the status that tells why this
/// is not known.
pub(crate) fn read_images<F: Files>(
    alloc: Global,
    files: &mut F,
    lines: &ImageLines,
) -> Result<Arc<Images>, Status>
    requires { length lines.now ≤ 256 }
    ensures images { IfOk result (λ images.
        AreRead (F.held files.old) lines.now (arc_value images)) }
    ensures status { IfErr result (IsUnread (during F.held F.faults files.old files.new)) }
    ensures held { F.held files.new ≡ F.held files.old }
    ensures faults { F.faults files.old ≤ F.faults files.new }
{
    let mut images = Vec::new(alloc);
    for index in 0..lines.count() {
        let Some(line) = lines.line(index as u32 + 1) else {
            unreachable!();
        };
        let image = read_line(alloc, files, line)?;
        push_image(&mut images, image)?;
    }
    share_images(alloc, Images::of(images))
}

/// Puts an image at the end, or the status `OutOfMemory`.
fn push_image(images: &mut Vec<ImageFile>, image: ImageFile) -> Result<(), Status>
    ensures items { IfOk result (λ _. images.new.items ≡ images.old.items ++ image ∷ []) }
    ensures memory { IfErr result (λ status. status ≡ Status.OutOfMemory) }
{
    images.push(image).map_err(|_| Status::OutOfMemory)
}

/// The images, shared, or the status `OutOfMemory`.
fn share_images(alloc: Global, images: Images) -> Result<Arc<Images>, Status>
    ensures same { IfOk result (λ shared. arc_value shared ≡ images) }
    ensures memory { IfErr result (λ status. status ≡ Status.OutOfMemory) }
{
    Arc::new(alloc, images).map_err(|_| Status::OutOfMemory)
}

/// How the file of the image of this line reads, or the status that tells why this is not known.
fn read_line<F: Files>(alloc: Global, files: &mut F, line: &ImageLine) -> Result<ImageFile, Status>
    ensures reading { IfOk result (λ image.
        ReadsAs (F.held files.old) line.now.path (meaning image.reading)) }
    ensures version { IfOk result (λ image. HasWordedVersion (meaning image.reading)) }
    ensures status { IfErr result (IsUnread (during F.held F.faults files.old files.new)) }
    ensures held { F.held files.new ≡ F.held files.old }
    ensures faults { F.faults files.old ≤ F.faults files.new }
{
    let path = line.path.as_str();
    let copy = String::from_str(alloc, path).map_err(|_| Status::OutOfMemory)?;
    let reading = read_file(alloc, files, path)?;
    Ok(ImageFile {
        path: Utf8Text::of(copy),
        reading,
    })
}

/// How the file reads as an image, or the status that tells why this is not known.
pub(crate) fn read_file<F: Files>(
    alloc: Global,
    files: &mut F,
    file: &str,
) -> Result<ImageReading, Status>
    ensures reading { IfOk result (λ reading.
        ReadsAs (F.held files.old) file.now (meaning reading)) }
    ensures version { IfOk result (λ reading. HasWordedVersion (meaning reading)) }
    ensures status { IfErr result (IsUnread (during F.held F.faults files.old files.new)) }
    ensures held { F.held files.new ≡ F.held files.old }
    ensures faults { F.faults files.old ≤ F.faults files.new }
{
    match files.read(alloc, file, IMAGE_LIMIT as usize) {
        Found::Bytes(bytes) => read_bytes(alloc, bytes),
        Found::Absent => Ok(ImageReading::Absent),
        Found::TooLong => Ok(ImageReading::TooLong),
        Found::Failed => Err(Status::ReadFault),
        Found::OutOfMemory => Err(Status::OutOfMemory),
    }
}

/// How the bytes of a file read as an image, or the status `OutOfMemory`.
fn read_bytes(alloc: Global, bytes: Vec<u8>) -> Result<ImageReading, Status>
    requires { length bytes.items ≤ image_limit }
    ensures reading { IfOk result (λ reading. meaning reading ≡ reading_of bytes.items) }
    ensures version { IfOk result (λ reading. HasWordedVersion (meaning reading)) }
    ensures memory { IfErr result (λ status. status ≡ Status.OutOfMemory) }
{
    let shared = Arc::new(alloc, bytes).map_err(|_| Status::OutOfMemory)?;
    match read_image(alloc, shared) {
        Ok(image) => shared_image(alloc, image),
        Err(ImageFault::Bad(failed)) => Ok(ImageReading::Bad(failed)),
        Err(ImageFault::OutOfMemory) => Err(Status::OutOfMemory),
    }
}

/// The reading of an image that is shared, or the status `OutOfMemory`.
fn shared_image(alloc: Global, image: AssemblyImage) -> Result<ImageReading, Status>
    ensures reading { IfOk result (λ reading. meaning reading ≡ Good (module_of image)) }
    ensures version { IfOk result (λ reading. HasWordedVersion (meaning reading)) }
    ensures memory { IfErr result (λ status. status ≡ Status.OutOfMemory) }
{
    tell_words(image.version());
    let image = Arc::new(alloc, image).map_err(|_| Status::OutOfMemory)?;
    Ok(ImageReading::Good(image))
}

/// Tells that each part of a version is a number of 16 bits. The call does nothing.
fn tell_words(version: Version)
    ensures { IsWordedVersion version }
{
    let _major = version.major;
}
