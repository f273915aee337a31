//! What a run reads of its image files: under which names every context finds them, and their
//! versions.
ghost use Rattle.std.specs.Prelude.{◌≡◌, ◌≤◌, ◌++◌, length, IfOk};
ghost use Rattle.std.specs.List.{filter_map};
ghost use Rattle.std.specs.Option.{option_and_then, option_to_list};
ghost use Rattle.bind_flow.specs.Images.{reading_at, version_read, versions_of};
ghost use Rattle.alc_program.specs.Images.{app_file, ends_alike, file_name, files_of};
ghost use Rattle.alc_program.specs.Images.{last_part, stem};

use assembly_name::{SimpleName, Version};
use bind_flow::{ImageReading, Images};
use cli_words::Units;
use host_script::{AppLine, ImageLines, Script};
use probing::AppList;
use std::alloc::{AllocError, Global};

/// The unit `/`.
const SLASH: u16 = 0x2F;

/// The units of `.dll`.
const DLL: [u16; 4] = [0x2E, 0x64, 0x6C, 0x6C];

/// The units of `.exe`.
const EXE: [u16; 4] = [0x2E, 0x65, 0x78, 0x65];

/// What a run of the script reads of its images.
pub(crate) fn files_of(
    alloc: Global,
    script: &Script,
    images: &Images,
) -> Result<AppList, AllocError>
    requires few { length script.now.images ≤ 256 }
    requires count { length images.now ≡ length script.now.images }
    ensures { IfOk result (λ files. files ≡ files_of script.now images.now) }
{
    let files = app_files(alloc, &script.images, script.app.items())?;
    let versions = versions_of(alloc, images, script.images.count())?;
    Ok(AppList::of(files, versions))
}

/// The file names of the applications, each with the number of its image.
fn app_files(
    alloc: Global,
    lines: &ImageLines,
    app: &[AppLine],
) -> Result<Vec<(SimpleName, u32)>, AllocError>
    ensures { IfOk result (λ files. files.items ≡ filter_map (app_file lines.now) app.now) }
{
    let mut files = Vec::new(alloc);
    for line in app {
        push_if_some(&mut files, app_file(alloc, lines, line)?)?;
    }
    Ok(files)
}

/// Puts a file at the end, if there is one.
fn push_if_some(
    files: &mut Vec<(SimpleName, u32)>,
    file: Option<(SimpleName, u32)>,
) -> Result<(), AllocError>
    ensures { IfOk result (λ _. files.new.items ≡ files.old.items ++ option_to_list file) }
{
    match file {
        Some(file) => Ok(files.push(file)?),
        None => Ok(()),
    }
}

/// The file name of an application, with the number of its image.
fn app_file(
    alloc: Global,
    lines: &ImageLines,
    app: &AppLine,
) -> Result<Option<(SimpleName, u32)>, AllocError>
    ensures { IfOk result (λ file. file ≡ app_file lines.now app.now) }
{
    match lines.line(app.image) {
        Some(line) => Ok(Some((file_name(alloc, line.path.as_str())?, app.image))),
        None => Ok(None),
    }
}

/// The file name of a path: what follows its last `/`, without a last `.dll` or `.exe` of any case.
fn file_name(alloc: Global, path: &str) -> Result<SimpleName, AllocError>
    ensures { IfOk result (λ name. name ≡ file_name path.now) }
{
    // A path is UTF-8, so that only memory can be wanting.
    let units = Units::from_utf8(alloc, path.as_bytes()).map_err(|_| AllocError)?;
    let name = stem(alloc, last_part(units.units()))?;
    let units = Units::of(alloc, name.to_vec(alloc)?)?;
    Ok(SimpleName::of(units))
}

/// What follows the last `/`, or all units.
fn last_part(units: &[u16]) -> &[u16]
    ensures { result.now ≡ last_part units.now }
{
    let mut part = units;
    let mut rest = units;
    while let [unit, after @ ..] = rest {
        rest = after;
        if *unit == SLASH {
            part = after;
        }
    }
    part
}

/// The units without a last `.dll` or `.exe`.
fn stem(alloc: Global, units: &[u16]) -> Result<&[u16], AllocError>
    ensures { IfOk result (λ kept. kept.now ≡ stem units.now) }
{
    let is_library = ends_alike(alloc, units, &DLL)?;
    let is_program = ends_alike(alloc, units, &EXE)?;
    if is_library || is_program {
        Ok(&units[..units.len().saturating_sub(4)])
    } else {
        Ok(units)
    }
}

/// Whether the units end like these, without regard to ASCII case.
fn ends_alike(alloc: Global, units: &[u16], ending: &[u16]) -> Result<bool, AllocError>
    ensures { IfOk result (λ does. does ≡ ends_alike units.now ending.now) }
{
    let start = units.len().saturating_sub(ending.len());
    let end = Units::of(alloc, units[start..].to_vec(alloc)?)?;
    let ending = Units::of(alloc, ending.to_vec(alloc)?)?;
    Ok(end.eq_ignore_ascii_case(&ending))
}

/// The version of each of so many images.
fn versions_of(
    alloc: Global,
    images: &Images,
    count: usize,
) -> Result<Vec<Option<Version>>, AllocError>
    requires few { count ≤ 256 }
    requires count { length images.now ≡ count }
    ensures { IfOk result (λ versions. versions.items ≡ versions_of images.now) }
{
    let mut versions = Vec::with_capacity(alloc, count)?;
    for index in 0..count {
        versions.push(version_of(images, index as u32 + 1))?;
    }
    Ok(versions)
}

fn version_of(images: &Images, image: u32) -> Option<Version>
    ensures { result ≡ option_and_then version_read (reading_at images.now image) }
{
    match images.reading(image)? {
        ImageReading::Good(image) => Some(image.version()),
        _ => None,
    }
}
