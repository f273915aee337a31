//! Reading the headers of a PE file, down to the place of its metadata.
ghost use Rattle.std.specs.Prelude.{◌≡◌, ◌+◌, ◌-◌, ◌^◌, ◌<◌, ◌≤◌, length, IfOk};
ghost use Rattle.cli_words.specs.Check.{first_fault, answer};
ghost use Rattle.pe_image.specs.Layout.{signature_place, directory_place};
ghost use Rattle.pe_image.specs.Layout.{cli_place, metadata, found};
ghost use Rattle.pe_image.specs.Checks.{header_checks, optional_checks};
ghost use Rattle.pe_image.specs.Checks.{cli_checks, metadata_checks, pe_checks};
ghost use Rattle.pe_image.specs.Reading.{pe_of};

use crate::pe::Pe;
use crate::section::{SECTION_HEADER, Sections};
use cli_words::{CheckCode, FailedCheck, Span, u16_at, u32_at};

/// The bytes of the header that comes first in the file.
const DOS_HEADER: usize = 0x40;

/// Where in it the place of the PE signature stands.
const SIGNATURE_PLACE: usize = 0x3C;

/// The bytes of the PE signature and of the file header after it.
pub(crate) const FILE_HEADER: usize = 24;

/// Where the length of the optional header stands, from the PE signature on.
pub(crate) const OPTIONAL_LENGTH: usize = 20;

/// The magic number of an optional header for addresses of 32 bits.
const PE32: u16 = 0x10B;

/// That of one for addresses of 64 bits.
const PE32_PLUS: u16 = 0x20B;

/// How many bytes further the data directories stand in the latter.
const WIDER: usize = 16;

/// Where the count of the data directories stands in the former.
const DIRECTORY_COUNT: usize = 92;

/// Where directory 14 stands there, which tells of the CLI header.
const CLI_DIRECTORY: usize = 208;

/// Where that directory ends.
const CLI_DIRECTORY_END: usize = 216;

/// The least count of directories that has directory 14.
const LEAST_DIRECTORIES: u32 = 15;

/// The bytes of the CLI header that are read.
const CLI_HEADER: u32 = 24;

/// Where the RVA of the metadata stands in the CLI header.
const METADATA_RVA: usize = 8;

/// Where the length of the metadata stands there.
const METADATA_LENGTH: usize = 12;

/// Where the flags stand there.
const FLAGS: usize = 16;

/// The flag that says that all code is IL.
const IL_ONLY: u32 = 1;

/// Where the parts of an image lie. Refused exactly at the first check that fails, in this order;
/// where the file ends within a structure that is read next, that is `Cut`, at the file's length.
/// The structures are the first two bytes, the word at 3C, the 24 bytes where that says, the half
/// word after them, the optional header up to the end of directory 14, the section headers and the
/// CLI header. ECMA-335 II.25.2, II.25.3.
///
/// | Check | What is wrong | At which byte |
/// |---|---|---|
/// | `NoMz` | the first two bytes are not `MZ` | 0 |
/// | `NoPe` | no PE signature where the word at 3C says | there |
/// | `Magic` | the optional header's magic number is neither 10B nor 20B | at it |
/// | `NoCli` | the optional header is too short for directory 14 | at its length |
/// | `NoCli` | it counts fewer than 15 directories | at the count |
/// | `NoCli` | the RVA of directory 14 is 0 | at the directory |
/// | `Outside` | no section holds the CLI header | at the directory |
/// | `NotIlOnly` | the code is not IL alone | at the flags |
/// | `Outside` | no section holds the metadata | at its RVA in the CLI header |
pub fn read_pe(bytes: &[u8]) -> Result<Pe, FailedCheck>
    requires { length bytes.now < 2 ^ 32 - 1 }
    ensures { result ≡ answer (first_fault (pe_checks bytes.now)) (pe_of bytes.now) }
{
    let signature = signature_place(bytes)?;
    let directory = directory_place(bytes, signature)?;
    let sections = Sections::of(bytes, signature);
    let cli = cli_place(bytes, sections, directory)?;
    let root = metadata(bytes, sections, cli)?;
    Ok(Pe {
        sections_at: sections.at,
        sections: sections.count,
        root_at: root.at,
        root_len: root.len,
    })
}

#[tactic(auto, unfolding(crate::specs::Layout::signature_place, crate::specs::Checks::header_checks))]
fn signature_place(bytes: &[u8]) -> Result<usize, FailedCheck>
    requires { length bytes.now < 2 ^ 32 - 1 }
    ensures answer { result
        ≡ answer (first_fault (header_checks bytes.now)) (signature_place bytes.now) }
    ensures within { IfOk result (λ signature. signature + 24 ≤ length bytes.now) }
{
    if bytes.len() < 2 {
        return Err(cut(bytes));
    }
    if !bytes.starts_with(b"MZ") {
        return Err(FailedCheck::of(CheckCode::NoMz, 0));
    }
    if bytes.len() < DOS_HEADER {
        return Err(cut(bytes));
    }
    let signature = u32_at(bytes, SIGNATURE_PLACE) as usize;
    if bytes.len() < signature + FILE_HEADER {
        return Err(cut(bytes));
    }
    if !bytes[signature..].starts_with(b"PE\0\0") {
        return Err(FailedCheck::of(CheckCode::NoPe, signature));
    }
    Ok(signature)
}

#[tactic(auto, unfolding(crate::specs::Layout::directory_place, crate::specs::Checks::optional_checks))]
fn directory_place(bytes: &[u8], signature: usize) -> Result<usize, FailedCheck>
    requires short { length bytes.now < 2 ^ 32 - 1 }
    requires within { signature + 24 ≤ length bytes.now }
    ensures answer { result ≡ answer (first_fault (optional_checks bytes.now signature))
        (directory_place bytes.now signature) }
    ensures within { IfOk result (λ directory. directory + 8 ≤ length bytes.now) }
{
    let optional = signature + FILE_HEADER;
    if bytes.len() < optional + 2 {
        return Err(cut(bytes));
    }
    let magic = u16_at(bytes, optional);
    if magic != PE32 && magic != PE32_PLUS {
        return Err(FailedCheck::of(CheckCode::Magic, optional));
    }
    let wider = if magic == PE32_PLUS { WIDER } else { 0 };
    let length_place = signature + OPTIONAL_LENGTH;
    if usize::from(u16_at(bytes, length_place)) < CLI_DIRECTORY_END + wider {
        return Err(FailedCheck::of(CheckCode::NoCli, length_place));
    }
    if bytes.len() < optional + CLI_DIRECTORY_END + wider {
        return Err(cut(bytes));
    }
    let count = optional + DIRECTORY_COUNT + wider;
    if u32_at(bytes, count) < LEAST_DIRECTORIES {
        return Err(FailedCheck::of(CheckCode::NoCli, count));
    }
    let directory = optional + CLI_DIRECTORY + wider;
    if u32_at(bytes, directory) == 0 {
        return Err(FailedCheck::of(CheckCode::NoCli, directory));
    }
    Ok(directory)
}

#[tactic(auto, unfolding(crate::specs::Layout::cli_place, crate::specs::Checks::cli_checks))]
fn cli_place(bytes: &[u8], sections: Sections, directory: usize) -> Result<usize, FailedCheck>
    requires short { length bytes.now < 2 ^ 32 - 1 }
    requires within { directory + 8 ≤ length bytes.now }
    requires low { sections.at < 2 ^ 33 }
    ensures answer { result
        ≡ answer (first_fault (cli_checks bytes.now sections.at sections.count directory))
        (cli_place bytes.now sections.at sections.count directory) }
    ensures low { IfOk result (λ cli. cli < 2 ^ 33) }
{
    if bytes.len() < sections.at + SECTION_HEADER * usize::from(sections.count) {
        return Err(cut(bytes));
    }
    match sections.span(bytes, u32_at(bytes, directory), CLI_HEADER) {
        Some(header) => Ok(header.at),
        None => Err(FailedCheck::of(CheckCode::Outside, directory)),
    }
}

#[tactic(auto, unfolding(crate::specs::Layout::metadata, crate::specs::Checks::metadata_checks))]
fn metadata(bytes: &[u8], sections: Sections, cli: usize) -> Result<Span, FailedCheck>
    requires short { length bytes.now < 2 ^ 32 - 1 }
    requires low { cli < 2 ^ 33 }
    ensures { result
        ≡ answer (first_fault (metadata_checks bytes.now sections.at sections.count cli))
        (found (metadata bytes.now sections.at sections.count cli)) }
{
    if bytes.len() < cli + CLI_HEADER as usize {
        return Err(cut(bytes));
    }
    if u32_at(bytes, cli + FLAGS) & IL_ONLY == 0 {
        return Err(FailedCheck::of(CheckCode::NotIlOnly, cli + FLAGS));
    }
    let rva = u32_at(bytes, cli + METADATA_RVA);
    let len = u32_at(bytes, cli + METADATA_LENGTH);
    sections
        .span(bytes, rva, len)
        .ok_or(FailedCheck::of(CheckCode::Outside, cli + METADATA_RVA))
}

/// A structure runs past the end of the file.
fn cut(bytes: &[u8]) -> FailedCheck
    requires { length bytes.now < 2 ^ 32 - 1 }
    ensures { result ≡ record { code = CheckCode.Cut; at = length bytes.now } }
{
    FailedCheck::of(CheckCode::Cut, bytes.len())
}
