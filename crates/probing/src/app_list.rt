//! The image files that every context may find by themselves.
ghost use Rattle.std.specs.Prelude.{◌≡◌};
ghost use Rattle.std.specs.List.{find};
ghost use Rattle.std.specs.Option.{option_copied};
ghost use Rattle.host_events.specs.Files.{IsNumbered, first_image, is_of_name};
ghost use Rattle.host_events.specs.Files.{version_at, version_of};

use assembly_name::{SimpleName, Version, same_name};
use std::marker::Model;

/// The image files that every context may find by themselves, and the version of each image. Names
/// are the same without regard to ASCII case. Contracts see the list of the files and that of the
/// versions. No call takes memory.
#[derive(Debug, Drop)]
pub struct AppList {
    files: Vec<(SimpleName, u32)>,
    versions: Vec<Option<Version>>,
}

impl Model for AppList {
    ghost use Rattle.host_events.specs.Files.{Files};
    ghost use Rattle.host_events.specs.Files.{IsNumbered};

    ghost Value = { Files };

    ghost view = { λ a. record { app = a.files.items; versions = a.versions.items } };

    ghost invariant = { λ a. IsNumbered a.files.items a.versions.items };
}

impl AppList {
    /// The list of these files, each by its file name with the number of its image, and of these
    /// versions of the images, from image 1 on, with `None` where the file is no image. There are
    /// fewer than 2^32 versions, and each image number is 1 to their count.
    pub fn of(files: Vec<(SimpleName, u32)>, versions: Vec<Option<Version>>) -> AppList
        requires { IsNumbered files.items versions.items }
        ensures { result ≡ record { app = files.items; versions = versions.items } }
    {
        AppList { files, versions }
    }

    /// The image of the first file of this name; `None` exactly where there is none. It compares
    /// the name with that of each file up to the one found.
    pub fn first(&self, name: &SimpleName) -> Option<u32>
        ensures first { result ≡ first_image self.now name.now }
        ensures numbered { IsNumbered self.now.app self.now.versions }
    {
        let (_, image) = first_of(self.files.as_slice(), name)?;
        Some(*image)
    }

    /// The version of the image of this number, counted from 1; `None` exactly where its file is no
    /// image, and for a number of no image. It takes one step.
    pub fn version(&self, image: u32) -> Option<Version>
        ensures { result ≡ version_of self.now image }
    {
        version_at(self.versions.as_slice(), image)
    }
}

fn first_of<'a>(files: &'a [(SimpleName, u32)], name: &SimpleName) -> Option<&'a (SimpleName, u32)>
    ensures { option_copied result ≡ find (is_of_name name.now) files.now }
{
    files.iter().find(|file| same_name(&file.0, name))
}

fn version_at(versions: &[Option<Version>], image: u32) -> Option<Version>
    ensures { result ≡ version_at versions.now image }
{
    let index = image.checked_sub(1)?;
    *versions.get(index as usize)?
}
