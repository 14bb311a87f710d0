// The store at a path.
ghost use Rattle.std.specs.Prelude.{◌≡◌, [], IfOk};
ghost use Rattle.store_disk.specs.{Disk.IsSettled, History.{content, MayLeave}};

use crate::making::{make, there};
use crate::paths::{end_of_links, folder_of};
use std::fs::File;
use std::io::{self, ErrorKind};
use store_disk::{FileDisk, OpenFault};

/// The disk over the regular file at a path, which is made where there is none. The name of the file is on the medium too
/// before any byte of it is read.
pub fn open_disk(rt: &HostRuntime, path: &str) -> Result<FileDisk, OpenFault>
    ensures settled { IfOk result (λ disk. IsSettled (λ d. content d.first d.past) (λ d. MayLeave d.first d.past) disk disk.first) }
    ensures past { IfOk result (λ disk. disk.past ≡ []) }
    ensures faults { IfOk result (λ disk. disk.faults ≡ 0) }
{
    let file = named_file(rt, path)?;
    FileDisk::over(rt.alloc(), file)
}

// The regular file at a path, with its name in the folder on the medium.
fn named_file(rt: &HostRuntime, path: &str) -> io::Result<File> {
    let file = match there(rt, path) {
        Err(error) if error.kind() == ErrorKind::NotFound && !path.is_empty() => make(rt, path)?,
        opened => opened?,
    };
    if !file.metadata()?.is_file() {
        return Err(io::Error::from(ErrorKind::InvalidInput));
    }
    sync_folder(rt, path)?;
    Ok(file)
}

// Syncs the folder in which the file stands that a path names, behind all links.
fn sync_folder(rt: &HostRuntime, path: &str) -> io::Result<()> {
    let name = end_of_links(rt, path)?;
    File::open(rt, folder_of(name.as_str()))?.sync_all()
}
