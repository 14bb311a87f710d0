// A new store: it gets its mark under another name in the same folder, and then its own name, by a link that fails where
// the name is there.
use crate::paths::{end_of_links, folder_of};
use std::fs::{self, File};
use std::hash::{BuildHasher, RandomState};
use std::io::{self, ErrorKind};
use store_disk::put_mark;

/// Makes the store at a path that names no file, or opens the one that somebody else made meanwhile.
pub(crate) fn make(rt: &HostRuntime, path: &str) -> io::Result<File> {
    let name = end_of_links(rt, path)?;
    let folder = folder_of(name.as_str());
    // A folder that can't be synced is told before anything is made in it.
    File::open(rt, folder)?;
    let other = other_name(rt, folder)?;
    let file = File::create_new(rt, other.as_str())?;
    let named = put_mark(&file).and_then(|()| fs::hard_link(rt, other.as_str(), name.as_str()));
    fs::remove_file(rt, other.as_str())?;
    match named {
        Ok(()) => Ok(file),
        Err(error) if error.kind() == ErrorKind::AlreadyExists => there(rt, name.as_str()),
        Err(error) => Err(error),
    }
}

/// The file at a path that is there.
pub(crate) fn there(rt: &HostRuntime, path: &str) -> io::Result<File> {
    File::options().read(true).write(true).open(rt, path)
}

// Another name in a folder, which no other run has. A stop may leave a file of that name, and nobody reads it.
fn other_name(rt: &HostRuntime, folder: &str) -> io::Result<String> {
    let number = RandomState::new(rt)?.hash_one(&0u8);
    Ok(format!(in rt.alloc(); "{folder}/.rushowa-{number}")?)
}
