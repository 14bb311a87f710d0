// The store that the program's word names.
ghost use Rattle.std.specs.Prelude.{IfOk};
ghost use Rattle.store_disk.specs.{Disk.Only, History.{content, MayLeave}};

use crate::ends::End;
use command_words::{WordFault, word};
use std::io;
use store_disk::{FileDisk, OpenFault};
use store_file::open_disk;

/// The path of the store, unless no file can be opened by it, and the system's number for why it failed, where it did and
/// there is one.
#[derive(Default, Drop)]
pub struct Store {
    pub path: Option<String>,
    pub reason: Option<i32>,
}

impl Store {
    /// Says on standard error what befell the store, with its path, and why where the system said so.
    pub fn tell(&self, rt: &HostRuntime, what: &str) -> io::Result<()> {
        let Some(path) = &self.path else {
            return eprintln!(rt; "serve: {what}: its path is no UTF-8, or too long");
        };
        match self.reason {
            None => eprintln!(rt; "serve: {what}: {path}"),
            Some(number) => {
                let reason = io::Error::from_raw_os_error(number);
                eprintln!(rt; "serve: {what}: {path}: {reason}")
            }
        }
    }
}

/// The path that is the one word behind the program's name, or none where it is too long or no UTF-8.
pub fn path(rt: &HostRuntime) -> Result<Option<String>, End> {
    match (word(rt, 1), word(rt, 2)) {
        (Ok(Some(path)), Ok(None)) => Ok(Some(path)),
        (Err(WordFault::NoText), Ok(None)) => Ok(None),
        (Err(WordFault::NoMemory), Ok(None)) => Err(End::NoMemory),
        _ => Err(End::Words),
    }
}

/// The disk over the store's file.
pub fn open(rt: &HostRuntime, store: &mut Store) -> Result<FileDisk, End>
    ensures { IfOk result (λ disk. Only (content disk.first disk.past) (MayLeave disk.first disk.past)) }
{
    let Some(path) = &store.path else {
        return Err(End::NoStore);
    };
    match open_disk(rt, path.as_str()) {
        Ok(disk) => Ok(disk),
        Err(fault) => {
            if let OpenFault::Failed(reason) = fault {
                store.reason = reason;
            }
            Err(End::from(fault))
        }
    }
}
