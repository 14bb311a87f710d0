// Why a process file is not worked over a store to its end.
ghost use Rattle.std.specs.Prelude.{◌≡◌};
ghost use Rattle.case_keep.specs.Statuses.{keep_status, status_of};

use adept_io::ReadRefusal;
use file_model::{FileRefusal, Refused};
use store_disk::OpenFault;
use store_keep::KeepFault;

/// Why a process file was not worked over a store to its end.
#[derive(Drop)]
pub enum Unkept {
    /// The words of the command line are not one path.
    Words,
    /// A read of the file failed.
    Unread,
    /// The file has more than 16,777,216 bytes.
    TooLong,
    /// The file is refused, there and for that reason.
    Refused(Refused),
    /// There was not enough memory for the words, the file or the store's bytes.
    NoMemory,
    /// The store is no regular file that can be opened or made, synced and read.
    NoStore,
    /// Somebody else holds the store's lock.
    Held,
    /// The file at the store's path holds bytes that are no store's.
    NotAStore,
    /// The file's calls were not all stored, or its report was not written.
    Keep(KeepFault),
}

impl Unkept {
    /// The status with which the program ends.
    pub fn status(&self) -> u8
        ensures { result ≡ status_of self.now }
    {
        match self {
            Unkept::Refused(_) => 1,
            Unkept::Words => 2,
            Unkept::Unread => 3,
            Unkept::NoMemory => 5,
            Unkept::TooLong => 6,
            Unkept::NotAStore => 9,
            Unkept::Held => 10,
            Unkept::NoStore => 11,
            Unkept::Keep(fault) => keep_status(*fault),
        }
    }
}

// The status of what befell the store or the report.
pub(crate) fn keep_status(fault: KeepFault) -> u8
    ensures { result ≡ keep_status fault }
{
    match fault {
        KeepFault::Unwritten => 4,
        KeepFault::NoMemory => 5,
        KeepFault::Disk => 7,
        KeepFault::Full => 8,
        KeepFault::Differs(_) | KeepFault::Damaged(_) | KeepFault::TooLong => 9,
    }
}

impl From<ReadRefusal> for Unkept {
    ghost use Rattle.std.specs.Prelude.{◌≡◌};
    ghost use Rattle.case_keep.specs.Input.{of_read};

    ghost from_gives = { λ r e. e ≡ of_read r };

    fn from(refusal: ReadRefusal) -> Unkept {
        match refusal {
            ReadRefusal::Failed => Unkept::Unread,
            ReadRefusal::NoMemory => Unkept::NoMemory,
            ReadRefusal::TooLong => Unkept::TooLong,
        }
    }
}

impl From<FileRefusal> for Unkept {
    ghost use Rattle.std.specs.Prelude.{◌≡◌};
    ghost use Rattle.case_keep.specs.Input.{of_file};

    ghost from_gives = { λ r e. e ≡ of_file r };

    fn from(refusal: FileRefusal) -> Unkept {
        match refusal {
            FileRefusal::Refused(place) => Unkept::Refused(place),
            FileRefusal::NoMemory => Unkept::NoMemory,
        }
    }
}

impl From<OpenFault> for Unkept {
    ghost use Rattle.std.specs.Prelude.{◌≡◌};
    ghost use Rattle.case_keep.specs.Input.{of_open};

    ghost from_gives = { λ r e. e ≡ of_open r };

    fn from(fault: OpenFault) -> Unkept {
        match fault {
            OpenFault::Held => Unkept::Held,
            OpenFault::NotAStore => Unkept::NotAStore,
            OpenFault::TooLong => Unkept::Keep(KeepFault::TooLong),
            OpenFault::NoMemory => Unkept::NoMemory,
            OpenFault::Failed(_) => Unkept::NoStore,
        }
    }
}

impl From<KeepFault> for Unkept {
    ghost use Rattle.std.specs.Prelude.{◌≡◌};
    ghost use Rattle.case_keep.specs.declared.unkept.Unkept.TheVariants as unkept;

    ghost from_gives = { λ r e. e ≡ unkept.Keep r };

    fn from(fault: KeepFault) -> Unkept {
        Unkept::Keep(fault)
    }
}
