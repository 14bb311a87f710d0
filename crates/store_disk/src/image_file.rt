// The bytes of a file that a disk lies over: a mark, and behind it the image.
ghost use Rattle.std.specs.Prelude.{◌≤◌, ◌↔◌, ◌≡◌, IsTrue, length, take};

use crate::file::OpenFault;
use crate::frames::{Frame, frame_in};
use crate::group::MAX_GROUP;
use crate::opening::MAX_IMAGE;
use adept_io::Failed;
use std::alloc::Global;
use std::fs::File;
use std::io;
use std::os::unix::fs::FileExt;

/// What stands in front of the image on a file.
const MARK: [u8; 16] = *b"rushowa store 1\n";

// How many bytes the mark has.
pub(crate) const MARK_LEN: u64 = 16;

// A file that is written to, and the system's number for why that failed last.
#[derive(Drop)]
pub(crate) struct StoreFile {
    file: File,
    reason: Option<i32>,
}

impl StoreFile {
    pub(crate) fn new(file: File) -> StoreFile {
        StoreFile { file, reason: None }
    }

    pub(crate) fn reason(&self) -> Option<i32> {
        self.reason
    }

    // Writes all of the bytes at a place of the image.
    pub(crate) fn write_all_at(&mut self, bytes: &[u8], at: u64) -> Result<(), Failed> {
        let done = self.file.write_all_at(bytes, MARK_LEN.saturating_add(at));
        self.note(done)
    }

    // Waits until the medium has all that was written.
    pub(crate) fn sync_data(&mut self) -> Result<(), Failed> {
        let done = self.file.sync_data();
        self.note(done)
    }

    fn note(&mut self, done: io::Result<()>) -> Result<(), Failed> {
        match done {
            Ok(()) => Ok(()),
            Err(error) => {
                self.reason = error.raw_os_error();
                Err(Failed)
            }
        }
    }
}

// Whether bytes are a beginning of the mark.
fn is_begun(front: &[u8]) -> bool
    requires { length front.now ≤ 16 }
    ensures { IsTrue result ↔ (front.now ≡ take (length front.now) MARK) }
{
    front == &MARK[..front.len()]
}

/// Puts the mark in front of a file that holds no more than a beginning of it, and syncs the file.
pub fn put_mark(file: &File) -> io::Result<()> {
    file.write_all_at(&MARK, 0)?;
    file.sync_all()
}

// How many bytes the image of a file has. A file that holds a beginning of the mark has none.
fn image_len(file: &File) -> Result<u64, OpenFault> {
    let len = file.metadata()?.len();
    let mut front = [0u8; 16];
    let front = &mut front[..len.min(MARK_LEN) as usize];
    file.read_exact_at(front, 0)?;
    if !is_begun(front) {
        return Err(OpenFault::NotAStore);
    }
    Ok(len.saturating_sub(MARK_LEN))
}

// The records at the front of bytes, up to a gate that stands no further behind than that.
fn records(bytes: &[u8], limit: usize) -> &[u8]
    ensures { length result.now ≤ length bytes.now }
{
    let mut rest = bytes;
    for _ in 0..bytes.len() {
        let Frame::Record(len) = frame_in(rest) else {
            break;
        };
        let behind = &rest[5 + len..];
        if bytes.len().saturating_sub(behind.len()) > limit {
            break;
        }
        rest = behind;
    }
    &bytes[..bytes.len().saturating_sub(rest.len())]
}

// Writes the mark, or the rest of it, and the records of the last group over themselves, and syncs them. An earlier run may
// have ended at a sync that failed: then reads may give what it wrote last, and the medium may lack it. Where the last
// group begins is not told, but the records behind its first have at most so many bytes.
fn write_again(file: &File, image: &[u8]) -> io::Result<()> {
    let all = records(image, image.len());
    let from = records(all, all.len().saturating_sub(MAX_GROUP as usize)).len();
    file.write_all_at(&all[from..], MARK_LEN.saturating_add(from as u64))?;
    put_mark(file)
}

// The image of a file, which the medium has as it is read.
pub(crate) fn read_image(alloc: Global, file: &File) -> Result<Vec<u8>, OpenFault> {
    file.sync_all()?;
    let len = image_len(file)?;
    if len > MAX_IMAGE {
        return Err(OpenFault::TooLong);
    }
    let mut image = vec![in alloc; 0u8; len as usize]?;
    file.read_exact_at(&mut image, MARK_LEN)?;
    write_again(file, &image)?;
    Ok(image)
}
