// Sources and sinks over std's readers and writers.
ghost use Rattle.std.specs.{Prelude.{◌≡◌, ◌≢◌, ℕ, ◌<◌, ◌≤◌, length, Ok, Err, IfOk, IfErr, OnErr}, Io.{ReadsAtMost, WritesAtMost}, Io.KnownBytes.{ReadConsumes, WriteAppends}, IoError.error_kind};
ghost use Rattle.adept_io.specs.{Counts.{Rose, one_more}, Standard.{reader_of, reader_faults, writer_of, writer_faults}};

use crate::{Failed, Sink, Source};
use std::io::{self, ErrorKind, Read, Write};

// A call of the system that a signal interrupted is no answer: it is made again. So one read of a reader.
fn read_again<R: Read>(reader: &mut R, buf: &mut [u8]) -> io::Result<usize>
    ensures bound { ReadsAtMost result buf.new }
    ensures bytes { ReadConsumes (R.remaining reader.old) (R.remaining reader.new) result buf.new }
    ensures again { IfErr result (λ e. error_kind e ≢ ErrorKind.Interrupted) }
{
    for _ in 0..u64::MAX {
        match reader.read(buf) {
            Ok(count) => return Ok(count),
            Err(error) => {
                if error.kind() != ErrorKind::Interrupted {
                    return Err(error);
                }
            }
        }
    }
    Err(io::Error::from(ErrorKind::TimedOut))
}

// So one write to a writer. A write of some bytes that takes none is an error.
fn write_again<W: Write>(writer: &mut W, bytes: &[u8]) -> io::Result<usize>
    ensures bound { WritesAtMost result bytes.now }
    ensures bytes { WriteAppends (W.contents writer.old) (W.contents writer.new) result bytes.now }
    ensures progress { IfOk result (λ n. 0 < length bytes.now → 0 < n) }
    ensures again { IfErr result (λ e. error_kind e ≢ ErrorKind.Interrupted) }
{
    for _ in 0..u64::MAX {
        match writer.write(bytes) {
            Ok(count) if count > 0 || bytes.is_empty() => return Ok(count),
            Ok(_) => return Err(io::Error::from(ErrorKind::WriteZero)),
            Err(error) => {
                if error.kind() != ErrorKind::Interrupted {
                    return Err(error);
                }
            }
        }
    }
    Err(io::Error::from(ErrorKind::TimedOut))
}

// What a call gave. An error is a fault, and nothing else is: a read that gives no byte is the end of the bytes.
fn told(answer: io::Result<usize>, faults: &mut u64) -> Result<usize, Failed>
    ensures ok { IfOk answer (λ n. (result ≡ Ok n) × (faults.new ≡ faults.old)) }
    ensures err { OnErr answer ((result ≡ Err record {}) × (faults.new ≡ one_more faults.old)) }
    ensures rose { OnErr result (Rose faults.old faults.new) }
    ensures never_falls { faults.old ≤ faults.new }
{
    match answer {
        Ok(count) => Ok(count),
        Err(_) => {
            *faults = faults.saturating_add(1);
            Err(Failed)
        }
    }
}

/// One of std's readers as a source. An error of the reader is a fault.
#[derive(Drop)]
pub struct StdSource<R> {
    reader: R,
    faults: u64,
}

impl<R: Read> StdSource<R> {
    /// A source over a reader, without faults so far. Takes no memory.
    pub fn new(reader: R) -> StdSource<R>
        ensures reader { reader_of result ≡ reader }
        ensures faults { reader_faults result ≡ 0 }
    {
        StdSource { reader, faults: 0 }
    }

    /// The reader. Takes no memory.
    pub fn into_inner(self) -> R
        ensures { result ≡ reader_of self }
    {
        let StdSource { reader, faults: _ } = self;
        reader
    }

    /// How many reads failed, up to u64's greatest.
    pub fn faults(&self) -> u64
        ensures { result ≡ reader_faults self.now }
    {
        self.faults
    }
}

impl<R: Read> Source for StdSource<R> {
    ghost left = { λ s. R.remaining s.reader };

    ghost faults = { λ s. s.faults };

    /// One read of the reader, made again where a signal interrupts it.
    fn read(&mut self, buf: &mut [u8]) -> Result<usize, Failed> {
        let answer = read_again(&mut self.reader, buf);
        told(answer, &mut self.faults)
    }
}

/// One of std's writers as a sink. An error of the writer is a fault, and so is a write of some bytes that takes none.
#[derive(Drop)]
pub struct StdSink<W> {
    writer: W,
    faults: u64,
}

impl<W: Write> StdSink<W> {
    /// A sink over a writer, without faults so far. Takes no memory.
    pub fn new(writer: W) -> StdSink<W>
        ensures writer { writer_of result ≡ writer }
        ensures faults { writer_faults result ≡ 0 }
    {
        StdSink { writer, faults: 0 }
    }

    /// The writer. Takes no memory.
    pub fn into_inner(self) -> W
        ensures { result ≡ writer_of self }
    {
        let StdSink { writer, faults: _ } = self;
        writer
    }

    /// How many writes failed, up to u64's greatest.
    pub fn faults(&self) -> u64
        ensures { result ≡ writer_faults self.now }
    {
        self.faults
    }
}

impl<W: Write> Sink for StdSink<W> {
    ghost written = { λ s. W.contents s.writer };

    ghost faults = { λ s. s.faults };

    /// One write of the writer, made again where a signal interrupts it.
    fn write(&mut self, bytes: &[u8]) -> Result<usize, Failed> {
        let answer = write_again(&mut self.writer, bytes);
        told(answer, &mut self.faults)
    }
}
