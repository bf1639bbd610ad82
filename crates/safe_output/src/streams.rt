//! Input and output: reading a complete input, and writing a complete report.
ghost use Rattle.std.specs.Prelude.{◌≡◌, ◌≢◌, ◌↔◌, ◌+◌, [], IfErr, IfOk, IfSome, IsErrOf, OnOk};
ghost use Rattle.std.specs.{IoError.error_kind, Io.ReadsAtMost};
ghost use Rattle.std.specs.Io.KnownBytes.{Appends, ReadConsumes};
ghost use Rattle.safe_output.specs.Streams.{AppendsBeginning};

use std::alloc::{AllocError, Global};
use std::io::{Error, ErrorKind, Read, Write};

const CHUNK_LEN: usize = 65_536;

const MOST_READS: u32 = 1_048_576;

/// Why an input couldn't be read to its end.
#[derive(Debug, PartialEq, Eq, Drop)]
pub enum ReadError {
    /// The input is a folder.
    Folder,
    /// A read failed, or the input didn't end within 1,048,576 reads.
    Read,
    Memory,
}

/// Why an output couldn't be written.
#[derive(Debug, PartialEq, Eq, Drop)]
pub enum WriteError {
    /// The reader of the output has closed it.
    Closed,
    /// A write or a flush failed in another way, or a write accepted no bytes.
    Write,
}

fn read_error(error: Error) -> ReadError
    ensures folder { (result ≡ ReadError.Folder) ↔ (error_kind error ≡ ErrorKind.IsADirectory) }
    ensures other { result ≢ ReadError.Memory }
{
    match error.kind() {
        ErrorKind::IsADirectory => ReadError::Folder,
        _ => ReadError::Read,
    }
}

fn write_error(error: Error) -> WriteError
    ensures { (result ≡ WriteError.Closed) ↔ (error_kind error ≡ ErrorKind.BrokenPipe) }
{
    match error.kind() {
        ErrorKind::BrokenPipe => WriteError::Closed,
        _ => WriteError::Write,
    }
}

impl From<AllocError> for ReadError {
    ghost use Rattle.std.specs.Prelude.{◌≡◌};
    ghost use Rattle.safe_output.specs.declared.streams.ReadError.TheVariants.{Memory};

    ghost from_gives = { λ _ error. error ≡ Memory };

    fn from(_: AllocError) -> ReadError {
        ReadError::Memory
    }
}

/// How many bytes were read: 0 at the end. An error if that fails, or if no read is `left`.
fn read_chunk<R: Read>(reader: &mut R, left: &mut u32, chunk: &mut [u8]) -> Result<usize, ReadError>
    ensures counted { OnOk result (left.new + 1 ≡ left.old) }
    ensures bound { ReadsAtMost result chunk.new }
    ensures bytes { ReadConsumes (R.remaining reader.old) (R.remaining reader.new) result chunk.new }
    ensures error { IfErr result (λ error. error ≢ ReadError.Memory) }
{
    if *left == 0 {
        return Err(ReadError::Read);
    }
    *left -= 1;
    match reader.read(chunk) {
        Ok(count) => Ok(count),
        Err(error) => Err(read_error(error)),
    }
}

/// Reads to the end of the input. An empty input needs no allocation.
pub fn read_all<R: Read>(alloc: Global, reader: &mut R) -> Result<Vec<u8>, ReadError>
    ensures all { IfOk result (λ all. IfSome (R.remaining reader.old) (λ input. all.items ≡ input)) }
    ensures memory { IsErrOf result ReadError.Memory → IfSome (R.remaining reader.old) (λ input. input ≢ []) }
{
    let mut all = Vec::new(alloc);
    let mut chunk = [0u8; CHUNK_LEN];
    let mut left = MOST_READS;
    loop {
        let count = read_chunk(reader, &mut left, &mut chunk)?;
        if count == 0 {
            return Ok(all);
        }
        all.extend_from_slice(&chunk[..count])?;
    }
}

/// Writes all bytes and flushes. After an error a prefix of the bytes has been written, possibly all.
pub fn write_out<W: Write>(writer: &mut W, text: &[u8]) -> Result<(), WriteError>
    ensures ok { OnOk result (Appends (W.contents writer.old) (W.contents writer.new) text.now) }
    ensures beginning { AppendsBeginning (W.contents writer.old) (W.contents writer.new) text.now }
{
    let mut at = 0;
    while at < text.len() {
        match writer.write(&text[at..]) {
            Ok(0) => return Err(WriteError::Write),
            Ok(count) => at += count,
            Err(error) => return Err(write_error(error)),
        }
    }
    match writer.flush() {
        Ok(()) => Ok(()),
        Err(error) => Err(write_error(error)),
    }
}
