//! A writer of which only the flush fails, as no output of a process does.
use safe_output::streams::{WriteError, write_out};
use std::alloc::Global;
use std::io::{self, ErrorKind, Write};
use texting_robots::Error;

#[derive(Drop)]
struct Sink {
    held: Vec<u8>,
    flush_fails_with: ErrorKind,
}

impl Write for Sink {
    fn write(&mut self, buf: &[u8]) -> io::Result<usize> {
        self.held.extend_from_slice(buf)?;
        Ok(buf.len())
    }

    fn flush(&mut self) -> io::Result<()> {
        Err(io::Error::from(self.flush_fails_with))
    }
}

const FAULTS: &[(ErrorKind, WriteError)] = &[
    (ErrorKind::BrokenPipe, WriteError::Closed),
    (ErrorKind::WriteZero, WriteError::Write),
];

/// Whether `write_out` reports a flush that fails, after all was written.
pub(crate) fn reports_flushes(alloc: Global) -> Result<bool, Error> {
    let mut right = true;
    for (kind, fault) in FAULTS {
        let mut sink = Sink {
            held: Vec::with_capacity(alloc, 8)?,
            flush_fails_with: *kind,
        };
        let answer = write_out(&mut sink, b"delay -\n");
        right &= answer.as_ref().err() == Some(fault)
            && sink.held.as_slice() == b"delay -\n".as_slice();
    }
    Ok(right)
}
