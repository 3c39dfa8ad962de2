//! A reader and a writer that fail once.
use std::io;
use std::io::{Error, ErrorKind, Read, Write};

/// How a call fails, by its word: a signal interrupts it, or it fails otherwise.
pub fn kind_of(word: &str) -> ErrorKind {
    match word {
        "interrupted" => ErrorKind::Interrupted,
        _ => ErrorKind::Other,
    }
}

/// A reader that gives `a`, then `bb`, then `ccc`, by its read of a number, and fails one of them.
#[derive(Drop)]
pub struct Rising {
    reads: u8,
    fails: usize,
    kind: ErrorKind,
}

impl Rising {
    /// A reader of which nothing was read yet.
    pub fn new(fails: usize, kind: ErrorKind) -> Rising {
        Rising {
            reads: 0,
            fails,
            kind,
        }
    }
}

impl Read for Rising {
    fn read(&mut self, buf: &mut [u8]) -> io::Result<usize> {
        self.reads = self.reads.saturating_add(1);
        if self.reads as usize == self.fails {
            return Err(Error::new(self.kind, "not now"));
        }
        if self.reads > 3 {
            return Ok(0);
        }
        let count = buf.len().min(self.reads as usize);
        for byte in &mut buf[..count] {
            *byte = b'a' - 1 + self.reads;
        }
        Ok(count)
    }
}

/// A writer that takes so many bytes a time, counts what was flushed, and fails its flush of a number.
#[derive(Drop)]
pub struct Narrow {
    most: usize,
    written: usize,
    flushed: usize,
    flushes: usize,
    fails: usize,
    kind: ErrorKind,
}

impl Narrow {
    /// A writer into which nothing was written yet.
    pub fn new(most: usize, fails: usize, kind: ErrorKind) -> Narrow {
        Narrow {
            most,
            written: 0,
            flushed: 0,
            flushes: 0,
            fails,
            kind,
        }
    }

    /// How many bytes were flushed.
    pub fn flushed(&self) -> usize {
        self.flushed
    }
}

impl Write for Narrow {
    fn write(&mut self, buf: &[u8]) -> io::Result<usize> {
        let count = buf.len().min(self.most);
        self.written = self.written.saturating_add(count);
        Ok(count)
    }

    fn flush(&mut self) -> io::Result<()> {
        self.flushes = self.flushes.saturating_add(1);
        if self.flushes == self.fails {
            return Err(Error::new(self.kind, "not now"));
        }
        self.flushed = self.written;
        Ok(())
    }
}
