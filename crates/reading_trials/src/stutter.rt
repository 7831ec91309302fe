//! Streams that are interrupted at every other call, and the files of a system that has no others.

ghost use Rattle.std.specs.Prelude.{◌≤◌, IfOk};

use std::alloc::Allocator;
use std::fs::{Metadata, OpenFile, OpenOptions};
use std::io::{self, ErrorKind, Read, Seek, SeekFrom, Write};
use std::rt;

/// How a stream ends once nothing is left.
#[derive(Clone, Copy, PartialEq, Eq)]
pub enum End {
    /// It takes and gives nothing more.
    Quiet,
    /// It refuses to read and to write.
    Refuses,
    /// It takes and gives nothing more, and no flush ever passes.
    RefusesFlush,
}

/// Takes or gives a few bytes at every other call and is interrupted at the others, until nothing is left.
#[derive(Drop)]
pub struct Stutter {
    left: usize,
    end: End,
    interrupted: bool,
}

impl Stutter {
    /// A stream of so many bytes.
    pub fn new(left: usize, end: End) -> Stutter {
        Stutter {
            left,
            end,
            interrupted: false,
        }
    }

    /// How many bytes are left.
    pub fn left(&self) -> usize {
        self.left
    }

    // How many bytes the next call passes on, where it asks for so many.
    fn step(&mut self, wanted: usize) -> io::Result<usize>
        ensures { IfOk result (λ count. count ≤ wanted) }
    {
        self.interrupted = !self.interrupted;
        if self.interrupted {
            return Err(io::Error::from(ErrorKind::Interrupted));
        }
        if self.left == 0 && self.end == End::Refuses {
            return Err(io::Error::from(ErrorKind::Other));
        }
        let count = self.left.min(3).min(wanted);
        self.left -= count;
        Ok(count)
    }
}

impl Read for Stutter {
    fn read(&mut self, buffer: &mut [u8]) -> io::Result<usize> {
        let count = self.step(buffer.len())?;
        for byte in buffer[..count].iter_mut() {
            *byte = b'x';
        }
        Ok(count)
    }
}

impl Write for Stutter {
    fn write(&mut self, bytes: &[u8]) -> io::Result<usize> {
        self.step(bytes.len())
    }

    fn flush(&mut self) -> io::Result<()> {
        if self.end == End::RefusesFlush {
            return Err(io::Error::from(ErrorKind::Other));
        }
        Ok(())
    }
}

// What no trial asks for.
fn unsupported<T>() -> io::Result<T> {
    Err(io::Error::from(ErrorKind::Unsupported))
}

impl Seek for Stutter {
    fn seek(&mut self, _to: SeekFrom) -> io::Result<u64> {
        unsupported()
    }
}

impl OpenFile for Stutter {
    fn metadata(&self) -> io::Result<Metadata> {
        unsupported()
    }

    fn set_len(&self, _size: u64) -> io::Result<()> {
        unsupported()
    }

    fn sync_all(&self) -> io::Result<()> {
        unsupported()
    }

    fn sync_data(&self) -> io::Result<()> {
        unsupported()
    }
}

/// Files of which each is such a stream.
#[derive(Drop)]
pub struct StutterFiles {
    pub left: usize,
    pub end: End,
}

impl rt::Files for StutterFiles {
    type File = Stutter;

    type Dir = Stutter;

    fn open_file(&self, _how: &OpenOptions, _path: &str) -> io::Result<Stutter> {
        Ok(Stutter::new(self.left, self.end))
    }

    fn open_dir(&self, _path: &str) -> io::Result<Stutter> {
        unsupported()
    }

    fn metadata(&self, _path: &str) -> io::Result<Metadata> {
        unsupported()
    }

    fn symlink_metadata(&self, _path: &str) -> io::Result<Metadata> {
        unsupported()
    }

    fn copy(&self, _from: &str, _to: &str) -> io::Result<u64> {
        unsupported()
    }

    fn rename(&self, _from: &str, _to: &str) -> io::Result<()> {
        unsupported()
    }

    fn remove_file(&self, _path: &str) -> io::Result<()> {
        unsupported()
    }

    fn create_dir(&self, _path: &str) -> io::Result<()> {
        unsupported()
    }

    fn remove_dir(&self, _path: &str) -> io::Result<()> {
        unsupported()
    }

    fn remove_dir_all<B: Allocator>(&self, _alloc: B, _path: &str) -> io::Result<()> {
        unsupported()
    }
}
