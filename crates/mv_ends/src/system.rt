//! The files and the standard streams of the system. They tell no content, and count each failure.
ghost use Rattle.std.specs.Prelude.{◌≡◌, ℕ, List, None, true};

use crate::{Failed, Shelf, Sink};
use std::fs;
use std::io::{Read, Write};
use std::rt::Files;

/// The files of the system by their paths, one of which is open at a time.
///
/// Every name counts as selected, and its counts of faults are the same for every name.
#[derive(Drop)]
pub struct FileShelf<'a, R: Files> {
    rt: &'a R,
    file: Option<R::File>,
    open_faults: u64,
    read_faults: u64,
}

impl<'a, R: Files> FileShelf<'a, R> {
    /// A shelf of which no file is open.
    pub fn new(rt: &'a R) -> Self
        ensures opens { (name : List ℕ)
            → (⟦<FileShelf<'a, R> as Shelf>⟧.told result).open_faults name ≡ 0 }
        ensures reads { (name : List ℕ)
            → (⟦<FileShelf<'a, R> as Shelf>⟧.told result).read_faults name ≡ 0 }
    {
        FileShelf {
            rt,
            file: None,
            open_faults: 0,
            read_faults: 0,
        }
    }
}

impl<'a, R: Files> Shelf for FileShelf<'a, R> {
    ghost told = { λ s. record {
      named = None;
      rest = None;
      selected = λ name. true;
      open_faults = λ name. s.open_faults;
      read_faults = λ name. s.read_faults;
    } };

    fn select(&mut self, name: &str) -> Result<(), Failed> {
        self.file = None;
        match fs::open(self.rt, name) {
            Ok(file) => {
                self.file = Some(file);
                Ok(())
            }
            Err(_) => {
                self.open_faults = self.open_faults.saturating_add(1);
                Err(Failed)
            }
        }
    }

    fn read(&mut self, buf: &mut [u8]) -> Result<usize, Failed> {
        let Some(file) = &mut self.file else {
            return Ok(0);
        };
        match file.read(buf) {
            Ok(count) => Ok(count),
            Err(_) => {
                self.read_faults = self.read_faults.saturating_add(1);
                Err(Failed)
            }
        }
    }
}

/// A writer of the system, as standard output. One that takes none of a piece has failed.
#[derive(Drop)]
pub struct StdSink<W: Write + Drop> {
    to: W,
    faults: u64,
}

impl<W: Write + Drop> StdSink<W> {
    /// A sink that writes to this writer.
    pub fn new(to: W) -> Self
        ensures { (⟦<StdSink<W> as Sink>⟧.told result).faults ≡ 0 }
    {
        StdSink { to, faults: 0 }
    }
}

impl<W: Write + Drop> Sink for StdSink<W> {
    ghost told = { λ s. record { written = None; faults = s.faults; room = 0 } };

    fn write(&mut self, buf: &[u8]) -> Result<usize, Failed> {
        match self.to.write(buf) {
            Ok(count) if count > 0 => Ok(count),
            _ => {
                self.faults = self.faults.saturating_add(1);
                Err(Failed)
            }
        }
    }
}
