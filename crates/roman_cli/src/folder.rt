//! Implements a shelf over the files of the working folder.
ghost use Rattle.std.specs.Prelude.{◌≤◌, length, IfOk, None};

use roman_io::{Failed, Shelf};
use std::alloc::Global;
use std::fs::File;
use std::io::{ErrorKind, Read, Seek, SeekFrom};
use std::rt::Files;

/// A file that couldn't be read, and the cause.
#[derive(Drop)]
pub struct Unread {
    /// The name of the file, as it was requested.
    pub name: String,
    /// The kind of error that the system reported.
    pub kind: ErrorKind,
}

/// Files by their names. Relative names start at the working folder. The shelf's model doesn't
/// expose the contents of files. A fetch fails at the first error of the system.
#[derive(Drop)]
pub struct FolderShelf<'a, R: Files> {
    rt: &'a R,
    alloc: Global,
    faults: u64,
    unread: Option<Unread>,
}

impl<'a, R: Files> FolderShelf<'a, R> {
    /// Returns a shelf of the files that the runtime reaches.
    pub fn new(rt: &'a R, alloc: Global) -> FolderShelf<'a, R> {
        FolderShelf {
            rt,
            alloc,
            faults: 0,
            unread: None,
        }
    }

    /// Returns the file at which a fetch failed last. Returns `None` when no fetch failed, and when
    /// there was no memory for the file's name.
    pub fn unread(&self) -> Option<&Unread> {
        self.unread.as_ref()
    }

    /// Reads once from the file at byte `at`. Returns the number of bytes read.
    fn read(&self, name: &str, at: u64, into: &mut [u8]) -> std::io::Result<usize>
        ensures { IfOk result (λ n. n ≤ length into.new) }
    {
        let mut file = File::open(self.rt, name)?;
        file.seek(SeekFrom::Start(at))?;
        file.read(into)
    }
}

impl<R: Files> Shelf for FolderShelf<'_, R> {
    ghost texts = { λ _. None };

    ghost faults = { λ s. s.faults };

    fn fetch(&mut self, name: &str, at: u64, into: &mut [u8]) -> Result<usize, Failed> {
        match self.read(name, at, into) {
            Ok(count) => Ok(count),
            Err(error) => {
                let kind = error.kind();
                let name = String::from_str(self.alloc, name).ok();
                self.unread = name.map(|name| Unread { name, kind });
                self.faults = self.faults.saturating_add(1);
                Err(Failed)
            }
        }
    }
}

#[cfg(test)]
mod tests {
    use super::*;
    use std::fs;
    use std::test::Fail;

    #[test]
    fn a_file_is_read_from_a_place_on(rt: HostRuntime) -> Result<(), Fail> {
        fs::write(&rt, "roman_folder_test", "behaviour")?;
        let mut shelf = FolderShelf::new(&rt, rt.alloc());
        let mut piece = [0u8; 4];
        assert_eq!(rt; shelf.fetch("roman_folder_test", 2, &mut piece)?, 4);
        assert_eq!(rt; piece, *b"havi");
        assert_eq!(rt; shelf.fetch("roman_folder_test", 9, &mut piece)?, 0);
        assert!(rt; shelf.fetch("roman_folder_gone", 0, &mut piece).is_err());
        assert_eq!(rt; shelf.faults, 1);
        fs::remove_file(&rt, "roman_folder_test")?;
        Ok(())
    }
}
