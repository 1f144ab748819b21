//! A store over the files of the host.

ghost use Rattle.std.specs.Prelude.{◌≡◌, ◌≢◌, ◌+◌, None, Some, Ok, IfOk, IfSome, IfErr, IsErr, length, false, not};
ghost use Rattle.std.specs.IoError.{error_kind};

use crate::faults::answered;
use crate::transfers::read_whole;
use arrayvec::ArrayString;
use dev_traits::{Failed, NodeStore};
use std::fs::{File, OpenFile};
use std::io::{ErrorKind, Read, Seek, SeekFrom};
use std::rt::Files;
use std::{fs, io};

/// Room for the longest name that the system opens.
const LONGEST_NAME: usize = 4095;

/// An open file, its name, and the place from which it would be read next, where that is known.
#[derive(Drop)]
pub struct Opened<F> {
    file: F,
    name: ArrayString<LONGEST_NAME>,
    next: Option<u64>,
}

impl<F: OpenFile + Read + Seek> Opened<F> {
    /// How many bytes the file has.
    fn length(&self) -> io::Result<u64> {
        Ok(self.file.metadata()?.len())
    }

    /// Fills `into` with the file's bytes from a place on. A piece behind the one that was read last
    /// needs no seek.
    fn read_at(&mut self, at: u64, into: &mut [u8]) -> io::Result<()>
        ensures name { self.new.name ≡ self.old.name }
        ensures size { length into.new ≡ length into.old }
        ensures next { IfOk result (λ _. IfSome self.new.next (λ next. next ≡ at + length into.old)) }
        ensures unknown { IsErr result → self.new.next ≡ None }
    {
        let is_there = self.next == Some(at);
        self.next = None;
        if !is_there {
            self.file.seek(SeekFrom::Start(at))?;
        }
        read_whole(&mut self.file, into)?;
        self.next = at.checked_add(into.len() as u64);
        Ok(())
    }
}

/// Files by their names, of which one may be open.
#[derive(Drop)]
pub struct FileStore<'a, R: Files> {
    files: &'a R,
    current: Option<Opened<R::File>>,
    faults: u64,
}

impl<'a, R: Files> FileStore<'a, R> {
    /// A store with no file open, which has counted no fault.
    pub fn new(files: &'a R) -> FileStore<'a, R>
        ensures current { result.current ≡ None }
        ensures faults { result.faults ≡ 0 }
    {
        FileStore {
            files,
            current: None,
            faults: 0,
        }
    }

    /// How many faults of the host there were; it stays at 2^64 - 1.
    pub fn fault_count(&self) -> u64
        ensures { result ≡ self.now.faults }
    {
        self.faults
    }
}

/// Whether a file is there, by what the system says of its name: that there is none is an answer, and
/// a folder is no file.
fn held(found: io::Result<bool>) -> io::Result<bool>
    ensures file { IfOk found (λ is_folder. result ≡ Ok (not is_folder)) }
    ensures missing { IfErr found (λ e. error_kind e ≡ ErrorKind.NotFound → result ≡ Ok false) }
    ensures fault { IfErr found (λ e. error_kind e ≢ ErrorKind.NotFound → IsErr result) }
{
    match found {
        Ok(is_folder) => Ok(!is_folder),
        Err(error) if error.kind() == ErrorKind::NotFound => Ok(false),
        Err(error) => Err(error),
    }
}

/// Whether the name is that of a folder.
fn is_folder<R: Files>(files: &R, name: &str) -> io::Result<bool> {
    Ok(fs::metadata(files, name)?.is_dir())
}

/// The named file, open. A folder is no file, and a name that is too long for the system none either.
fn open_file<R: Files>(files: &R, name: &str) -> io::Result<Opened<R::File>>
    ensures name { IfOk result (λ opened. opened.name.bytes ≡ name.now) }
    ensures next { IfOk result (λ opened. opened.next ≡ Some 0) }
{
    let file = File::open(files, name)?;
    if file.metadata()?.is_dir() {
        return Err(io::Error::from(ErrorKind::IsADirectory));
    }
    match ArrayString::from(name) {
        Ok(name) => Ok(Opened {
            file,
            name,
            next: Some(0),
        }),
        Err(_) => Err(io::Error::from(ErrorKind::InvalidFilename)),
    }
}

impl<'a, R: Files> NodeStore for FileStore<'a, R> {
    ghost use Rattle.std.specs.Option.{option_map};

    ghost files = { λ _. None };

    ghost current = { λ s. option_map (λ opened. opened.name.bytes) s.current };

    ghost faults = { λ s. s.faults };

    fn holds(&mut self, name: &str) -> Result<bool, Failed> {
        let outcome = held(is_folder(self.files, name));
        answered(&mut self.faults, outcome)
    }

    fn select(&mut self, name: &str) -> Result<(), Failed> {
        self.current = None;
        let outcome = open_file(self.files, name);
        self.current = Some(answered(&mut self.faults, outcome)?);
        Ok(())
    }

    fn length(&mut self) -> Result<u64, Failed> {
        let outcome = self.current.as_ref().unwrap().length();
        answered(&mut self.faults, outcome)
    }

    fn read_at(&mut self, at: u64, into: &mut [u8]) -> Result<(), Failed> {
        let outcome = self.current.as_mut().unwrap().read_at(at, into);
        answered(&mut self.faults, outcome)
    }
}
