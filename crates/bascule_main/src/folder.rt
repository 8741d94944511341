ghost use Rattle.std.specs.Prelude.{◌≡◌, None, IfOk, drop, string_bytes};
ghost use Rattle.percent_encoding.specs.Percent.{percent_decode};
ghost use Rattle.bascule_main.specs.Paths.{path_of};

use crate::files::{self, counted};
use bas_edge::{EdgeError, Store};
use percent_encoding::{NON_ALPHANUMERIC, percent_encode};
use std::alloc::{AllocError, Global};
use std::fs::{self, File, OpenFile, OpenOptions};
use std::io::{self, ErrorKind};
use std::os::unix::fs::FileExt;
use std::rt::Files;

/// The folder that has the files, in the current folder.
const FOLDER: &str = "root";

/// Where the file of this name lies: in the folder, under the name with every byte escaped that isn't an ASCII
/// letter or digit. So no two names share a file, and none leads out of the folder.
fn file_path(alloc: Global, name: &[u8]) -> Result<String, AllocError>
    ensures exact { IfOk result (λ path. string_bytes path ≡ path_of name.now) }
    ensures reversible { IfOk result (λ path. percent_decode (drop 5 (string_bytes path)) ≡ name.now) }
{
    let mut path = String::from_str(alloc, FOLDER)?;
    path.push_str("/")?;
    percent_encode(name, NON_ALPHANUMERIC).append_to(&mut path)?;
    Ok(path)
}

/// A file that stands open under its name.
#[derive(Drop)]
struct Opened<F> {
    name: Vec<u8>,
    file: F,
}

/// The folder of the files, of which two may stand open: the one that was read last and the one that was written
/// last. So the next piece of a file is one call of the system. A file is opened anew once it was removed or renamed
/// here, or was found absent; the folder is taken to be the run's alone.
#[derive(Drop)]
struct Disk<'a, R: Files> {
    runtime: &'a R,
    alloc: Global,
    read: Option<Opened<R::File>>,
    written: Option<Opened<R::File>>,
}

/// The file of this name, which is opened so where another one, or none, stands open.
fn opened_in<'o, R: Files>(
    runtime: &R,
    alloc: Global,
    place: &'o mut Option<Opened<R::File>>,
    options: &OpenOptions,
    name: &[u8],
) -> io::Result<&'o R::File> {
    let is_open = match place {
        Some(opened) => opened.name.as_slice() == name,
        None => false,
    };
    if !is_open {
        let path = file_path(alloc, name)?;
        let file = options.open(runtime, path.as_str())?;
        let name = Vec::from_slice(alloc, name)?;
        *place = Some(Opened { name, file });
    }
    match place {
        Some(opened) => Ok(&opened.file),
        None => Err(ErrorKind::NotFound.into()),
    }
}

/// Closes the file where it is the one of this name.
fn close_in<F: Drop>(place: &mut Option<Opened<F>>, name: &[u8]) {
    if let Some(opened) = place {
        if opened.name.as_slice() == name {
            *place = None;
        }
    }
}

impl<R: Files> Disk<'_, R>
where
    R::File: FileExt,
{
    fn make_folder(&self) -> io::Result<()> {
        fs::create_dir_all(self.runtime, FOLDER)
    }

    fn to_read(&mut self, name: &[u8]) -> io::Result<&R::File> {
        let mut options = OpenOptions::new();
        options.read(true);
        opened_in(self.runtime, self.alloc, &mut self.read, &options, name)
    }

    fn to_write(&mut self, name: &[u8]) -> io::Result<&R::File> {
        let mut options = OpenOptions::new();
        options.write(true);
        opened_in(self.runtime, self.alloc, &mut self.written, &options, name)
    }

    /// Closes the file of this name, so that it is opened anew.
    fn close(&mut self, name: &[u8]) {
        close_in(&mut self.read, name);
        close_in(&mut self.written, name);
    }

    fn length_of(&mut self, name: &[u8]) -> io::Result<Option<u64>> {
        let path = file_path(self.alloc, name)?;
        let length = files::length_of(self.runtime, path.as_str());
        if !matches!(length, Ok(Some(_))) {
            self.close(name);
        }
        length
    }

    fn read_range(&mut self, name: &[u8], at: u64, buffer: &mut [u8]) -> io::Result<()> {
        self.to_read(name)?.read_exact_at(buffer, at)
    }

    fn write_range(&mut self, name: &[u8], at: u64, bytes: &[u8]) -> io::Result<()> {
        if bytes.is_empty() {
            return Ok(());
        }
        self.to_write(name)?.write_all_at(bytes, at)
    }

    fn make_file(&self, name: &[u8]) -> io::Result<()> {
        let path = file_path(self.alloc, name)?;
        File::create_new(self.runtime, path.as_str())?;
        Ok(())
    }

    fn remove_file(&mut self, name: &[u8]) -> io::Result<()> {
        self.close(name);
        let path = file_path(self.alloc, name)?;
        fs::remove_file(self.runtime, path.as_str())
    }

    fn rename_file(&mut self, from: &[u8], to: &[u8]) -> io::Result<()> {
        self.close(from);
        self.close(to);
        let from = file_path(self.alloc, from)?;
        let to = file_path(self.alloc, to)?;
        fs::rename(self.runtime, from.as_str(), to.as_str())
    }

    fn resize_file(&mut self, name: &[u8], length: u64) -> io::Result<()> {
        self.to_write(name)?.set_len(length)
    }
}

/// The folder `root` of the current folder as a store. It tells nothing of its files. What the system answers
/// counts a fault where it is an error, except for want of memory and for the length of an absent file.
#[derive(Drop)]
pub struct Folder<'a, R: Files> {
    disk: Disk<'a, R>,
    /// How many faults there were, held at the greatest `u64`.
    faults: u64,
}

impl<'a, R: Files> Folder<'a, R>
where
    R::File: FileExt,
{
    /// The folder, which is made where it is absent.
    pub fn new(alloc: Global, runtime: &'a R) -> Result<Folder<'a, R>, EdgeError>
        ensures { IfOk result (λ folder. ⟦<Folder<'a, R> as Store>⟧.fault_count folder ≡ 0) }
    {
        let disk = Disk {
            runtime,
            alloc,
            read: None,
            written: None,
        };
        let mut faults = 0;
        counted(&mut faults, disk.make_folder())?;
        Ok(Folder { disk, faults })
    }
}

impl<R: Files> Store for Folder<'_, R>
where
    R::File: FileExt,
{
    ghost files = { λ _. None };

    ghost fault_count = { λ folder. folder.faults };

    fn length(&mut self, name: &[u8]) -> Result<Option<u64>, EdgeError> {
        let length = self.disk.length_of(name);
        counted(&mut self.faults, length)
    }

    fn read_at(&mut self, name: &[u8], at: u64, buffer: &mut [u8]) -> Result<(), EdgeError> {
        let read = self.disk.read_range(name, at, buffer);
        counted(&mut self.faults, read)
    }

    fn write_at(&mut self, name: &[u8], at: u64, bytes: &[u8]) -> Result<(), EdgeError> {
        let written = self.disk.write_range(name, at, bytes);
        counted(&mut self.faults, written)
    }

    fn create(&mut self, name: &[u8]) -> Result<(), EdgeError> {
        let created = self.disk.make_file(name);
        counted(&mut self.faults, created)
    }

    fn remove(&mut self, name: &[u8]) -> Result<(), EdgeError> {
        let removed = self.disk.remove_file(name);
        counted(&mut self.faults, removed)
    }

    fn rename(&mut self, from: &[u8], to: &[u8]) -> Result<(), EdgeError> {
        let renamed = self.disk.rename_file(from, to);
        counted(&mut self.faults, renamed)
    }

    fn set_length(&mut self, name: &[u8], length: u64) -> Result<(), EdgeError> {
        let resized = self.disk.resize_file(name, length);
        counted(&mut self.faults, resized)
    }

    fn faults(&self) -> u64 {
        self.faults
    }
}
