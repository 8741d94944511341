//! What the streams and the folder of the system do, which no clause says.
use crate::current::CurrentFolder;
use crate::folder::Folder;
use crate::streams::{Reading, Writing};
use bas_edge::{EdgeError, Failed, Shelf, Sink, Source, Store};
use std::fmt::Debug;
use std::fs::{self, OpenOptions, Permissions};
use std::io::{self, ErrorKind, Read};
use std::os::unix::fs::PermissionsExt;
use std::process::Abort;
use std::rt::Files;
use std::test::Fail;

/// A reader that is interrupted so many times, and then at its end.
#[derive(Drop)]
struct Interrupted(u32);

impl Read for Interrupted {
    fn read(&mut self, _buffer: &mut [u8]) -> io::Result<usize> {
        match self.0.checked_sub(1) {
            None => Ok(0),
            Some(times) => {
                self.0 = times;
                Err(ErrorKind::Interrupted.into())
            }
        }
    }
}

/// Stops where another answer came.
fn want<T: PartialEq + Debug + Drop>(rt: &impl Abort, answer: T, wanted: T) {
    assert_eq!(rt; answer, wanted);
}

/// Stops where the system has other bytes in the file.
fn want_file<R: Abort + AllocGlobal + Files>(
    rt: &R,
    path: &str,
    wanted: &[u8],
) -> Result<(), Fail> {
    let bytes = fs::read(rt, path)?;
    want(rt, bytes.as_slice(), wanted);
    Ok(())
}

#[test]
fn sources_take_what_is_read(rt: HostRuntime) {
    let mut buffer = [0; 4];
    let mut source = Reading::new(b"hi".as_slice());
    want(&rt, source.take(&mut buffer), Ok(2));
    want(&rt, buffer, *b"hi\0\0");
    want(&rt, source.take(&mut buffer), Ok(0));
    want(&rt, source.faults(), 0);
    let mut patient = Reading::new(Interrupted(7));
    want(&rt, patient.take(&mut buffer), Ok(0));
    want(&rt, patient.faults(), 0);
    let mut failing = Reading::new(Interrupted(100_000));
    want(&rt, failing.take(&mut buffer), Err(Failed));
    want(&rt, failing.faults(), 1);
}

#[test]
fn sinks_give_what_is_written(rt: HostRuntime) {
    let mut room = [0; 3];
    let mut sink = Writing::new(room.as_mut_slice());
    want(&rt, sink.give(b"hi"), Ok(2));
    want(&rt, sink.give(b"!!"), Ok(1));
    want(&rt, sink.give(b""), Ok(0));
    want(&rt, sink.faults(), 0);
    want(&rt, sink.give(b"?"), Err(EdgeError::Failed));
    want(&rt, sink.faults(), 1);
    want(&rt, room, *b"hi!");
}

#[test]
fn a_full_device_is_a_fault(rt: HostRuntime) -> Result<(), Fail> {
    let mut options = OpenOptions::new();
    options.write(true);
    let mut sink = Writing::new(options.open(&rt, "/dev/full")?);
    want(&rt, sink.give(b"x"), Err(EdgeError::Failed));
    want(&rt, sink.give(b"y"), Err(EdgeError::Failed));
    want(&rt, sink.faults(), 2);
    Ok(())
}

#[test]
fn files_lie_in_the_folder(rt: HostRuntime) -> Result<(), Fail> {
    let mut folder = Folder::new(rt.alloc(), &rt)?;
    let (name, other) = (b"/bin/hi", b"../a\0\xff");
    want(&rt, folder.length(name), Ok(None));
    want(&rt, folder.create(name), Ok(()));
    want_file(&rt, "root/%2Fbin%2Fhi", b"")?;
    want(&rt, folder.write_at(name, 2, b"hi"), Ok(()));
    want(&rt, folder.length(name), Ok(Some(4)));
    let mut buffer = [9; 3];
    want(&rt, folder.read_at(name, 1, &mut buffer), Ok(()));
    want(&rt, buffer, [0, b'h', b'i']);
    want(&rt, folder.set_length(name, 3), Ok(()));
    want(&rt, folder.rename(name, other), Ok(()));
    want_file(&rt, "root/%2E%2E%2Fa%00%FF", b"\0\0h")?;
    want(&rt, folder.length(name), Ok(None));
    want(&rt, folder.remove(other), Ok(()));
    want(&rt, folder.length(other), Ok(None));
    want(&rt, folder.faults(), 0);
    fs::remove_dir(&rt, "root")?;
    Ok(())
}

#[test]
fn conditions_found_untrue_are_faults(rt: HostRuntime) -> Result<(), Fail> {
    let failed = Err(EdgeError::Failed);
    let mut folder = Folder::new(rt.alloc(), &rt)?;
    let mut buffer = [0; 3];
    want(&rt, folder.create(b"here"), Ok(()));
    want(&rt, folder.write_at(b"here", 0, b"ab"), Ok(()));
    want(&rt, folder.create(b"here"), failed);
    want(&rt, folder.read_at(b"here", 0, &mut buffer), failed);
    want(&rt, folder.read_at(b"gone", 0, &mut buffer), failed);
    want(&rt, folder.write_at(b"gone", 0, b"x"), failed);
    want(&rt, folder.remove(b"gone"), failed);
    want(&rt, folder.rename(b"gone", b"here"), failed);
    want(&rt, folder.set_length(b"gone", 1), failed);
    want(&rt, folder.faults(), 7);
    want(&rt, folder.length(b"here"), Ok(Some(2)));
    want(&rt, folder.remove(b"here"), Ok(()));
    fs::remove_dir(&rt, "root")?;
    Ok(())
}

/// A file `kept`.
fn with_kept_file<R: Files>(rt: &R) -> Result<(), Fail> {
    fs::create_dir_all(rt, "root")?;
    fs::write(rt, "root/kept", b"kept")?;
    Ok(())
}

/// Stops where the file `kept` has other bytes, and removes it and the folder.
fn without_kept_file<R: Abort + AllocGlobal + Files>(rt: &R, wanted: &[u8]) -> Result<(), Fail> {
    want_file(rt, "root/kept", wanted)?;
    fs::remove_file(rt, "root/kept")?;
    fs::remove_dir(rt, "root")?;
    Ok(())
}

#[test]
fn a_folder_in_the_place_of_a_file_is_a_fault(rt: HostRuntime) -> Result<(), Fail> {
    let failed = Err(EdgeError::Failed);
    let mut folder = Folder::new(rt.alloc(), &rt)?;
    let mut buffer = [0; 1];
    with_kept_file(&rt)?;
    fs::create_dir(&rt, "root/place")?;
    want(&rt, folder.length(b"place"), Err(EdgeError::Failed));
    want(&rt, folder.create(b"place"), failed);
    want(&rt, folder.read_at(b"place", 0, &mut buffer), failed);
    want(&rt, folder.write_at(b"place", 0, b"x"), failed);
    want(&rt, folder.set_length(b"place", 0), failed);
    want(&rt, folder.rename(b"kept", b"place"), failed);
    want(&rt, folder.remove(b"place"), failed);
    want(&rt, folder.faults(), 7);
    fs::remove_dir(&rt, "root/place")?;
    without_kept_file(&rt, b"kept")
}

#[test]
fn a_file_that_vanished_is_a_fault(rt: HostRuntime) -> Result<(), Fail> {
    let failed = Err(EdgeError::Failed);
    let mut folder = Folder::new(rt.alloc(), &rt)?;
    let mut buffer = [0; 1];
    with_kept_file(&rt)?;
    want(&rt, folder.create(b"gone"), Ok(()));
    want(&rt, folder.write_at(b"gone", 0, b"ab"), Ok(()));
    fs::remove_file(&rt, "root/gone")?;
    want(&rt, folder.length(b"gone"), Ok(None));
    want(&rt, folder.read_at(b"gone", 0, &mut buffer), failed);
    want(&rt, folder.write_at(b"gone", 0, b"x"), failed);
    want(&rt, folder.faults(), 2);
    without_kept_file(&rt, b"kept")
}

/// A user whom permissions don't hold reads and writes all the same.
#[test]
fn a_file_without_permission_is_a_fault(rt: HostRuntime) -> Result<(), Fail> {
    let mut folder = Folder::new(rt.alloc(), &rt)?;
    let mut buffer = [0; 1];
    with_kept_file(&rt)?;
    fs::set_permissions(&rt, "root/kept", Permissions::from_mode(0))?;
    let is_read = folder.read_at(b"kept", 0, &mut buffer).is_ok();
    let is_written = folder.write_at(b"kept", 0, b"K").is_ok();
    want(&rt, is_read, is_written);
    want(&rt, folder.faults(), if is_read { 0 } else { 2 });
    fs::set_permissions(&rt, "root/kept", Permissions::from_mode(0o600))?;
    without_kept_file(&rt, if is_written { b"Kept" } else { b"kept" })
}

#[test]
fn files_lie_in_the_current_folder(rt: HostRuntime) -> Result<(), Fail> {
    let failed = Err(EdgeError::Failed);
    let mut shelf = CurrentFolder::new(&rt);
    let name = "text.s";
    let mut buffer = [9; 3];
    want(&rt, shelf.length(name), Ok(None));
    want(&rt, shelf.read_at(name, 0, &mut buffer), failed);
    want(&rt, shelf.append(name, b"ab"), Ok(()));
    want(&rt, shelf.append(name, b"cd"), Ok(()));
    want_file(&rt, name, b"abcd")?;
    want(&rt, shelf.length(name), Ok(Some(4)));
    want(&rt, shelf.read_at(name, 1, &mut buffer), Ok(()));
    want(&rt, buffer, *b"bcd");
    want(&rt, shelf.replace(name, b"xyz"), Ok(()));
    want_file(&rt, name, b"xyz")?;
    want(&rt, shelf.replace("no/folder", b""), failed);
    want(&rt, shelf.length("."), Err(EdgeError::Failed));
    want(&rt, shelf.faults(), 3);
    fs::remove_file(&rt, name)?;
    Ok(())
}
