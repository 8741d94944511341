//! That calls succeed with ample memory, and that a chosen call fails: no clause can say the one, and each form shows the other once.
ghost use Rattle.bas_edge.specs.Files.{HasFile};

use bas_edge::{
    ByteSink, ByteSource, CalmShelf, CalmSink, CalmSource, EdgeError, Failed, Fetched, MapShelf,
    MapStore, Shelf, Sink, Source, Store, fetch,
};
use std::alloc::{AllocError, Global};
use std::process::Abort;
use std::test::Fail;

/// Takes once, and stops where other bytes come or the call fails otherwise.
fn want_taken<S: Source>(rt: &impl Abort, source: &mut S, want: Result<&[u8], Failed>) {
    let mut buffer = [0; 4];
    let taken = source.take(&mut buffer);
    match (taken, want) {
        (Ok(count), Ok(bytes)) => assert_eq!(rt; &buffer[..count], bytes),
        (Err(_), Err(_)) => {}
        _ => panic!(rt; "another answer of take"),
    }
}

/// Gives once, and stops where another count is answered; `None` wants a fault.
fn want_given<S: Sink>(rt: &impl Abort, sink: &mut S, piece: &[u8], want: Option<usize>) {
    match (sink.give(piece), want) {
        (Ok(count), Some(wanted)) => assert!(rt; count == wanted),
        (Err(EdgeError::Failed), None) => {}
        _ => panic!(rt; "another answer of give"),
    }
}

#[test]
fn sources_are_taken_to_their_end(rt: HostRuntime) -> Result<(), Fail> {
    let mut calm = CalmSource::new(b"hi\n".to_vec(rt.alloc())?);
    want_taken(&rt, &mut calm, Ok(b"hi\n".as_slice()));
    want_taken(&rt, &mut calm, Ok(b"".as_slice()));
    let mut source = ByteSource::new(b"hello".to_vec(rt.alloc())?, [2].to_vec(rt.alloc())?);
    want_taken(&rt, &mut source, Ok(b"hell".as_slice()));
    want_taken(&rt, &mut source, Err(Failed));
    assert_eq!(rt; source.faults(), 1);
    assert_eq!(rt; source.left(), b"o".as_slice());
    want_taken(&rt, &mut source, Ok(b"o".as_slice()));
    Ok(())
}

#[test]
fn sinks_keep_what_they_are_given(rt: HostRuntime) -> Result<(), Fail> {
    let mut calm = CalmSink::new(rt.alloc());
    want_given(&rt, &mut calm, b"hi", Some(2));
    assert_eq!(rt; calm.given(), b"hi".as_slice());
    let mut sink = ByteSink::new(rt.alloc(), [2].to_vec(rt.alloc())?);
    want_given(&rt, &mut sink, b"hi", Some(2));
    want_given(&rt, &mut sink, b"!", None);
    want_given(&rt, &mut sink, b"\n", Some(1));
    assert_eq!(rt; sink.faults(), 1);
    assert_eq!(rt; sink.given(), b"hi\n".as_slice());
    Ok(())
}

/// A store with the one file `a`, whose name is given twice.
fn store(alloc: Global, failing: &[u64]) -> Result<MapStore, Fail> {
    let mut files = Vec::new(alloc);
    files.push((b"a".to_vec(alloc)?, b"old".to_vec(alloc)?))?;
    files.push((b"a".to_vec(alloc)?, b"xy".to_vec(alloc)?))?;
    Ok(MapStore::new(alloc, files, failing.to_vec(alloc)?)?)
}

/// Stops where the store has no such file.
fn want_file(rt: &impl Abort, store: &MapStore, name: &[u8])
    ensures { HasFile store.now.held name.now }
{
    assert!(rt; store.file(name).is_some());
}

/// Stops where the file has other bytes, or is or isn't there.
fn want_bytes(rt: &impl Abort, store: &MapStore, name: &[u8], want: Option<&[u8]>) {
    assert_eq!(rt; store.file(name), want);
}

fn write(rt: &impl Abort, store: &mut MapStore, at: u64, bytes: &[u8]) -> Result<(), EdgeError> {
    want_file(rt, store, b"a");
    store.write_at(b"a", at, bytes)
}

fn cut(rt: &impl Abort, store: &mut MapStore, length: u64) -> Result<(), EdgeError> {
    want_file(rt, store, b"a");
    store.set_length(b"a", length)
}

fn make(rt: &impl Abort, store: &mut MapStore, name: &[u8]) -> Result<(), EdgeError> {
    assert!(rt; store.file(name).is_none());
    store.create(name)
}

fn rename(rt: &impl Abort, store: &mut MapStore, from: &[u8], to: &[u8]) -> Result<(), EdgeError> {
    want_file(rt, store, from);
    store.rename(from, to)
}

fn remove(rt: &impl Abort, store: &mut MapStore, name: &[u8]) -> Result<(), EdgeError> {
    want_file(rt, store, name);
    store.remove(name)
}

fn first_byte(rt: &impl Abort, store: &mut MapStore) -> Result<u8, EdgeError> {
    let mut buffer = [0; 1];
    match store.file(b"a") {
        Some(bytes) => assert!(rt; bytes.len() > 0),
        None => panic!(rt; "no such file"),
    }
    store.read_at(b"a", 0, &mut buffer)?;
    Ok(buffer[0])
}

#[test]
fn stores_read_and_write_files(rt: HostRuntime) -> Result<(), Fail> {
    let mut store = store(rt.alloc(), &[])?;
    assert!(rt; store.length(b"a")? == Some(2));
    assert!(rt; store.length(b"b")? == None);
    assert_eq!(rt; first_byte(&rt, &mut store)?, b'x');
    write(&rt, &mut store, 3, b"!")?;
    want_bytes(&rt, &store, b"a", Some(b"xy\0!".as_slice()));
    cut(&rt, &mut store, 1)?;
    want_bytes(&rt, &store, b"a", Some(b"x".as_slice()));
    Ok(())
}

#[test]
fn stores_make_and_name_files(rt: HostRuntime) -> Result<(), Fail> {
    let mut store = store(rt.alloc(), &[])?;
    make(&rt, &mut store, b"b")?;
    want_bytes(&rt, &store, b"b", Some(b"".as_slice()));
    rename(&rt, &mut store, b"a", b"b")?;
    want_bytes(&rt, &store, b"a", None);
    want_bytes(&rt, &store, b"b", Some(b"xy".as_slice()));
    remove(&rt, &mut store, b"b")?;
    want_bytes(&rt, &store, b"b", None);
    Ok(())
}

#[test]
fn the_second_write_fails_and_the_first_stands(rt: HostRuntime) -> Result<(), Fail> {
    let mut store = store(rt.alloc(), &[2])?;
    write(&rt, &mut store, 0, b"1")?;
    assert!(rt; matches!(write(&rt, &mut store, 1, b"2"), Err(EdgeError::Failed)));
    assert_eq!(rt; store.faults(), 1);
    want_bytes(&rt, &store, b"a", Some(b"1y".as_slice()));
    Ok(())
}

/// Shelves' files: `hi.s`, 9 bytes long.
fn texts(alloc: Global) -> Result<Vec<(String, Vec<u8>)>, AllocError> {
    let mut texts = Vec::new(alloc);
    texts.push((
        String::from_str(alloc, "hi.s")?,
        b"li a0, 1\n".to_vec(alloc)?,
    ))?;
    Ok(texts)
}

/// Fetches, and stops where the bytes differ.
fn want_fetched<F: Shelf>(
    rt: &impl Abort,
    alloc: Global,
    shelf: &mut F,
    want: &[u8],
) -> Result<(), EdgeError> {
    match fetch(alloc, shelf, "hi.s", 9)? {
        Fetched::Bytes(bytes) => assert_eq!(rt; bytes.as_slice(), want),
        _ => panic!(rt; "no bytes were fetched"),
    }
    Ok(())
}

#[test]
fn shelves_are_fetched_from(rt: HostRuntime) -> Result<(), Fail> {
    let mut shelf = CalmShelf::new(rt.alloc(), texts(rt.alloc())?)?;
    want_fetched(&rt, rt.alloc(), &mut shelf, b"li a0, 1\n")?;
    assert!(rt; matches!(fetch(rt.alloc(), &mut shelf, "hi.s", 8)?, Fetched::Large(9)));
    assert!(rt; matches!(fetch(rt.alloc(), &mut shelf, "hi", 8)?, Fetched::Absent));
    Ok(())
}

#[test]
fn shelves_are_appended_to(rt: HostRuntime) -> Result<(), Fail> {
    let mut shelf = MapShelf::new(rt.alloc(), texts(rt.alloc())?, [2].to_vec(rt.alloc())?)?;
    shelf.append("trace", b"line\n")?;
    assert!(rt; matches!(shelf.append("trace", b"line\n"), Err(EdgeError::Failed)));
    assert_eq!(rt; shelf.faults(), 1);
    shelf.append("trace", b"more\n")?;
    assert_eq!(rt; shelf.file("trace"), Some(b"line\nmore\n".as_slice()));
    shelf.replace("trace", b"")?;
    assert_eq!(rt; shelf.file("trace"), Some(b"".as_slice()));
    want_fetched(&rt, rt.alloc(), &mut shelf, b"li a0, 1\n")?;
    Ok(())
}
