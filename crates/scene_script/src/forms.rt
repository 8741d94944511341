use crate::start::{Edge, Failure, Files};
use anyhow::Result;
use bas_edge::{ByteSink, ByteSource, MapShelf, MapStore};
use std::alloc::{AllocError, Global};

/// A form in memory that shows its bytes.
pub trait Shows {
    /// The bytes that it was given, or that it has left.
    fn shown(&self) -> &[u8];
}

/// A form in memory that holds files.
pub trait Holds {
    /// The bytes of a file; `None` where no file has the name.
    fn held(&self, name: &[u8]) -> Option<&[u8]>;
}

impl Shows for ByteSource {
    fn shown(&self) -> &[u8] {
        self.left()
    }
}

impl Shows for ByteSink {
    fn shown(&self) -> &[u8] {
        self.given()
    }
}

impl Holds for MapStore {
    fn held(&self, name: &[u8]) -> Option<&[u8]> {
        self.file(name)
    }
}

impl Holds for MapShelf {
    fn held(&self, name: &[u8]) -> Option<&[u8]> {
        match str::from_utf8(name) {
            Ok(name) => self.file(name),
            Err(_) => None,
        }
    }
}

/// The numbers of the edge's calls that fail.
fn calls_of(alloc: Global, failures: &[Failure], edge: Edge) -> Result<Vec<u64>, AllocError> {
    let mut calls = Vec::new(alloc);
    for failure in failures {
        if failure.edge == edge {
            calls.push(failure.call)?;
        }
    }
    Ok(calls)
}

/// The console's input.
pub(crate) fn source_of(
    alloc: Global,
    input: &[u8],
    failures: &[Failure],
) -> Result<ByteSource, AllocError> {
    let bytes = Vec::from_slice(alloc, input)?;
    let calls = calls_of(alloc, failures, Edge::Input)?;
    Ok(ByteSource::new(bytes, calls))
}

/// The sink of an edge.
pub fn sink_of(alloc: Global, failures: &[Failure], edge: Edge) -> Result<ByteSink, AllocError> {
    let calls = calls_of(alloc, failures, edge)?;
    Ok(ByteSink::new(alloc, calls))
}

/// The host's files.
pub(crate) fn store_of(alloc: Global, files: &Files, failures: &[Failure]) -> Result<MapStore> {
    let mut list = Vec::new(alloc);
    for (name, bytes) in files.iter() {
        let entry = (name.clone()?, bytes.clone()?);
        list.push(entry)?;
    }
    let calls = calls_of(alloc, failures, Edge::Store)?;
    Ok(MapStore::new(alloc, list, calls)?)
}

/// The user's files.
pub fn shelf_of(alloc: Global, texts: &Files, failures: &[Failure]) -> Result<MapShelf> {
    let mut list = Vec::new(alloc);
    for (name, bytes) in texts.iter() {
        let entry = (String::from_utf8(name.clone()?)?, bytes.clone()?);
        list.push(entry)?;
    }
    let calls = calls_of(alloc, failures, Edge::Shelf)?;
    Ok(MapShelf::new(alloc, list, calls)?)
}
