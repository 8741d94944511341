use crate::forms::{Holds, Shows, sink_of, source_of, store_of};
use crate::start::{Edge, Failure, Files, Start};
use anyhow::Result;
use bas_edge::{ByteSink, ByteSource, MapStore, Memory, Sink, Source, Store};
use host_monitor::Monitor;
use host_objects::Counting;
use std::alloc::{AllocError, Global};
use std::collections::{BTreeMap, BTreeSet};

/// What a host stands on.
#[derive(Drop)]
pub struct Memories<I, O, P, E> {
    pub input: I,
    pub output: O,
    pub errors: P,
    pub store: E,
}

/// What a host leaves.
#[derive(Drop)]
pub struct Left {
    pub output: Vec<u8>,
    pub errors: Vec<u8>,
    /// How many bytes of the console's input are left.
    pub input: usize,
    pub files: Files,
}

/// The forms in memory of a start, of which these calls fail.
pub fn memories_of(
    alloc: Global,
    start: &Start,
    failures: &[Failure],
) -> Result<Memories<ByteSource, ByteSink, ByteSink, MapStore>> {
    Ok(Memories {
        input: source_of(alloc, start.input.as_slice(), failures)?,
        output: sink_of(alloc, failures, Edge::Output)?,
        errors: sink_of(alloc, failures, Edge::Errors)?,
        store: store_of(alloc, &start.files, failures)?,
    })
}

/// A host that was not used, over these.
pub fn host_over<I: Source + Drop, O: Sink + Drop, P: Sink + Drop, E: Store + Drop>(
    alloc: Global,
    memories: Memories<I, O, P, E>,
    journal: bool,
) -> Result<Monitor<I, O, P, E, Counting>, Memory> {
    let Memories {
        input,
        output,
        errors,
        store,
    } = memories;
    Monitor::new(
        alloc,
        input,
        output,
        errors,
        store,
        Counting::new(alloc),
        journal,
    )
}

/// The files of these names.
pub fn files_left<H: Holds>(
    alloc: Global,
    names: &BTreeSet<Vec<u8>>,
    holder: &H,
) -> Result<Files, AllocError> {
    let mut files = BTreeMap::new(alloc);
    for name in names.iter() {
        if let Some(bytes) = holder.held(name.as_slice()) {
            let bytes = Vec::from_slice(alloc, bytes)?;
            files.insert(name.clone()?, bytes)?;
        }
    }
    Ok(files)
}

/// What a host leaves, of its files those of these names.
pub fn left_by<
    I: Source + Shows + Drop,
    O: Sink + Shows + Drop,
    P: Sink + Shows + Drop,
    E: Store + Holds + Drop,
>(
    alloc: Global,
    host: &Monitor<I, O, P, E, Counting>,
    names: &BTreeSet<Vec<u8>>,
) -> Result<Left, AllocError> {
    Ok(Left {
        output: Vec::from_slice(alloc, host.output().shown())?,
        errors: Vec::from_slice(alloc, host.errors().shown())?,
        input: host.input().shown().len(),
        files: files_left(alloc, names, host.store())?,
    })
}
