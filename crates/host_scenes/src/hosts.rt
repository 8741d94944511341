use crate::calls::call_of;
use crate::line::{Line, line_of};
use crate::record::Record;
use crate::runs::Runs;
use crate::scene::Scene;
use crate::spelling::{add_journal, add_reply};
use abi_calls::{Host, HostError};
use anyhow::Result;
use bas_edge::{Sink, Source, Store};
use scene_script::{
    Failure, Files, Holds, Memories, Played, Shows, add_left, host_over, left_by, memories_of,
};
use std::alloc::Global;
use std::fmt::Write;

/// The word of an error.
fn word_of(error: HostError) -> &'static str {
    match error {
        HostError::Failed => "Failed",
        HostError::Memory => "Memory",
    }
}

/// Makes the call of a line once, and gives its reply in words.
fn make_call<H: Host>(
    alloc: Global,
    host: &mut H,
    record: &mut Record,
    line: &Line<'_>,
) -> Result<String> {
    let call = call_of(alloc, &record.names, line.call)?;
    record.look(&call)?;
    let mut text = String::new(alloc);
    match host.call(&call) {
        Ok(reply) => {
            record.keep(line, &reply)?;
            add_reply(&mut text, &reply)?;
        }
        Err(error) => {
            record.over = true;
            text.push_str(word_of(error))?;
        }
    }
    Ok(text)
}

/// Makes the calls of a line, and gives their replies in words.
fn make_calls<H: Host>(
    alloc: Global,
    host: &mut H,
    record: &mut Record,
    line: &Line<'_>,
) -> Result<String> {
    let mut replies = Runs::new(alloc, "; ", " times ");
    for round in 0..line.times {
        if record.over {
            break;
        }
        record.name("round", u64::from(round) + 1)?;
        replies.add(make_call(alloc, host, record, line)?)?;
    }
    Ok(replies.into_text()?)
}

/// Makes the calls of all lines, until one gives no reply, and records what came.
fn make_all<H: Host>(
    alloc: Global,
    host: &mut H,
    record: &mut Record,
    lines: &[String],
) -> Result<()> {
    for text in lines {
        if record.over {
            break;
        }
        let line = line_of(text.as_str())?;
        let replies = make_calls(alloc, host, record, &line)?;
        writeln!(&mut record.text, "{text}: {replies}")?;
    }
    let (answered, faults) = (host.answered(), host.faults());
    writeln!(
        &mut record.text,
        "{answered} calls answered, {faults} faults"
    )?;
    Ok(())
}

/// Makes the calls of the scene on one host that stands on these, and gives what came and the files that are left.
fn play_over<
    I: Source + Shows + Drop,
    O: Sink + Shows + Drop,
    P: Sink + Shows + Drop,
    E: Store + Holds + Drop,
>(alloc: Global, scene: &Scene, memories: Memories<I, O, P, E>) -> Result<(Played, Files)> {
    let mut host = host_over(alloc, memories, scene.journal)?;
    let mut record = Record::new(alloc, &scene.start.files)?;
    make_all(alloc, &mut host, &mut record, scene.lines.as_slice())?;
    let left = left_by(alloc, &host, &record.files)?;
    let mut text = record.text;
    add_left(&mut text, &scene.start, &left)?;
    if let Some(crossings) = host.journal() {
        add_journal(alloc, &mut text, crossings)?;
    }
    let failed = record.over;
    Ok((Played { text, failed }, left.files))
}

/// Makes the calls of the scene on one host in memory, where these calls of the outside fail.
pub fn play(alloc: Global, scene: &Scene, failures: &[Failure]) -> Result<(Played, Files)> {
    let memories = memories_of(alloc, &scene.start, failures)?;
    play_over(alloc, scene, memories)
}
