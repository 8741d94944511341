//! Whole commands over a host and files in memory. Each line of the standard input says what there is, or plays a
//! scene; what it came to is printed.
//!
//! - `scene TEXT` begins a scene without anything, and prints its text.
//! - `file NAME BYTES` is a file of the host, `text NAME BYTES` one of the user; `lines NAME LINE; LINE` is one of the
//!   user, of these lines.
//! - `program NAME LINE; LINE` is a file of the host: what `asm` makes of these lines, and `put` puts there.
//! - `input BYTES` is the console's input.
//! - `fail EDGE NUMBER`: the call of this number of the input, output, errors, store, shelf or notes fails.
//! - `do WORDS` is a command.
//! - `play` carries out the commands on one new host; the files that it leaves are those that the scene goes on with.
//!   `run WORDS` is a last command, and a `play`.
//! - `each EDGE` carries them out again and again, with the first call of the edge failing, then the second, until
//!   none fails, and prints each outcome that differs from the one before. The files are as before then.
//!
//! A word stands for bytes: pieces between `+`, each an escaped text, or a count, `*` and an escaped text.
#![tactic(auto)]

use anyhow::{Result, bail};
use scene_script::{Play, parted, play_each};
use std::alloc::Global;

mod hosts;
mod scene;
mod telling;

use hosts::play;
use scene::Scene;
use telling::told;

/// Plays the scene once, and goes on with the files that it leaves.
fn play_once(alloc: Global, scene: &mut Scene) -> Result<String> {
    let seen = play(alloc, scene, scene.start.failures.as_slice())?;
    let text = told(alloc, scene, &seen)?;
    let left = seen.left;
    scene.texts = seen.texts;
    scene.start.files = left.files;
    scene.go_on();
    Ok(text)
}

/// Adds a last command, and plays the scene.
fn run(alloc: Global, scene: &mut Scene, words: &str) -> Result<String> {
    scene.add_command(words)?;
    play_once(alloc, scene)
}

/// Puts a program there, as `asm` and `put` make it.
fn build(alloc: Global, scene: &mut Scene, rest: &str) -> Result<()> {
    let (name, lines) = parted(rest);
    let mut apart = Scene::new(alloc);
    apart.take_line("lines", format!(in alloc; "p.s {lines}")?.as_str())?;
    apart.add_command("asm p.s p")?;
    apart.add_command(format!(in alloc; "put p {name}")?.as_str())?;
    let seen = play(alloc, &apart, &[])?;
    for status in &seen.statuses {
        if *status != 0 {
            bail!("no program {name}");
        }
    }
    let left = seen.left;
    for (name, bytes) in left.files {
        scene.start.files.insert(name, bytes)?;
    }
    Ok(())
}

/// Takes a line, and gives what is printed.
fn take_line(alloc: Global, scene: &mut Scene, line: &str) -> Result<String> {
    let (word, rest) = parted(line);
    if scene.take_line(word, rest)? {
        return Ok(String::new(alloc));
    }
    match word.as_bytes() {
        b"scene" => {
            *scene = Scene::new(alloc);
            Ok(format!(in alloc; "{line}\n")?)
        }
        b"program" => {
            build(alloc, scene, rest)?;
            Ok(String::new(alloc))
        }
        b"play" => play_once(alloc, scene),
        b"run" => run(alloc, scene, rest),
        b"each" => play_each(alloc, scene, rest),
        b"" => Ok(String::new(alloc)),
        _ => bail!("no line {line}"),
    }
}

fn main(rt: HostRuntime) -> Result<()> {
    let alloc = rt.alloc();
    let mut scene = Scene::new(alloc);
    for line in rt.lines(alloc) {
        let text = take_line(alloc, &mut scene, line?.as_str())?;
        print!(rt; "{text}")?;
    }
    Ok(())
}
