//! Single calls of the host monitor over a console and files in memory. Each line of the standard input says what there
//! is, notes a call, or plays a scene; what it came to is printed.
//!
//! - `scene TEXT` begins a scene without anything, and prints its text.
//! - `file NAME BYTES`, `input BYTES` and `fail EDGE NUMBER` say what the host begins with, as `scene_script` has them.
//! - `journal`: the host keeps a journal, which is printed.
//! - `[NAME = ][times N ]CALL ARGUMENTS` is a call, made once or N times. `$NAME` stands for the handle that it gives
//!   last, and `$round` for the number of the round, the first being 1.
//! - `play` makes the calls on one new host; the files that it leaves are those that the scene goes on with.
//! - `each EDGE` makes them again and again, with the first call of the edge failing, then the second, until none fails,
//!   and prints what came where it differs from what came before. The files are as before then.
//!
//! A call is written as the table of the host's calls has it, its arguments by their places: numbers are decimal or
//! `$NAME`; bytes are a word, as `scene_script` has them; what a stream is opened by is `File:` and such a word,
//! `ConIn`, `ConOut` or `ConErr`; `true` or `false`; tapes are lists of numbers, with `,` between them and `COUNT*` before
//! one that comes so often, `-` being the empty one; registers are such a list too, the program counter first, of which
//! what is left out is 0. After a call that gives no reply no further one is made.
#![tactic(auto)]

use anyhow::Result;
use scene_script::{Play, parted, play_each};
use std::alloc::Global;

mod arguments;
mod calls;
mod hosts;
mod line;
mod record;
mod runs;
mod scene;
mod spelling;

use hosts::play;
use scene::Scene;

/// Plays the scene once, and goes on with the files that it leaves.
fn play_once(alloc: Global, scene: &mut Scene) -> Result<String> {
    let (played, files) = play(alloc, scene, scene.start.failures.as_slice())?;
    scene.start.files = files;
    scene.go_on();
    Ok(played.text)
}

/// Takes a line, and gives what is printed.
fn take_line(alloc: Global, scene: &mut Scene, line: &str) -> Result<String> {
    let (word, rest) = parted(line);
    if scene.start.take_line(word, rest)? {
        return Ok(String::new(alloc));
    }
    match word.as_bytes() {
        b"scene" => {
            *scene = Scene::new(alloc);
            return Ok(format!(in alloc; "{line}\n")?);
        }
        b"play" => return play_once(alloc, scene),
        b"each" => return play_each(alloc, scene, rest),
        b"journal" => scene.journal = true,
        b"" => (),
        _ => scene.add_line(line)?,
    }
    Ok(String::new(alloc))
}

fn main(rt: HostRuntime) -> Result<()> {
    let alloc = rt.alloc();
    let mut scene = Scene::new(alloc);
    for line in rt.lines(alloc) {
        let text = take_line(alloc, &mut scene, line?.as_str())?;
        print!(rt; "{text}")?;
    }
    Ok(())
}
