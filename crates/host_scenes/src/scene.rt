use crate::hosts::play;
use anyhow::Result;
use scene_script::{Failure, Play, Played, Start};
use std::alloc::{AllocError, Global};

/// What a scene begins with: what its host does, whether it keeps a journal, and the lines of the calls that are made one
/// after another on one host.
#[derive(Drop)]
pub struct Scene {
    alloc: Global,
    pub start: Start,
    pub journal: bool,
    pub lines: Vec<String>,
}

impl Scene {
    /// A scene without anything.
    pub fn new(alloc: Global) -> Scene {
        Scene {
            alloc,
            start: Start::new(alloc),
            journal: false,
            lines: Vec::new(alloc),
        }
    }

    /// Adds the line of a call.
    pub fn add_line(&mut self, line: &str) -> Result<(), AllocError> {
        self.lines.push(String::from_str(self.alloc, line)?)?;
        Ok(())
    }
}

impl Play for Scene {
    fn play(&self, failures: &[Failure]) -> Result<Played> {
        let (played, _) = play(self.alloc, self, failures)?;
        Ok(played)
    }

    fn go_on(&mut self) {
        self.start.go_on();
        self.journal = false;
        self.lines = Vec::new(self.alloc);
    }
}
