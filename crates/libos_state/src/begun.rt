ghost use Rattle.std.specs.Prelude.{◌≡◌, ◌∷◌, IfOk};
ghost use Rattle.std.specs.Option.{option_copied};
ghost use Rattle.libos_state.specs.Entered as spec;
ghost use Rattle.libos_state.specs.Records as records;
ghost use Rattle.libos_state.specs.Records.{process_named};

use crate::cont::{Cont, Event, Stage};
use crate::notes::ProcessNote;
use crate::state::{Boot, LibOs};
use abi_calls::Settings;
use bas_edge::Memory;
use bas_items::Items;
use rv_core::Context;
use std::alloc::{AllocError, Global};

/// The names that a start keeps: the program's, and its arguments, of which the first is that name.
fn names_of(
    alloc: Global,
    program: &[u8],
    args: &[Items<u8>],
) -> Result<Items<Items<u8>>, AllocError>
    ensures { IfOk result (λ names. names ≡ program.now ∷ program.now ∷ args.now) }
{
    let mut names = Items::new(alloc);
    names.push(Items::from_slice(alloc, program)?)?;
    names.push(Items::from_slice(alloc, program)?)?;
    for arg in args {
        names.push(Items::from_slice(alloc, arg.as_slice())?)?;
    }
    Ok(names)
}

/// The record of the process of this id.
pub fn process_by_pid(processes: &[ProcessNote], pid: u64) -> Option<&ProcessNote>
    ensures { option_copied result ≡ process_named pid processes.now }
{
    processes.iter().find(|note| note.pid == pid)
}

impl LibOs {
    /// The library OS that begins a run of a program with these arguments behind its name: its first service is the start.
    pub fn boot(
        alloc: Global,
        program: &[u8],
        args: Items<Items<u8>>,
        settings: Settings,
    ) -> Result<LibOs, Memory>
        ensures { IfOk result (λ os. os ≡ spec.booting program.now args settings) }
    {
        let names = names_of(alloc, program, args.as_slice())?;
        let event = Event::Boot {
            program: Items::from_slice(alloc, program)?,
            args,
        };
        let cont = Cont {
            event,
            stage: Stage::Configure,
            next: Context { pc: 0, x: [0; 31] },
            names,
            bytes: Items::new(alloc),
            handles: Items::new(alloc),
            later: Items::new(alloc),
            numbers: Items::new(alloc),
        };
        Ok(LibOs {
            settings,
            boot: Boot::Going,
            next_id: 1,
            processes: Items::new(alloc),
            threads: Items::new(alloc),
            descriptions: Items::new(alloc),
            queue: Items::new(alloc),
            cont: Some(cont),
        })
    }

    /// How far the start of the run is. Takes no memory.
    pub fn booted(&self) -> Boot
        ensures { result ≡ self.now.boot }
    {
        self.boot
    }

    /// The exit code that the record of process 1 holds; `None` where it holds none. Takes no memory.
    pub fn exit_code(&self) -> Option<u8>
        ensures { result ≡ records.exit_code self.now }
    {
        match process_by_pid(self.processes.as_slice(), 1) {
            Some(note) => note.code,
            None => None,
        }
    }
}
