ghost use Rattle.std.specs.Prelude.{◌≡◌, OnOk, OnErr};
ghost use Rattle.abi_calls.specs.Abi.{journalled};
ghost use Rattle.host_objects.specs.Objects.{objects_of};
ghost use Rattle.host_monitor.specs.Edges.{told_of, sum_of};
ghost use Rattle.host_monitor.specs.Counted.{CountsUsers};

use crate::console::Console;
use crate::edges::Edges;
use crate::outside::Outside;
use crate::serve::serve;
use abi_calls::{Call, Crossing, Host, HostError, Reply, Turned};
use bas_edge::{Memory, Sink, Source, Store};
use bas_items::Items;
use host_files::Files;
use host_objects::{Numbers, Objects};
use std::alloc::Global;

/// A host over an input, an output, errors, a store of files, and numbers for its objects. It keeps a journal of
/// its answered calls where that is asked for.
///
/// A read of the console's input takes until it has all that was asked or the input ends, and never takes
/// again after the end.
#[derive(Drop)]
pub struct Monitor<I: Source, O, P, E: Store, N: Numbers> {
    alloc: Global,
    objects: Objects<N>,
    outside: Outside<I, O, P, E>,
    answered: u64,
    journal: Option<Items<Crossing>>,
    ghost counted: { CountsUsers (objects_of objects) outside.files.users },
}

/// Adds an answered call to the journal, where it is kept. After an `Err` it is as before.
fn note(
    journal: &mut Option<Items<Crossing>>,
    turns: u64,
    call: &Call,
    reply: &Reply,
) -> Result<(), Memory>
    ensures noted { OnOk result (journal.new ≡ journalled journal.old
        (record { turns = turns; call = call.now; reply = reply.now })) }
    ensures same { OnErr result (journal.new ≡ journal.old) }
{
    if let Some(crossings) = journal {
        let crossing = Crossing {
            turns,
            call: call.clone()?,
            reply: reply.clone()?,
        };
        crossings.push(crossing)?;
    }
    Ok(())
}

impl<I: Source + Drop, O: Sink + Drop, P: Sink + Drop, E: Store + Drop, N: Numbers + Drop> Monitor<
    I,
    O,
    P,
    E,
    N,
> {
    ghost use Rattle.std.specs.Prelude.{◌≡◌, Some, None, [], if◌then◌else◌, IfOk};
    ghost use Rattle.std.specs.Option.{option_copied};
    ghost use Rattle.host_objects.specs.Objects.{untouched};
    ghost use Rattle.host_monitor.specs.Monitor.{input_of, output_of, errors_of, store_of};

    /// A host that was not used.
    pub fn new(
        alloc: Global,
        input: I,
        output: O,
        errors: P,
        store: E,
        numbers: N,
        journal: bool,
    ) -> Result<Monitor<I, O, P, E, N>, Memory>
        ensures objects { IfOk result (λ monitor.
            ⟦<Monitor<I, O, P, E, N> as Host>⟧.objects monitor ≡ untouched) }
        ensures unasked { IfOk result (λ monitor.
            ⟦<Monitor<I, O, P, E, N> as Host>⟧.answered_count monitor ≡ 0) }
        ensures told { IfOk result (λ monitor. ⟦<Monitor<I, O, P, E, N> as Host>⟧.told monitor
            ≡ told_of (E.files store) (I.left input) (O.given output) (P.given errors)) }
        ensures faults { IfOk result (λ monitor. ⟦<Monitor<I, O, P, E, N> as Host>⟧.fault_count monitor
            ≡ sum_of (I.fault_count input) (O.fault_count output)
            (P.fault_count errors) (E.fault_count store)) }
        ensures journal { IfOk result (λ monitor.
            ⟦<Monitor<I, O, P, E, N> as Host>⟧.journal monitor
            ≡ (if journal then Some [] else None)) }
        ensures input { IfOk result (λ monitor. input_of monitor ≡ input) }
        ensures output { IfOk result (λ monitor. output_of monitor ≡ output) }
        ensures errors { IfOk result (λ monitor. errors_of monitor ≡ errors) }
        ensures store { IfOk result (λ monitor. store_of monitor ≡ store) }
    {
        let journal = if journal {
            Some(Items::new(alloc))
        } else {
            None
        };
        Ok(Monitor {
            alloc,
            objects: Objects::new(alloc, numbers),
            outside: Outside {
                input: Console::new(input),
                output,
                errors,
                files: Files::new(alloc, store),
            },
            answered: 0,
            journal,
        })
    }

    /// The console's input.
    pub fn input(&self) -> &I
        ensures { result.now ≡ input_of self.now }
    {
        self.outside.input.source()
    }

    /// The console's output.
    pub fn output(&self) -> &O
        ensures { result.now ≡ output_of self.now }
    {
        &self.outside.output
    }

    /// The console's errors.
    pub fn errors(&self) -> &P
        ensures { result.now ≡ errors_of self.now }
    {
        &self.outside.errors
    }

    /// The files.
    pub fn store(&self) -> &E
        ensures { result.now ≡ store_of self.now }
    {
        self.outside.files.store()
    }

    /// The answered calls, where a journal is kept.
    pub fn journal(&self) -> Option<&[Crossing]>
        ensures { option_copied result ≡ ⟦<Monitor<I, O, P, E, N> as Host>⟧.journal self.now }
    {
        match &self.journal {
            Some(crossings) => Some(crossings.as_slice()),
            None => None,
        }
    }
}

impl<I: Source + Drop, O: Sink + Drop, P: Sink + Drop, E: Store + Drop, N: Numbers + Drop> Host
    for Monitor<I, O, P, E, N> {
    ghost objects = { λ m. objects_of m.objects };

    ghost told = { λ m. told_of (E.files m.outside.files.store) (I.left m.outside.input)
        (O.given m.outside.output) (P.given m.outside.errors) };

    ghost journal = { λ m. m.journal };

    ghost answered_count = { λ m. m.answered };

    ghost fault_count = { λ m. sum_of (I.fault_count m.outside.input)
        (O.fault_count m.outside.output) (P.fault_count m.outside.errors)
        (E.fault_count m.outside.files.store) };

    ghost sound = { λ m. m.objects.sound };

    fn turn(&mut self) -> Turned {
        self.objects.turn()
    }

    fn call(&mut self, call: &Call) -> Result<Reply, HostError> {
        let turns = self.objects.positions().turns;
        let reply = serve(self.alloc, &mut self.objects, &mut self.outside, call)?;
        note(&mut self.journal, turns, call, &reply)?;
        self.answered = self.answered.saturating_add(1);
        Ok(reply)
    }

    fn answered(&self) -> u64 {
        self.answered
    }

    fn faults(&self) -> u64 {
        self.outside.faults()
    }

    fn fresh(&self) -> bool {
        self.objects.is_fresh() & (self.answered == 0)
    }
}
