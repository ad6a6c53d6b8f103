//! How far the jobs are: the state of the machine.

ghost use Rattle.std.specs.Prelude.{◌≡◌, ◌<◌, ◌++◌, ◌∷◌, [], suc, length, filter_map, replicate, is_none, not, OnOk, OnErr, IfOk, None};
ghost use Rattle.std.specs.List.{list_any};
ghost use Rattle.index_model.specs.Machine.{Going, Stopped, Refused, is_going, is_stopped};
ghost use Rattle.index_model.specs.MachineEvents.{is_memory, is_running, with_output, least_fault, made_in};
ghost use Rattle.stage_core.specs.Outputs.{output_seen};
ghost use Rattle.stage_core.specs.Slots.{slots_seen};
ghost use Rattle.stage_core.specs.Stopping.{stopped_if};
ghost use Rattle.stage_core.specs.Place.{place_seen};

use crate::output::Output;
use crate::place::Place;
use crate::slots::{Slots, is_whole, least_fault, vacant};
use ix_base::Fault;
use std::alloc::{AllocError, Global};
use std::marker::Model;
use std::mem;
use std::snapshot::Snapshot;

// Whether jobs go on.
#[derive(Clone, Copy)]
enum End {
    Going,
    Stopped,
    Refused(Fault),
}

/// The state of the machine.
#[derive(Drop)]
pub(crate) struct Progress<'f> {
    // What the closed kinds brought. It is gone, and contracts alone see it.
    closed: Vec<Snapshot<Slots<'f>>>,
    drawn: usize,
    brought: Slots<'f>,
    end: End,
}

impl<'f> Model for Progress<'f> {
    ghost use Rattle.index_model.specs.Machine.{State};
    ghost use Rattle.index_model.specs.Outputs.{Made};

    ghost Value = { State Made };

    ghost use Rattle.stage_core.specs.Progress.{progress_seen};

    ghost view = { progress_seen };
}

impl<'f> Progress<'f> {
    /// The first kind is open, with so many jobs. None of them is drawn.
    ///
    /// # Errors
    ///
    /// Where memory was refused.
    pub fn start(alloc: Global, jobs: u32) -> Result<Progress<'f>, AllocError>
        ensures { IfOk result (λ p. p ≡ record { closed = []; drawn = 0; brought = replicate jobs None; end = Going }) }
    {
        Ok(Progress {
            closed: Vec::new(alloc),
            drawn: 0,
            brought: vacant(alloc, jobs)?,
            end: End::Going,
        })
    }

    /// No jobs, for a file that is refused from the start.
    pub fn refused(alloc: Global, fault: Fault) -> Progress<'f>
        ensures { result ≡ record { closed = []; drawn = 0; brought = []; end = Refused fault } }
    {
        Progress {
            closed: Vec::new(alloc),
            drawn: 0,
            brought: Vec::new(alloc),
            end: End::Refused(fault),
        }
    }

    /// Whether jobs go on.
    pub fn is_going(&self) -> bool
        ensures { result ≡ is_going self.now.end }
    {
        matches!(self.end, End::Going)
    }

    /// Whether it is stopped.
    pub fn is_stopped(&self) -> bool
        ensures { result ≡ is_stopped self.now.end }
    {
        matches!(self.end, End::Stopped)
    }

    /// The next job of the open kind is drawn.
    pub fn draw(&mut self)
        requires { self.old.drawn < length self.old.brought }
        ensures { self.new ≡ record self.old { drawn = suc self.old.drawn } }
    {
        self.drawn += 1;
    }

    /// Whether the job is drawn and isn't finished.
    pub fn is_running(&self, place: Place) -> bool
        ensures { result ≡ is_running self.now (place_seen place) }
    {
        place.kind == self.closed.len()
            && place.number < self.drawn
            && matches!(self.brought.get(place.number), Some(None))
    }

    /// The job with this number of the open kind is finished. Want of memory stops the machine.
    pub fn bring(&mut self, number: usize, output: Output<'f>)
        requires { number < length self.old.brought }
        ensures { self.new ≡ stopped_if (with_output self.old number (output_seen output.entry)) (is_memory (output_seen output.entry)) }
    {
        if output.wants_memory() {
            self.end = End::Stopped;
        }
        self.brought[number] = Some(output);
    }

    /// What the jobs of the open kind brought.
    pub fn brought(&self) -> &[Option<Output<'f>>]
        ensures { slots_seen result.now ≡ self.now.brought }
    {
        &self.brought
    }

    /// Whether all jobs of the open kind are finished.
    pub fn is_whole(&self) -> bool
        ensures { result ≡ not (list_any is_none self.now.brought) }
    {
        is_whole(&self.brought)
    }

    /// The fault of the least job that brought one.
    pub fn least_fault(&self) -> Option<Fault>
        ensures { result ≡ least_fault self.now.brought }
    {
        least_fault(&self.brought)
    }

    /// The machine stops.
    pub fn stop(&mut self)
        ensures { self.new ≡ record self.old { end = Stopped } }
    {
        self.end = End::Stopped;
    }

    /// The file is refused.
    pub fn refuse(&mut self, fault: Fault)
        ensures { self.new ≡ record self.old { end = Refused fault } }
    {
        self.end = End::Refused(fault);
    }

    /// The open kind closes, and the next one opens with so many jobs. Answers what the jobs brought.
    ///
    /// # Errors
    ///
    /// Where memory was refused nothing has changed.
    pub fn close(&mut self, alloc: Global, jobs: u32) -> Result<Slots<'f>, AllocError>
        ensures brought { IfOk result (λ slots. slots_seen slots.items ≡ self.old.brought) }
        ensures closed { OnOk result (self.new ≡ record self.old { closed = self.old.closed ++ filter_map made_in self.old.brought ∷ []; drawn = 0; brought = replicate jobs None }) }
        ensures same { OnErr result (self.new ≡ self.old) }
    {
        let next = vacant(alloc, jobs)?;
        self.closed.push(Snapshot::of(&self.brought))?;
        self.drawn = 0;
        Ok(mem::replace(&mut self.brought, next))
    }

    /// As `close`, and what the jobs brought is let go.
    ///
    /// # Errors
    ///
    /// Where memory was refused nothing has changed.
    pub fn shut(&mut self, alloc: Global, jobs: u32) -> Result<(), AllocError>
        ensures closed { OnOk result (self.new ≡ record self.old { closed = self.old.closed ++ filter_map made_in self.old.brought ∷ []; drawn = 0; brought = replicate jobs None }) }
        ensures same { OnErr result (self.new ≡ self.old) }
    {
        self.close(alloc, jobs)?;
        Ok(())
    }
}
