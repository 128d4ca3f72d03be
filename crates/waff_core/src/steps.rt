//! The machine that tests run, step by step: no command runs it, and the board is proved over the
//! relation `Steps` alone.

ghost use Rattle.std.specs.Prelude.{◌≡◌, ◌↔◌, ◌+◌, ◌-◌, ◌^◌, ◌<◌, ◌≤◌, length, map, true, All};
ghost use Rattle.std.specs.Prelude.{IsTrue, IfOk, IfErr, MatchOption};
ghost use Rattle.waff_model.specs.Messages.{sizes_of};
ghost use Rattle.waff_model.specs.declared.limits.TheConstants.{MAX_MESSAGES};
ghost use Rattle.waff_cells.specs.Grid.{HasSizes, cells_in};
ghost use Rattle.waff_cells.specs.Meaning.{meaning};
ghost use Rattle.waff_cells.specs.Serial.{ops_of};
ghost use Rattle.waff_core.specs.Job.{IsIn, IsJob};
ghost use Rattle.waff_core.specs.Machine.{IsClear, Steps, opening, phase_drawn, phase_of};
ghost use Rattle.waff_core.specs.Refused.{IsLeastUndone, IsRefusedEvent};
ghost use Rattle.waff_core.specs.Shown.{Fits, IsSteady, core_in};

use crate::{CoreError, Event, Job, Phase};
use std::alloc::{AllocError, Global};
use waff_cells::State;

/// The machine: how many draws there were, the phases of the actors, which messages are done, by
/// number, and the cells.
#[derive(Drop)]
pub(crate) struct Machine {
    pub drawn: u32,
    pub phases: Vec<Phase>,
    pub done: Vec<bool>,
    pub state: State,
}

impl Machine {
    /// The machine as it opens.
    pub fn opening(alloc: Global, job: &Job, seats: u32) -> Result<Machine, AllocError>
        ensures core { IfOk result (λ machine. core_in machine ≡ opening seats) }
        ensures fits { IfOk result (Fits job.now) }
        ensures job { IsJob job.now }
        ensures messages { length job.now.ops ≤ MAX_MESSAGES }
    {
        let count = job.len() as usize;
        Ok(Machine {
            drawn: 0,
            phases: vec![in alloc; Phase::Free; seats as usize]?,
            done: vec![in alloc; false; count + 1]?,
            state: State::zero(alloc, job.layout())?,
        })
    }

    /// The event, which stands at this place.
    pub fn step(&mut self, job: &Job, place: u64, event: Event) -> Result<(), CoreError>
        requires fits { Fits job.now self.old }
        requires steady { IsSteady job.now (core_in self.old) }
        requires room { self.old.drawn + 1 < 2 ^ 32 }
        ensures fits { Fits job.now self.new }
        ensures stepped { IfOk result
            (λ _. Steps job.now (core_in self.old) event (core_in self.new)) }
        ensures refused { IfErr result (IsRefusedEvent job.now (core_in self.old) place event) }
    {
        match event {
            Event::Draw(actor) => self.draw(job, place, actor),
            Event::Begin(actor) => self.begin(job, place, actor),
            Event::End(actor) => self.end(job, place, actor),
        }
    }

    fn draw(&mut self, job: &Job, place: u64, actor: u32) -> Result<(), CoreError>
        requires fits { Fits job.now self.old }
        requires room { self.old.drawn + 1 < 2 ^ 32 }
        ensures fits { Fits job.now self.new }
        ensures stepped { IfOk result
            (λ _. Steps job.now (core_in self.old) (Event.Draw actor) (core_in self.new)) }
        ensures refused { IfErr result
            (IsRefusedEvent job.now (core_in self.old) place (Event.Draw actor)) }
    {
        match self.phase(actor) {
            Some(Phase::Free) => {
                self.phases[actor as usize - 1] = phase_drawn(job.drawn_at(self.drawn));
                self.drawn += 1;
                Ok(())
            }
            Some(Phase::Drawn(_) | Phase::Running(_)) => Err(CoreError::Busy { place }),
            Some(Phase::Ended) | None => Err(CoreError::Nothing { place }),
        }
    }

    fn begin(&mut self, job: &Job, place: u64, actor: u32) -> Result<(), CoreError>
        requires fits { Fits job.now self.old }
        requires steady { IsSteady job.now (core_in self.old) }
        ensures fits { Fits job.now self.new }
        ensures stepped { IfOk result
            (λ _. Steps job.now (core_in self.old) (Event.Begin actor) (core_in self.new)) }
        ensures refused { IfErr result
            (IsRefusedEvent job.now (core_in self.old) place (Event.Begin actor)) }
    {
        let m = match self.phase(actor) {
            Some(Phase::Drawn(m)) => m,
            Some(Phase::Free | Phase::Running(_) | Phase::Ended) | None => {
                return Err(CoreError::Nothing { place });
            }
        };
        match self.blocking(job, m) {
            Some(message) => Err(CoreError::NotYet { place, message }),
            None => {
                self.phases[actor as usize - 1] = Phase::Running(m);
                Ok(())
            }
        }
    }

    fn end(&mut self, job: &Job, place: u64, actor: u32) -> Result<(), CoreError>
        requires fits { Fits job.now self.old }
        requires steady { IsSteady job.now (core_in self.old) }
        ensures fits { Fits job.now self.new }
        ensures stepped { IfOk result
            (λ _. Steps job.now (core_in self.old) (Event.End actor) (core_in self.new)) }
        ensures refused { IfErr result
            (IsRefusedEvent job.now (core_in self.old) place (Event.End actor)) }
    {
        let m = match self.phase(actor) {
            Some(Phase::Running(m)) => m,
            Some(Phase::Free | Phase::Drawn(_) | Phase::Ended) | None => {
                return Err(CoreError::Nothing { place });
            }
        };
        apply(&mut self.state, job, m);
        self.done[m as usize] = true;
        self.phases[actor as usize - 1] = Phase::Free;
        Ok(())
    }

    /// The phase of the actor, where there is such an actor.
    fn phase(&self, actor: u32) -> Option<Phase>
        ensures { result ≡ phase_of self.now.phases.items actor }
    {
        if actor < 1 {
            return None;
        }
        self.phases.get(actor as usize - 1).copied()
    }

    /// The least earlier message that excludes message `m` and is not done. It is looked for only
    /// where a need is not done.
    fn blocking(&self, job: &Job, m: u32) -> Option<u32>
        requires fits { Fits job.now self.now }
        requires steady { IsSteady job.now (core_in self.now) }
        requires message { IsIn job.now m }
        ensures { MatchOption result
            (IsClear job.now (core_in self.now) m) (IsLeastUndone job.now (core_in self.now) m) }
    {
        if self.are_done(job.needs(m)) {
            return None;
        }
        for i in 1..m {
            if !self.done[i as usize] && job.is_ordered(i, m) {
                return Some(i);
            }
        }
        None
    }

    /// Whether the messages are all done.
    fn are_done(&self, messages: &[u32]) -> bool
        requires { All (λ n. n < length self.now.done.items) messages.now }
        ensures { IsTrue result ↔ All (λ n. (core_in self.now).done n ≡ true) messages.now }
    {
        for at in 0..messages.len() {
            if !self.done[messages[at] as usize] {
                return false;
            }
        }
        true
    }
}

/// Runs the operations of message `m` on the state.
fn apply(state: &mut State, job: &Job, m: u32)
    requires message { IsIn job.now m }
    requires rows { HasSizes state.old (sizes_of job.now.layout.spaces) }
    ensures sizes { HasSizes state.new (map length state.old) }
    ensures cells { cells_in state.new ≡ meaning (ops_of job.now.ops m) (cells_in state.old) }
{
    state.apply(job.message(m));
}

/// The phase of an actor that has drawn this message, or none.
fn phase_drawn(message: Option<u32>) -> Phase
    ensures { result ≡ phase_drawn message }
{
    match message {
        Some(m) => Phase::Drawn(m),
        None => Phase::Ended,
    }
}
