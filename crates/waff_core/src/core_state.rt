//! The state that a list of events leaves, at which tests look: no command runs the machine.

ghost use Rattle.std.specs.Prelude.{◌≡◌, length, map};
ghost use Rattle.waff_model.specs.Cells.{LiesIn};
ghost use Rattle.waff_core.specs.Shown.{core_of, is_home};
ghost use Rattle.waff_core.specs.Statuses.{ShowsStatus, status_by};

use crate::steps::Machine;
use crate::{Phase, Status};
use std::marker::Model;
use waff_model::{AffinityId, Cell};

/// The state that a list of events leaves.
#[derive(Drop)]
pub struct CoreState {
    machine: Machine,
    home: Vec<bool>,
}

impl Model for CoreState {
    ghost use Rattle.std.specs.Prelude.{◌≤◌, length};
    ghost use Rattle.waff_core.specs.Shown.{CoreValue};
    ghost use Rattle.waff_core.specs.declared.limits.TheConstants.{MAX_SEATS};

    ghost Value = { CoreValue };

    ghost view = { λ s. record {
      drawn = s.machine.drawn;
      phases = s.machine.phases.items;
      done = s.machine.done.items;
      home = s.home.items;
      cells = s.machine.state;
    } };

    ghost invariant = { λ s. length s.machine.phases.items ≤ MAX_SEATS };
}

impl CoreState {
    ghost use Rattle.std.specs.Prelude.{◌≤◌};
    ghost use Rattle.waff_core.specs.Shown.{CoreValue};
    ghost use Rattle.waff_core.specs.declared.limits.TheConstants.{MAX_SEATS};

    /// The state of this machine, with these marks of the parcels that are home.
    pub(crate) fn new(machine: Machine, home: Vec<bool>) -> Self
        requires { length machine.phases.items ≤ MAX_SEATS }
        ensures { result ≡ record {
          drawn = machine.drawn;
          phases = machine.phases.items;
          done = machine.done.items;
          home = home.items;
          cells = machine.state;
        } }
    {
        CoreState { machine, home }
    }

    /// What has become of message `n`.
    pub fn status(&self, n: u32) -> Status
        ensures { ShowsStatus (core_of self.now) n result }
    {
        if self.is_done(n) {
            return Status::Done;
        }
        for at in 0..self.machine.phases.len() {
            match status_by(self.machine.phases[at], at as u32 + 1, n) {
                Some(status) => return status,
                None => {}
            }
        }
        Status::Waiting
    }

    fn is_done(&self, n: u32) -> bool
        ensures { result ≡ (core_of self.now).done n }
    {
        match self.machine.done.get(n as usize) {
            Some(done) => *done,
            None => false,
        }
    }

    /// How many draws there were, past the end of the order too.
    pub fn drawn(&self) -> u32
        ensures { result ≡ (core_of self.now).drawn }
    {
        self.machine.drawn
    }

    /// Whether the parcel of the affinity is home: not with a message that runs.
    pub fn home(&self, affinity: AffinityId) -> bool
        ensures { result ≡ is_home self.now.home affinity.0 }
    {
        match self.home.get(affinity.0 as usize) {
            Some(home) => *home,
            None => true,
        }
    }

    /// The number that the cell, which is the state's, holds; while a message runs, the one before
    /// it.
    pub fn get(&self, cell: Cell) -> u64
        requires { LiesIn (map length self.now.cells) cell }
        ensures { result ≡ (core_of self.now).cells cell }
    {
        self.machine.state.get(cell)
    }
}

/// The status of message `n` by the phase of an actor, where the actor has the message.
fn status_by(phase: Phase, actor: u32, n: u32) -> Option<Status>
    ensures { result ≡ status_by phase actor n }
{
    match phase {
        Phase::Drawn(m) if m == n => Some(Status::Held { actor }),
        Phase::Running(m) if m == n => Some(Status::Running { actor }),
        Phase::Drawn(_) | Phase::Running(_) | Phase::Free | Phase::Ended => None,
    }
}
