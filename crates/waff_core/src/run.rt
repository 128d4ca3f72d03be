//! Lists of events, which tests run: no command does.

ghost use Rattle.std.specs.Prelude.{◌≡◌, ◌≢◌, ◌≤◌, length, IfOk, IfErr};
ghost use Rattle.waff_model.specs.Messages.{sizes_of};
ghost use Rattle.waff_model.specs.declared.limits.TheConstants.{MAX_MESSAGES};
ghost use Rattle.waff_cells.specs.Grid.{HasSizes};
ghost use Rattle.waff_core.specs.Job.{IsJob};
ghost use Rattle.waff_core.specs.Machine.{Runs, opening};
ghost use Rattle.waff_core.specs.Refused.{FailsFirst};
ghost use Rattle.waff_core.specs.Seats.{IsSeats};
ghost use Rattle.waff_core.specs.Settled.{CellsAreSerial};
ghost use Rattle.waff_core.specs.Shown.{AreHome, Fits, core_in, core_of};

use crate::homes::homes;
use crate::limits::MAX_SEATS;
use crate::steps::Machine;
use crate::{CoreError, CoreState, Event, Job};
use std::alloc::Global;

/// The state that the events leave, where the machine with this many actors accepts them.
pub fn run_events(
    alloc: Global,
    job: &Job,
    seats: u32,
    events: &[Event],
) -> Result<CoreState, CoreError>
    requires seats { IsSeats seats }
    ensures accepted { IfOk result
        (λ state. Runs job.now (opening seats) events.now (core_of state)) }
    ensures home { IfOk result (λ state. AreHome job.now (core_of state) state.home) }
    ensures settled { IfOk result (λ state. CellsAreSerial job.now (core_of state)) }
    ensures cells { IfOk result (λ state. HasSizes state.cells (sizes_of job.now.layout.spaces)) }
    ensures refused { IfErr result
        (λ e. e ≢ CoreError.Memory → FailsFirst job.now seats events.now e) }
{
    let mut machine = match Machine::opening(alloc, job, seats) {
        Ok(machine) => machine,
        Err(_) => return Err(CoreError::Memory),
    };
    match run(&mut machine, job, seats, events) {
        Ok(()) => {}
        Err(e) => return Err(e),
    }
    match homes(alloc, job, &machine) {
        Ok(home) => Ok(CoreState::new(machine, home)),
        Err(_) => Err(CoreError::Memory),
    }
}

/// Runs the events on the machine, which is as it opens.
fn run(machine: &mut Machine, job: &Job, seats: u32, events: &[Event]) -> Result<(), CoreError>
    requires few { seats ≤ MAX_SEATS }
    requires job { IsJob job.now }
    requires messages { length job.now.ops ≤ MAX_MESSAGES }
    requires opens { core_in machine.old ≡ opening seats }
    requires fits { Fits job.now machine.old }
    ensures fits { Fits job.now machine.new }
    ensures accepted { IfOk result
        (λ _. Runs job.now (opening seats) events.now (core_in machine.new)) }
    ensures refused { IfErr result (FailsFirst job.now seats events.now) }
{
    for at in 0..events.len() {
        match machine.step(job, at as u64 + 1, events[at]) {
            Ok(()) => {}
            Err(e) => return Err(e),
        }
    }
    Ok(())
}
