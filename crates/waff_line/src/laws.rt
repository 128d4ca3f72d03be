//! What holds of the machine of a run, whatever it is told and whoever runs it. Each law is a function that
//! does nothing and whose contract is the law.

ghost use Rattle.waff_line.specs.Laws.{CanEnd, EachHasRun, NeverStuck, OneAfterAnother};
ghost use Rattle.waff_line.specs.Laws.{RunIsWorkerPlan, RunObeys, RunningExcludeNobody, RunsEachOnce, RunsOnce};
ghost use Rattle.waff_line.specs.Laws.{WorkersAreOwn, WorkersAreThere};
ghost use Rattle.waff_line.specs.Machine.{Course, IsCourse};

/// Where all messages have ended, their starts are a plan for the measured work, in the order in which the plan
/// issues the messages itself, or before the third version in that of the trace. Each has run for a nanosecond at least.
pub fn run_obeys()
    ensures obeys { (course : Course) → IsCourse course → RunObeys course }
    ensures runs { (course : Course) → IsCourse course → EachHasRun course }
{}

/// It is a plan for the workers of the course: at no time more messages run than there are workers.
pub fn run_is_worker_plan()
    ensures { (course : Course) → IsCourse course → RunIsWorkerPlan course }
{}

/// A message is on a worker of the course, which runs one message after another.
pub fn workers_run_one()
    ensures there { (course : Course) → IsCourse course → WorkersAreThere course }
    ensures own { (course : Course) → IsCourse course → WorkersAreOwn course }
    ensures after { (course : Course) → IsCourse course → OneAfterAnother course }
{}

/// Messages that run at once do not exclude each other.
pub fn running_exclude_nobody()
    ensures { (course : Course) → IsCourse course → RunningExcludeNobody course }
{}

/// No state that a run reaches is stuck: all messages have ended, or one runs, or one may begin once it is
/// late enough.
pub fn never_stuck()
    ensures { (course : Course) → IsCourse course → NeverStuck course }
{}

/// A run can always go on to its end: some events lead to a state in which all messages have ended.
pub fn can_end()
    ensures { (course : Course) → IsCourse course → CanEnd course }
{}

/// No message begins twice or ends twice, and what has begun or ended has done so by an event.
pub fn runs_once()
    ensures once { (course : Course) → IsCourse course → RunsOnce course }
    ensures each { (course : Course) → IsCourse course → RunsEachOnce course }
{}
