//! How the program ends.
ghost use Rattle.std.specs.Prelude.{◌≡◌, ◌++◌, [], IfErr, IfOk};
ghost use Rattle.waff_io.specs.Writing.{Tells};
ghost use Rattle.waff_inputs.specs.Fault.{fault_message, status_of};
ghost use Rattle.waff_answer.specs.Answers.{bytes_of};
ghost use Rattle.waff_answer.specs.Ends.{Ends, IsRefused};
ghost use Rattle.waff_answer.specs.Runs.{EndsTask};

use crate::answers::print;
use crate::runs::answer_run;
use std::alloc::Global;
use std::io::Write;
use std::rt::{Clock, Files};
use std::sync::Wait;
use std::thread::Threads;
use waff_cli::{Question, Refusal, Task, advice_behind, advice_on};
use waff_inputs::{ToolError, fault_status, write_fault};
use waff_io::ErrorStream;
use waff_run::Opens;

/// Answers the question that was read, or runs the messages, or says why there is neither, and gives the
/// exit status.
pub fn end<R: Threads + Wait + Clock + Files + Opens + Eprint + Sync, W: Write, E: ErrorStream>(
    rt: &R,
    alloc: Global,
    read: Result<Task, Refusal>,
    out: &mut W,
    err: &mut E,
) -> u8
    ensures answered { IfOk read (λ task. EndsTask task (W.contents out.old) (W.contents out.new)
        (E.holds err.old) (E.holds err.new) (E.failed err.new) result) }
    ensures refused { IfErr read (λ refusal. IsRefused refusal (W.contents out.old)
        (W.contents out.new) (E.holds err.old) (E.holds err.new) (E.failed err.new) result) }
{
    match read {
        Ok(Task::Question(question)) => {
            let status = answer(rt, alloc, &question, out, err);
            drop(question);
            status
        }
        Ok(Task::Run(task)) => {
            let status = answer_run(rt, alloc, &task, out, err);
            drop(task);
            status
        }
        Err(refusal) => refusal.report(alloc, err),
    }
}

/// Writes the answer to the question, or to the error stream why there is none, and gives the exit
/// status. Where somebody reads the error stream, what helps stands below.
pub fn answer<R: Threads + Wait + Sync, W: Write, E: ErrorStream>(
    rt: &R,
    alloc: Global,
    question: &Question,
    out: &mut W,
    err: &mut E,
) -> u8
    ensures { Ends question.now.asked (bytes_of question.now.files.items)
        (question.now.names.items ≡ []) (W.contents out.old) (W.contents out.new)
        (E.holds err.old) (E.holds err.new) (E.failed err.new) result }
{
    match print(rt, alloc, question, out) {
        Ok(status) => {
            let advice = advice_behind(question);
            say(advice.as_str(), err);
            drop(advice);
            status
        }
        Err(error) => {
            let advice = advice_on(rt, alloc, question, error);
            let status = fail(alloc, error, advice.as_str(), err);
            drop(advice);
            status
        }
    }
}

/// Writes this to the error stream. Where that fails, the exit status has to do.
pub(crate) fn say<E: ErrorStream>(text: &str, err: &mut E)
    ensures { Tells (E.holds err.old) (E.holds err.new) (E.failed err.new) text.now }
{
    match err.write_text(text.as_bytes()) {
        Ok(()) => {}
        Err(_) => {}
    }
}

/// Tells of an error, with what helps, and gives its exit status. Where the error stream fails, the status
/// has to do.
fn fail<E: ErrorStream>(alloc: Global, error: ToolError, advice: &str, err: &mut E) -> u8
    ensures told { Tells (E.holds err.old) (E.holds err.new) (E.failed err.new)
        (fault_message error ++ advice.now) }
    ensures status { result ≡ status_of error }
{
    tell_fault(alloc, &error, advice, err);
    fault_status(&error)
}

/// Writes the line of an error, and then what helps.
fn tell_fault<E: ErrorStream>(alloc: Global, error: &ToolError, advice: &str, err: &mut E)
    ensures { Tells (E.holds err.old) (E.holds err.new) (E.failed err.new)
        (fault_message error.now ++ advice.now) }
{
    match write_fault(alloc, err, error) {
        Ok(()) => say(advice, err),
        Err(_) => {}
    }
}
