//! Which command answers what is asked.
ghost use Rattle.std.specs.Prelude.{◌≡◌, Err, IfErr, IfOk, Ok, option_copied, slice_get};
ghost use Rattle.waff_inputs.specs.Deliveries.{Delivers};
ghost use Rattle.waff_tool.specs.CheckText.{status_after};
ghost use Rattle.waff_tool.specs.Explanations.{status_explained};
ghost use Rattle.waff_tool.specs.Ranks.{file_at};
ghost use Rattle.waff_answer.specs.Answers.{Answers, RefusesAsked, bytes_of};

use std::alloc::Global;
use std::io::Write;
use std::sync::Wait;
use std::thread::Threads;
use waff_check::Verdict;
use waff_cli::{Asked, Question, thread_count};
use waff_tool::{
    Explained, Rule, Told, ToolError, check_text, compare_text_by_threads, draw_text, explain_text,
    explained_status, rank_text, rate_text, replay_text, split_input, told_text, verdict_status,
};

/// Writes the answer to the question, and gives the exit status.
pub fn print<R: Threads + Wait + Sync, W: Write>(
    rt: &R,
    alloc: Global,
    question: &Question,
    out: &mut W,
) -> Result<u8, ToolError>
    ensures { Delivers
        (Answers question.now.asked (bytes_of question.now.files.items))
        (RefusesAsked question.now.asked (bytes_of question.now.files.items))
        (W.contents out.old) (W.contents out.new) result }
{
    let files = question.files.as_slice();
    let first = file(files, 0);
    let second = file(files, 1);
    let third = file(files, 2);
    match &question.asked {
        Asked::PlanOfInput => {
            let (hierarchy, trace) = split_input(first);
            let plan = Told::Plan(None, Rule::Arrival);
            printed(told_text(rt, alloc, hierarchy, trace, &plan, out))
        }
        Asked::Told(told) => printed(told_text(rt, alloc, first, second, told, out)),
        Asked::Check => judged(check_text(rt, alloc, first, second, third, out)),
        Asked::Replay(workers) => {
            let threads = thread_count(rt, *workers);
            printed(replay_text(rt, alloc, first, second, threads, out))
        }
        Asked::Compare(k) => {
            printed(compare_text_by_threads(rt, alloc, first, second, third, *k, out))
        }
        Asked::Rate => judged(rate_text(rt, alloc, first, second, third, out)),
        Asked::Draw(picture, part) => {
            printed(draw_text(rt, alloc, first, second, third, *picture, *part, out))
        }
        Asked::Rank(k, rule) => {
            let hierarchies = &files[1..];
            printed(rank_text(rt, alloc, hierarchies, first, *k, *rule, out))
        }
        Asked::Explain => {
            let trace = file_given(files, 1);
            let plan = file_given(files, 2);
            explained(explain_text(rt, alloc, first, trace, plan, out))
        }
    }
}

/// The exit status where a text was written.
fn printed(told: Result<(), ToolError>) -> Result<u8, ToolError>
    ensures written { IfOk told (λ _. result ≡ Ok 0) }
    ensures refused { IfErr told (λ error. result ≡ Err error) }
{
    match told {
        Ok(()) => Ok(0),
        Err(error) => Err(error),
    }
}

/// The exit status where a verdict was written.
fn judged(told: Result<Verdict, ToolError>) -> Result<u8, ToolError>
    ensures written { IfOk told (λ verdict. result ≡ Ok (status_after verdict)) }
    ensures refused { IfErr told (λ error. result ≡ Err error) }
{
    match told {
        Ok(verdict) => Ok(verdict_status(&verdict)),
        Err(error) => Err(error),
    }
}

/// The exit status where an explanation was written.
fn explained(told: Result<Explained, ToolError>) -> Result<u8, ToolError>
    ensures written { IfOk told (λ explained. result ≡ Ok (status_explained explained)) }
    ensures refused { IfErr told (λ error. result ≡ Err error) }
{
    match told {
        Ok(explained) => Ok(explained_status(&explained)),
        Err(error) => Err(error),
    }
}

/// The file of this place, which is empty where there is none.
pub(crate) fn file(files: &[Vec<u8>], at: usize) -> &[u8]
    ensures { result.now ≡ file_at (bytes_of files.now) at }
{
    if at < files.len() {
        files[at].as_slice()
    } else {
        &[]
    }
}

/// The file of this place, where there is one.
fn file_given(files: &[Vec<u8>], at: usize) -> Option<&[u8]>
    ensures { option_copied result ≡ slice_get (bytes_of files.now) at }
{
    match files.get(at) {
        Some(bytes) => Some(bytes.as_slice()),
        None => None,
    }
}
