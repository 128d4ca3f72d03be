//! Fields of a plan text.

ghost use Rattle.std.specs.Prelude.{◌≡◌, ◌≤◌, is_some, IfOk};
ghost use Rattle.waff_parse.specs.Texts.{number_of};
ghost use Rattle.waff_plan_text.specs.Fields as fields;

use crate::refusal::Refusal;
use waff_model::limits::MAX_TICK;
use waff_parse::{number, number_within};

/// Whether a field is a number, of any length.
pub(crate) fn is_number(text: &str) -> bool
    ensures { result ≡ is_some (number_of text.now) }
{
    number(text).is_some()
}

/// A number within the limit. The field is a number.
pub(crate) fn read_number(text: &str) -> Result<u64, Refusal>
    ensures value { result ≡ fields.number_within_limit text.now }
    ensures within { IfOk result (λ n. n ≤ MAX_TICK) }
{
    match number_within(text, 0, MAX_TICK) {
        Some(n) => Ok(n),
        None => Err(Refusal::TooLarge),
    }
}

/// Whether a field is a worker: a number, or `-`.
pub(crate) fn is_worker(text: &str) -> bool
    ensures { result ≡ fields.is_worker text.now }
{
    text == "-" || is_number(text)
}

/// The worker of a field that is one.
pub(crate) fn read_worker(text: &str) -> Result<Option<u64>, Refusal>
    ensures { result ≡ fields.worker_of text.now }
{
    if text == "-" {
        return Ok(None);
    }
    match read_number(text) {
        Ok(worker) => Ok(Some(worker)),
        Err(refusal) => Err(refusal),
    }
}
