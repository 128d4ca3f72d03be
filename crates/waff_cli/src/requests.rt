//! What the words ask for, before the files are read that they name.
ghost use Rattle.std.specs.Prelude.{length};
ghost use Rattle.waff_cli.specs.Limits.{within_limits-prop};
ghost use Rattle.waff_cli.specs.Requests.{IsWithinLimits, TakesFiles};

use crate::run_words::RunWords;
use crate::words::Asked;

/// What the words ask for: an answer to what is asked of files, or a run of messages.
#[derive(Drop)]
pub enum Wanted<'a> {
    Answer(Request<'a>),
    Run(RunRequest<'a>),
}

/// A run that the words ask for.
#[derive(Drop)]
pub struct RunRequest<'a> {
    pub words: RunWords,
    /// The names of the hierarchy and of the trace.
    pub files: Vec<&'a str>,
}

/// What the words ask of files.
#[derive(Drop)]
pub struct Request<'a> {
    pub asked: Asked,
    /// The names of the files, in the order of the words. The name `-` is standard input.
    pub files: Vec<&'a str>,
    ghost limits: { IsWithinLimits asked } by { within_limits-prop asked },
    ghost taken: { TakesFiles asked (length files.items) },
}
