//! What the program is to do, with the bytes of the files that its words name.
ghost use Rattle.std.specs.Prelude.{length};
ghost use Rattle.waff_cli.specs.Limits.{within_limits-prop};
ghost use Rattle.waff_cli.specs.Requests.{IsWithinLimits, TakesFiles};

use crate::run_words::RunWords;
use crate::words::Asked;

/// What the program is to do: to answer a question, or to run messages.
#[derive(Drop)]
pub enum Task {
    Question(Question),
    Run(RunTask),
}

/// What is asked for, and the bytes of the files of which it is asked, in the order of the words.
#[derive(Drop)]
pub struct Question {
    pub asked: Asked,
    pub files: Vec<Vec<u8>>,
    /// The names of the files where the command is loud, else none.
    pub names: Vec<String>,
    ghost limits: { IsWithinLimits asked } by { within_limits-prop asked },
    ghost taken: { TakesFiles asked (length files.items) },
}

/// Messages to be run, and the bytes of the hierarchy and of the trace.
#[derive(Drop)]
pub struct RunTask {
    pub words: RunWords,
    pub files: Vec<Vec<u8>>,
    /// The names of the files. The name `-` is standard input.
    pub names: Vec<String>,
    /// Whether what helps is said below a fault, and behind a run how it went.
    pub loud: bool,
    /// Whether standard error is a terminal, where a line tells how far the run is.
    pub progress: bool,
}
