//! What a line notes of each message.

ghost use Rattle.std.specs.Prelude.{◌≡◌};
ghost use Rattle.waff_line.specs.Machine.{no_turn};
ghost use Rattle.waff_line.specs.Noted.{shown};

/// When a message began and finished, in nanoseconds from the beginning of the run, and on which worker it ran.
#[derive(Clone, Copy)]
pub struct Turn {
    pub start: u64,
    pub finish: u64,
    /// Its worker, from 1; 0 as long as it has not begun.
    pub worker: u32,
    /// Of the messages that it had to wait for the one that finished last, of several that of the lowest number;
    /// 0 where there is none.
    pub after: u32,
    /// How long after it could it began: after its issue, after the finish of each message that it had to
    /// wait for, and after that of its worker's message before.
    pub late: u64,
    pub ended: bool,
}

impl Turn {
    /// The turn of a message that has not begun.
    pub(crate) fn none() -> Turn
        ensures { shown result ≡ no_turn }
    {
        Turn {
            start: 0,
            finish: 0,
            worker: 0,
            after: 0,
            late: 0,
            ended: false,
        }
    }
}
