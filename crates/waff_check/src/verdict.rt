//! Verdicts.

/// What a check finds of a plan that is given: the first fault of the first kind that there is, or
/// else how good the plan is. Messages are numbered from 1, places of the chain too. `Client` and
/// `Tight` are found where messages have clients, `After` where they have lists.
#[derive(Clone, Copy, Debug, PartialEq)]
pub enum Verdict {
    /// An ordered pair of messages the second of which starts before the first has finished; where
    /// messages have clients two that exclude each other and run at a common tick.
    Overlap { first: u32, second: u32 },
    /// More messages run at this tick than there are workers.
    TooManyAt { tick: u64 },
    /// The worker that the message's row tells is wrong.
    Worker { message: u32 },
    /// The message's row does not name its affinity, or has no hyphen where the message has none.
    Affinity { message: u32 },
    /// The message's row does not tell the finish that its start and its cost make.
    Finish { message: u32 },
    /// A number of the summary is wrong.
    Totals,
    /// No link goes to the message at this place of the chain from the one before it.
    NotAChain { place: u64 },
    /// No fault; the plan obeys, and no more is known.
    Obeys,
    /// No fault, and no obeying plan is shorter, where messages have clients in whatever order it serves.
    Shortest,
    /// No fault, and the length is within the bound for the workers.
    WithinBound,
    /// The message starts before its release.
    Early { message: u32 },
    /// The message starts before its client issues it, sooner than its think time after the finish of
    /// the message before it.
    Client { message: u32 },
    /// No fault, and no plan that serves messages in the same order is shorter.
    Tight,
    /// The message starts before this one of its list has finished and the gap behind that has gone by.
    After { message: u32, awaited: u32 },
}
