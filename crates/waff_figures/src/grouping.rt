//! What the messages of one row have in common.

/// What the messages that are told of in one row have in common.
#[derive(Clone, Copy)]
pub enum Grouping {
    /// Their affinity.
    Affinity,
    /// Their name; where it is told who waits for whom, their affinity too.
    Name,
}

/// A text that each message has.
#[derive(Clone, Copy)]
pub enum Label {
    /// The message's name.
    Name,
    /// Its client, `-` for a message of none.
    Client,
}

/// Which columns are told of each row.
#[derive(Clone, Copy)]
pub enum Columns {
    /// How many messages, and their costs.
    Costs,
    /// The figures of the messages too: how many run, and how long they wait and take.
    Figures,
}
