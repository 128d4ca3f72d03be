//! Worked cases of what threads do: the core machine, the board, replays and runs.
#![tactic(auto)]

#[cfg(test)]
mod boards;
#[cfg(test)]
mod jobs;
#[cfg(test)]
mod machines;
#[cfg(test)]
mod records;
#[cfg(test)]
mod replays;
#[cfg(test)]
mod runs;
#[cfg(test)]
mod states;
