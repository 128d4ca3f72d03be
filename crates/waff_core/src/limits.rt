//! Limits of replays.

/// Actors of a replay.
pub const MAX_SEATS: u32 = 16;
