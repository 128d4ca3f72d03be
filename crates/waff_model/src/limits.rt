//! The limits of hierarchies, traces and plans.

/// Affinities of a tree.
pub const MAX_AFFINITIES: usize = 4096;

/// Spaces of a layout.
pub const MAX_SPACES: usize = 256;

/// The size of a space of a hierarchy of format 1, in cells.
pub const MAX_SIZE: u32 = 262_144;

/// Cells over all spaces of a layout of format 1, and of one that is replayed.
pub const MAX_CELLS: u32 = 262_144;

/// The unit of a map of a hierarchy of format 1, in cells.
pub const MAX_UNIT: u32 = 262_144;

/// The size of a space of a hierarchy of format 2 or 3, in cells.
pub const MAX_LARGE_SIZE: u32 = 4_294_967_295;

/// The unit of a map of a hierarchy of format 2 or 3, in cells.
pub const MAX_LARGE_UNIT: u32 = 4_294_967_295;

/// Affinities that a map lists.
pub const MAX_OWNERS: usize = 256;

/// Messages of a trace, of any version.
pub const MAX_MESSAGES: usize = 1_048_576;

/// Messages of a trace of the first two versions.
pub const MAX_EARLIER_MESSAGES: usize = 65_536;

/// Operations of a message, of any version.
pub const MAX_OPS: usize = 1_024;

/// Operations of a message of the first two versions.
pub const MAX_EARLIER_OPS: usize = 32;

/// Operations of all messages of a trace.
pub const MAX_ALL_OPS: usize = 16_777_216;

/// The cost of a message, in ticks.
pub const MAX_COST: u32 = 1_000_000;

/// The release of a message, in ticks.
pub const MAX_RELEASE: u32 = 1_000_000_000;

/// The messages that those of a trace await by their lists, in all.
pub const MAX_AWAITED: usize = 4_194_304;

/// The think time of a message, and the gap behind a message that is awaited, in ticks.
pub const MAX_THINK: u32 = 10_000_000;

/// Workers of a plan.
pub const MAX_WORKERS: u32 = 64;

/// A number in the text of a plan.
pub const MAX_TICK: u64 = 1_000_000_000_000_000;

/// Bytes of a name.
pub const MAX_NAME: usize = 32;
