//! The version of the program, written by dist/version.

/// The version.
pub const VERSION: &str = "0.1.0";

/// The version, the logic that proves these sources, and the sum of them.
pub const LONG_VERSION: &str = "\
0.1.0
logic: dac8208d650f15bf
sources: a4260f272eb80c1f";
