//! The version of the programs.

/// The version of the programs and of the library, and the logic that proves them.
pub const VERSION: &str = "fcbench 7.0.0, proved by Rattle logic dac8208d650f15bf";
