//! The version of the program.

pub const VERSION: &str = "1.0.0";

/// What `--version` prints after the name of the program: with the toolchain that proves it.
pub const VERSION_AND_TOOLCHAIN: &str = "1.0.0 (proved with rattle-kit-13f logic dac8208d650f15bf)";
