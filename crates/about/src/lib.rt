//! The version and its text, and the words that ask for it or for help.
#![tactic(auto)]

mod asked;
mod told;

pub use asked::About;
pub use told::about_text;

/// The version of both programs and of all crates: the one place where it stands. The manual pages and the changelog
/// have the same, which `tools/texts` checks.
pub const VERSION: &str = "0.3.0";

/// The kit that proved this version, as `rt version` says it.
pub const KIT: &str = "rattle-kit-13f logic dac8208d650f15bf";

/// The standards by which the programs read and run buses.
pub const STANDARDS: &str = "IEEE Std 1394-1995, IEEE Std 1394a-2000, IEEE Std 1212";
