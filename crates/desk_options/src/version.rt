//! The version of the program.

/// The version of the program, by CHANGELOG.md, and the kit by which all of it is proved and built, by README.md.
pub const VERSION: &str = "0.3.0 (rattle-kit-13f)";
