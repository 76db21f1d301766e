//! The version of the program.

/// The version of this program, which the file VERSION at the top of the repository has too.
pub const VERSION: &str = "1.1.0";
