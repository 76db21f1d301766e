//! What the words of the command line ask for, and how the program reports its end.
//!
//! The contracts: `settings` returns the settings that the words ask for, exactly if the parser of
//! command lines accepts them and their numbers are in range, and reports if they ask for the
//! version (`specs/Words.antt`, `specs/InRange.antt`); `ending_of` and `finish` determine the exit
//! status of each end, the words on standard error, and the cause (`specs/Endings.antt`).
//!
//! Its modules in reading order:
//!
//! - `asked`: what the program can be asked to do, and why that can't be determined;
//! - `grammar`: the command line as `clap` reads it, with what `--help` says;
//! - `words`: the settings that the words of the command line give;
//! - `version`: the version of the program;
//! - `ending`: the exit status of the process, and what it says on standard error.
#![tactic(auto)]

mod asked;
mod ending;
mod grammar;
#[cfg(test)]
mod tests;
mod version;
mod words;

pub use asked::{Settings, SettingsFault};
pub use ending::{Detail, Done, Ending, Failure, Fault, Message, Status, ending_of, finish};
pub use version::VERSION;
pub use words::settings;
