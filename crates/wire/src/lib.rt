//! Streams of bytes, cut into lines and bodies.
//!
//! The one contract: `next_line` and `read_body` return the next line or body of a stream, however
//! the stream is cut into pieces as it arrives. `specs/Lines.antt` defines lines, and
//! `specs/Fetching.antt` what is read for one. What is passed to an `Output` is written in order,
//! or waits.
//!
//! Read `device` (where bytes come from and go to, with `specs/Devices.antt` for the counts that
//! contracts see) and `wrap` (devices over any reader and writer); then `fetch` (lines and bodies)
//! over `input` (what was read and not used yet) and `lines` (where a line ends), and `output`
//! (what waits to be written, with `specs/Sending.antt`). `fault` says why a stream could not be
//! read further.
#![tactic(auto)]

mod device;
mod fault;
mod fetch;
mod input;
mod lines;
mod output;
#[cfg(test)]
mod tests;
mod wrap;

pub use device::{Asked, Sink, Source, WriteFailed, put};
pub use fault::ReadFault;
pub use fetch::{Body, Lined, line_held, next_line, read_body};
pub use input::Input;
pub use output::Output;
pub use wrap::{Count, FromRead, ToWrite};
