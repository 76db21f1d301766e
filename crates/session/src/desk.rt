//! What a session works at. Its memory is allocated when the session starts.
ghost use Rattle.std.specs.Prelude.{◌≡◌, ◌≤◌, [], false, vec_capacity, IfOk};
ghost use Rattle.workspace.specs.State.{empty};
ghost use Rattle.workspace.specs.Workspace.{state_of};

use command_text::Reply;
use std::alloc::{AllocError, Global};
use wire::{Input, Output};
use workspace::Workspace;

/// The bytes of the longest line, with its line end.
const LINE_ROOM: usize = 1026;

/// What commands are answered at: what the session holds, the reply to the last command, and the
/// replies that are not written yet.
#[derive(Drop)]
pub struct Bench {
    pub workspace: Workspace,
    pub reply: Reply,
    pub output: Output,
    /// How many commands were answered, or the largest number there is. No contract speaks of it.
    pub commands: u64,
}

/// What a session works at: what it reads into, and its bench.
#[derive(Drop)]
pub struct Desk {
    pub input: Input,
    pub line: Vec<u8>,
    pub bench: Bench,
    ghost line_room: { 1026 ≤ vec_capacity line },
}

impl Desk {
    /// Nothing read, nothing said, nothing bound, so many reads that are allowed, and so many
    /// workers for each batch.
    pub fn new(alloc: Global, workers: u64, reads: u64) -> Result<Desk, AllocError>
        requires some { 1 ≤ workers }
        requires few { workers ≤ 64 }
        ensures input { IfOk result (λ d. d.input ≡ record { bytes = []; ended = false; reads_left = reads }) }
        ensures output { IfOk result (λ d. d.bench.output ≡ []) }
        ensures state { IfOk result (λ d. state_of d.bench.workspace ≡ empty workers) }
    {
        let input = Input::new(alloc, reads)?;
        let line = Vec::with_capacity(alloc, LINE_ROOM)?;
        let reply = Reply::new(alloc)?;
        let output = Output::new(alloc)?;
        let workspace = Workspace::new(alloc, workers)?;
        Ok(Desk {
            input,
            line,
            bench: Bench {
                workspace,
                reply,
                output,
                commands: 0,
            },
        })
    }
}
