//! The reply to a command. The memory of its lines is allocated when the session starts.
ghost use Rattle.std.specs.Prelude.{◌≡◌, ◌≤◌, ◌+◌, ◌++◌, ℕ, List, [], length, IfOk, decimal};
ghost use Rattle.command_text.specs.ReplyText.{ReplyText};

use itoa::Buffer;
use std::alloc::{AllocError, Global};
use std::marker::Model;

/// How many bytes the lines of a reply have at most.
pub const REPLY_BYTES: usize = 8192;

/// A reply: lines that take no further memory, and a text that may follow them.
#[derive(Drop)]
pub struct Reply {
    line: Vec<u8>,
    text: Vec<u8>,
    alloc: Global,
}

impl Model for Reply {
    ghost use Rattle.std.specs.Prelude.{◌≤◌, vec_capacity};
    ghost use Rattle.command_text.specs.ReplyText.{ReplyText};

    ghost Value = { ReplyText };

    ghost view = { λ r. record { line = r.line.items; text = r.text.items } };

    ghost invariant = { λ r. 8192 ≤ vec_capacity r.line };
}

impl Reply {
    /// An empty reply, with the memory for its lines.
    ///
    /// # Errors
    ///
    /// There is no memory for them.
    pub fn new(alloc: Global) -> Result<Self, AllocError>
        ensures { IfOk result (λ r. r ≡ record { line = []; text = [] }) }
    {
        Ok(Reply {
            line: Vec::with_capacity(alloc, REPLY_BYTES)?,
            text: Vec::new(alloc),
            alloc,
        })
    }

    /// The lines.
    pub fn line(&self) -> &[u8]
        ensures { result.now ≡ self.now.line }
    {
        &self.line
    }

    /// The text that follows the lines.
    pub fn attached(&self) -> &[u8]
        ensures { result.now ≡ self.now.text }
    {
        &self.text
    }

    /// Makes the reply empty. The memory of its lines stays, that of the text after them is freed.
    pub fn clear(&mut self)
        ensures { self.new ≡ record { line = []; text = [] } }
    {
        self.line.clear();
        self.text = Vec::new(self.alloc);
    }

    /// Adds bytes to the lines.
    pub fn add(&mut self, part: &[u8])
        requires { length self.old.line + length part.now ≤ 8192 }
        ensures { self.new ≡ record self.old { line = self.old.line ++ part.now } }
    {
        self.line.extend_from_slice(part).unwrap();
    }

    /// Adds a decimal number to the lines.
    pub fn add_number(&mut self, number: u64)
        requires { length self.old.line + 20 ≤ 8192 }
        ensures value { self.new ≡ record self.old { line = self.old.line ++ decimal number } }
        ensures short { length self.new.line ≤ length self.old.line + 20 }
    {
        let mut buffer = Buffer::new();
        self.add(buffer.format(number).as_bytes());
    }

    /// Has a text follow the lines, instead of any that did.
    pub fn attach(&mut self, text: Vec<u8>)
        ensures { self.new ≡ record self.old { text = text.items } }
    {
        self.text = text;
    }
}
