//! The buffer that lines are written to.
ghost use Rattle.std.specs.Prelude.{◌≡◌, ◌+◌, ◌≤◌, [], ◌++◌, length, IfOk};
ghost use Rattle.line_writing.specs.declared.buffer.TheConstants.{BUFFER_BYTES};

use ann_base::NoMemory;
use std::alloc::Global;
use std::marker::Model;

/// The bytes that a buffer has room for.
pub const BUFFER_BYTES: usize = 65_536;

/// A buffer of 65,536 bytes, which takes its memory when it is made. Contracts see the list of its
/// bytes.
#[derive(Drop)]
pub struct LineBuffer {
    bytes: Vec<u8>,
}

impl Model for LineBuffer {
    ghost use Rattle.std.specs.Prelude.{List, ℕ, ◌≤◌, vec_len, vec_capacity};
    ghost use Rattle.line_writing.specs.declared.buffer.TheConstants.{BUFFER_BYTES};

    ghost Value = { List ℕ };

    ghost view = { λ buffer. buffer.bytes.items };

    ghost invariant = { λ buffer.
        (BUFFER_BYTES ≤ vec_capacity buffer.bytes) × (vec_len buffer.bytes ≤ BUFFER_BYTES) };
}

impl LineBuffer {
    /// An empty buffer.
    pub fn new(alloc: Global) -> Result<LineBuffer, NoMemory>
        ensures { IfOk result (λ buffer. buffer ≡ []) }
    {
        Ok(LineBuffer {
            bytes: Vec::with_capacity(alloc, BUFFER_BYTES)?,
        })
    }

    /// The bytes written since the buffer was made or cleared, at most 65,536.
    pub fn bytes(&self) -> &[u8]
        ensures bytes { result.now ≡ self.now }
        ensures bounded { length self.now ≤ BUFFER_BYTES }
    {
        self.bytes.as_slice()
    }

    /// Empties the buffer.
    pub fn clear(&mut self)
        ensures { self.new ≡ [] }
    {
        self.bytes.clear();
    }

    /// Appends a piece that is no longer than the bytes that are free.
    pub fn append(&mut self, piece: &[u8])
        requires { length self.old + length piece.now ≤ BUFFER_BYTES }
        ensures { self.new ≡ self.old ++ piece.now }
    {
        self.bytes.extend_from_slice(piece).unwrap();
    }
}
