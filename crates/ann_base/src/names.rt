//! Names of bounded length, which take no memory.
ghost use Rattle.std.specs.Prelude.{◌≡◌, ◌≤◌, length};
ghost use Rattle.ann_base.specs.declared.names.TheConstants.{NAME_BYTES};

use std::marker::Model;

/// The most bytes that a name has.
pub const NAME_BYTES: usize = 1000;

/// A name of at most `NAME_BYTES` bytes. Contracts see the list of its bytes.
#[derive(Drop)]
pub struct Name {
    bytes: [u8; NAME_BYTES],
    length: usize,
}

impl Model for Name {
    ghost use Rattle.std.specs.Prelude.{List, ℕ, take, ◌≤◌};
    ghost use Rattle.ann_base.specs.declared.names.TheConstants.{NAME_BYTES};

    ghost Value = { List ℕ };

    ghost view = { λ name. take name.length name.bytes };

    ghost invariant = { λ name. name.length ≤ NAME_BYTES };
}

impl Name {
    /// The name with these bytes.
    pub fn from_bytes(bytes: &[u8]) -> Name
        requires { length bytes.now ≤ NAME_BYTES }
        ensures { result ≡ bytes.now }
    {
        let mut all = [0; NAME_BYTES];
        all[..bytes.len()].copy_from_slice(bytes);
        Name {
            bytes: all,
            length: bytes.len(),
        }
    }

    /// The bytes of the name.
    pub fn as_bytes(&self) -> &[u8]
        ensures bytes { result.now ≡ self.now }
        ensures short { length self.now ≤ NAME_BYTES }
    {
        &self.bytes[..self.length]
    }
}
