//! The outside as the program sees it: a shelf of files to read and sinks to write to.
//!
//! Each counts its faults in a `u64`. A fault has *risen* in a call where the count is greater
//! behind the call than before it, or stood at its type's end before it, where it can rise no more.
ghost use Rattle.std.specs.Prelude.{◌≡◌, ◌≤◌, ◌<◌, ℕ, Bool, true, false, List};
ghost use Rattle.std.specs.Prelude.{Option, length, take, IfOk, OnOk, OnErr};
ghost use Rattle.ann_base.specs.Outside.{Rose, Lacks, IsPickedAt, HasRead, extended};

use crate::Failed;

/// Files that are read one after another.
pub trait Shelf {
    /// The files by name, where the shelf tells them.
    ghost files: { Self → Option (List ℕ → Option (List ℕ)) };

    /// The name of the picked file and the offset of the next byte, where the shelf tells its
    /// files.
    ghost at: { Self → Option (List ℕ × ℕ) };

    /// Whether a file is picked.
    ghost picked: { Self → Bool };

    /// How often the shelf has failed.
    ghost faults: { Self → ℕ };

    /// Picks the file of this name, at its first byte.
    fn pick(&mut self, name: &[u8]) -> Result<(), Failed>
        ensures files { files self.new ≡ files self.old }
        ensures monotone { faults self.old ≤ faults self.new }
        ensures ok { OnOk result (picked self.new ≡ true) }
        ensures start { OnOk result (IsPickedAt (files self.old) name.now (at self.new)) }
        ensures err { OnErr result (picked self.new ≡ false) }
        ensures cause { OnErr result
            (Lacks (files self.old) name.now (Rose (faults self.old) (faults self.new))) };

    /// Reads bytes of the picked file into the front of `piece`, and answers how many. The answer
    /// is 0 for a nonempty piece exactly at the file's end, where the shelf tells its files.
    fn read(&mut self, piece: &mut [u8]) -> Result<usize, Failed>
        requires { picked self.old ≡ true }
        ensures files { files self.new ≡ files self.old }
        ensures monotone { faults self.old ≤ faults self.new }
        ensures picked { picked self.new ≡ true }
        ensures within { IfOk result (λ count. count ≤ length piece.old) }
        ensures ok { IfOk result
            (λ count.
            HasRead (files self.old) (at self.old) (at self.new) (length piece.old)
            (take count piece.new) count) }
        ensures err { OnErr result (at self.new ≡ at self.old) }
        ensures cause { OnErr result (Rose (faults self.old) (faults self.new)) };
}

/// Where bytes are written.
pub trait Sink {
    /// What has been written, where the sink tells it.
    ghost held: { Self → Option (List ℕ) };

    /// How often the sink has failed.
    ghost faults: { Self → ℕ };

    /// Writes bytes of the front of `piece`, and answers how many: at least one of a nonempty
    /// piece.
    fn write(&mut self, piece: &[u8]) -> Result<usize, Failed>
        ensures monotone { faults self.old ≤ faults self.new }
        ensures within { IfOk result (λ count. count ≤ length piece.now) }
        ensures some { IfOk result (λ count. 0 < length piece.now → 0 < count) }
        ensures ok { IfOk result
            (λ count. held self.new ≡ extended (held self.old) (take count piece.now)) }
        ensures err { OnErr result (held self.new ≡ held self.old) }
        ensures cause { OnErr result (Rose (faults self.old) (faults self.new)) };
}
