//! Reading a file line by line.
ghost use Rattle.std.specs.Prelude.{◌≡◌, ◌≤◌, ◌<◌, ◌+◌, ◌-◌, Some, true};
ghost use Rattle.std.specs.Prelude.{take, length, IfOk, IfErr, OnOk};
ghost use Rattle.ann_base.specs.Answers.{OfFault};
ghost use Rattle.ann_base.specs.Outside.{Rose, Lacks};
ghost use Rattle.outside_bytes.specs.Files.{told, WhereTold, left_of};
ghost use Rattle.outside_bytes.specs.Lines.{to_come, HandsOn, HasHandedOn, Refills};

use crate::reading::PIECE;
use ann_base::{Failed, OrMemory, Shelf};
use std::alloc::Global;

/// The lines of the picked file of a shelf, in order.
#[derive(Drop)]
pub struct Lines {
    /// A piece that was read; its bytes before `next` were handed on.
    piece: Vec<u8>,
    next: usize,
    /// How many bytes may still be read.
    room: usize,
}

impl Lines {
    /// The lines of the first `most` bytes of the named file, or of all of them where it has fewer.
    /// Where the shelf tells its files, this one is among them; it is picked, and stays picked
    /// while its lines are handed on.
    ///
    /// Errors: `Fault` where the shelf failed, or tells its files and lacks this one.
    pub fn open<S: Shelf>(
        alloc: Global,
        shelf: &mut S,
        name: &[u8],
        most: usize,
    ) -> Result<Lines, OrMemory<Failed>>
        ensures lines { IfOk result (λ lines. WhereTold (told (S.files shelf.old) name.now)
            (λ file.
            to_come lines (left_of (S.files shelf.new) (S.at shelf.new)) ≡ Some (take most file))) }
        ensures files { S.files shelf.new ≡ S.files shelf.old }
        ensures picked { OnOk result (S.picked shelf.new ≡ true) }
        ensures monotone { S.faults shelf.old ≤ S.faults shelf.new }
        ensures cause { IfErr result (OfFault (λ _. Lacks (S.files shelf.old) name.now
            (Rose (S.faults shelf.old) (S.faults shelf.new)))) }
    {
        match shelf.pick(name) {
            Ok(()) => Ok(Lines {
                piece: Vec::new(alloc),
                next: 0,
                room: most,
            }),
            Err(failed) => Err(OrMemory::Fault(failed)),
        }
    }

    /// Puts the next line into `line`, with its line feed, which the last line may lack, or the
    /// first `most` bytes of a longer one, and answers whether there was one. `line` takes memory
    /// for these bytes alone. Where the shelf tells its files, they are the first of what is to
    /// come, and what is to come then is the rest.
    ///
    /// Errors: `Fault` where the shelf failed. Then `line` has the bytes that were handed on, and
    /// the rest is still to come.
    pub fn next<S: Shelf>(
        &mut self,
        shelf: &mut S,
        line: &mut Vec<u8>,
        most: usize,
    ) -> Result<bool, OrMemory<Failed>>
        requires picked { S.picked shelf.old ≡ true }
        requires some { 0 < most }
        ensures line { IfOk result (λ some.
            HandsOn most (to_come self.old (left_of (S.files shelf.old) (S.at shelf.old)))
            (to_come self.new (left_of (S.files shelf.new) (S.at shelf.new))) line.new.items some) }
        ensures left { IfErr result (OfFault (λ _.
            HasHandedOn (to_come self.old (left_of (S.files shelf.old) (S.at shelf.old)))
            (to_come self.new (left_of (S.files shelf.new) (S.at shelf.new))) line.new.items)) }
        ensures files { S.files shelf.new ≡ S.files shelf.old }
        ensures picked { S.picked shelf.new ≡ true }
        ensures monotone { S.faults shelf.old ≤ S.faults shelf.new }
        ensures cause { IfErr result
            (OfFault (λ _. Rose (S.faults shelf.old) (S.faults shelf.new))) }
    {
        line.clear();
        loop {
            if self.next < self.piece.len() {
                let byte = self.piece[self.next];
                line.push(byte)?;
                self.next += 1;
                if byte == b'\n' {
                    return Ok(true);
                }
                if line.len() == most {
                    return Ok(true);
                }
            } else if !self.refill(shelf)? {
                return Ok(!line.is_empty());
            }
        }
    }

    /// Reads the next piece, where there is room for one and the file has one.
    fn refill<S: Shelf>(&mut self, shelf: &mut S) -> Result<bool, OrMemory<Failed>>
        requires picked { S.picked shelf.old ≡ true }
        requires used { length self.old.piece.items ≤ self.old.next }
        ensures read { IfOk result
            (λ some. Refills self.old self.new (left_of (S.files shelf.old) (S.at shelf.old))
            (left_of (S.files shelf.new) (S.at shelf.new)) some) }
        ensures left { IfErr result
            (OfFault (λ _. (self.new ≡ self.old) × (S.at shelf.new ≡ S.at shelf.old))) }
        ensures files { S.files shelf.new ≡ S.files shelf.old }
        ensures picked { S.picked shelf.new ≡ true }
        ensures monotone { S.faults shelf.old ≤ S.faults shelf.new }
        ensures cause { IfErr result
            (OfFault (λ _. Rose (S.faults shelf.old) (S.faults shelf.new))) }
    {
        let mut piece = [0; PIECE];
        match shelf.read(&mut piece) {
            Ok(count) => {
                let count = count.min(self.room);
                self.piece.clear();
                self.next = 0;
                self.room -= count;
                self.piece.extend_from_slice(&piece[..count])?;
                Ok(count > 0)
            }
            Err(failed) => Err(OrMemory::Fault(failed)),
        }
    }
}
