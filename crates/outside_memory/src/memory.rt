//! A shelf and a sink in memory, whose failures are chosen beforehand: what tests of reading and
//! writing run over.
ghost use Rattle.std.specs.Prelude.{◌≡◌, ◌≤◌, ◌<◌, ◌+◌, ◌-◌, ◌^◌, [], None, Some, IfOk, OnOk};
ghost use Rattle.std.specs.Prelude.{OnErr, MatchOption, is_some, true, false, take, drop, length};
ghost use Rattle.outside_memory.specs.Files.{files_of, first_named, StandsAt, moved};
ghost use Rattle.ann_base.specs.Outside.{Rose, Lacks, IsPickedAt, HasRead, extended};

use ann_base::{Failed, NoMemory, Shelf, Sink};
use std::alloc::Global;
use std::marker::Model;

/// The picked file of a shelf in memory: its place in the list of files, and the offset of its next
/// byte.
#[derive(Clone, Copy)]
struct Picked {
    file: usize,
    offset: usize,
}

/// Files in memory. Calls are counted from 1; those that are listed as failing answer `Failed`.
#[derive(Drop)]
pub struct MemShelf {
    files: Vec<(Vec<u8>, Vec<u8>)>,
    most: usize,
    fails: Vec<u64>,
    calls: u64,
    faults: u64,
    picked: Option<Picked>,
}

impl Model for MemShelf {
    ghost use Rattle.outside_memory.specs.MemoryState.{ShelfState};

    ghost Value = { ShelfState };

    ghost use Rattle.outside_memory.specs.Memory.{shelf_state, IsShelf};

    ghost view = { shelf_state };

    ghost invariant = { IsShelf };
}

impl MemShelf {
    ghost use Rattle.outside_memory.specs.Memory.{after_pick, pick_answer, after_read};
    ghost use Rattle.outside_memory.specs.Memory.{read_answer, next_fails, one_more, faults_after};

    /// A shelf with these files, names and bytes; of two files of one name the first counts. A read
    /// moves at most `most` bytes. The calls whose numbers are in `fails` answer `Failed`, the
    /// first being 1.
    pub fn new(files: Vec<(Vec<u8>, Vec<u8>)>, most: usize, fails: Vec<u64>) -> MemShelf
        requires { 0 < most }
        ensures files { result.files ≡ files_of files.items }
        ensures most { result.most ≡ most }
        ensures fails { result.fails ≡ fails.items }
        ensures fresh { (result.calls ≡ 0) × (result.faults ≡ 0) × (result.at ≡ None) }
    {
        MemShelf {
            files,
            most,
            fails,
            calls: 0,
            faults: 0,
            picked: None,
        }
    }

    /// Counts a call, and answers whether it is one of those that fail.
    fn begin(&mut self) -> bool
        ensures bounded { self.old.faults < 2 ^ 64 }
        ensures counted { (result ≡ next_fails self.old.fails self.old.calls)
            × (self.new
            ≡ record self.old
            { calls = one_more self.old.calls; faults = faults_after result self.old.faults }) }
    {
        self.calls = self.calls.saturating_add(1);
        let failing = self.fails.contains(&self.calls);
        if failing {
            self.faults = self.faults.saturating_add(1);
        }
        failing
    }
}

impl Shelf for MemShelf {
    ghost use Rattle.outside_memory.specs.Memory.{after_pick, pick_answer, after_read};
    ghost use Rattle.outside_memory.specs.Memory.{read_answer, rest_at, next_fails};

    ghost files = { λ s. Some (first_named s.files) };

    ghost at = { λ s. s.at };

    ghost picked = { λ s. is_some s.at };

    ghost faults = { λ s. s.faults };

    fn pick(&mut self, name: &[u8]) -> Result<(), Failed>
        ensures answer { result
            ≡ pick_answer (next_fails self.old.fails self.old.calls)
            (first_named self.old.files name.now) }
        ensures state { self.new ≡ after_pick self.old name.now }
        ensures files { Some (first_named self.new.files) ≡ Some (first_named self.old.files) }
        ensures monotone { self.old.faults ≤ self.new.faults }
        ensures ok { OnOk result (is_some self.new.at ≡ true) }
        ensures start { OnOk result
            (IsPickedAt (Some (first_named self.old.files)) name.now self.new.at) }
        ensures err { OnErr result (is_some self.new.at ≡ false) }
        ensures cause { OnErr result
            (Lacks (Some (first_named self.old.files)) name.now
            (Rose self.old.faults self.new.faults)) }
    {
        if self.begin() {
            self.picked = None;
            return Err(Failed);
        }
        match position_of(&self.files, name) {
            Some(file) => {
                self.picked = Some(Picked { file, offset: 0 });
                Ok(())
            }
            None => {
                self.picked = None;
                Err(Failed)
            }
        }
    }

    fn read(&mut self, piece: &mut [u8]) -> Result<usize, Failed>
        requires { is_some self.old.at ≡ true }
        ensures answer { result ≡ read_answer self.old (length piece.old) }
        ensures state { self.new ≡ after_read self.old (length piece.old) }
        ensures bytes { IfOk result
            (λ count. take count piece.new ≡ take count (rest_at self.old.files self.old.at)) }
        ensures files { Some (first_named self.new.files) ≡ Some (first_named self.old.files) }
        ensures monotone { self.old.faults ≤ self.new.faults }
        ensures picked { is_some self.new.at ≡ true }
        ensures within { IfOk result (λ count. count ≤ length piece.old) }
        ensures ok { IfOk result
            (λ count.
            HasRead (Some (first_named self.old.files)) self.old.at self.new.at (length piece.old)
            (take count piece.new) count) }
        ensures err { OnErr result (self.new.at ≡ self.old.at) }
        ensures cause { OnErr result (Rose self.old.faults self.new.faults) }
    {
        if self.begin() {
            return Err(Failed);
        }
        match self.picked {
            None => Ok(0),
            Some(picked) => {
                let bytes = self.files[picked.file].1.as_slice();
                let count = copy_front(bytes, picked.offset, self.most, piece);
                self.picked = Some(Picked {
                    file: picked.file,
                    offset: picked.offset + count,
                });
                Ok(count)
            }
        }
    }
}

/// Bytes that are written to memory. Calls are counted from 1; those that are listed as failing
/// answer `Failed`, and so does a write that no longer fits.
#[derive(Drop)]
pub struct MemSink {
    held: Vec<u8>,
    room: usize,
    most: usize,
    fails: Vec<u64>,
    calls: u64,
    faults: u64,
}

impl Model for MemSink {
    ghost use Rattle.outside_memory.specs.MemoryState.{SinkState};

    ghost Value = { SinkState };

    ghost use Rattle.outside_memory.specs.Memory.{sink_state, IsSink};

    ghost view = { sink_state };

    ghost invariant = { IsSink };
}

/// Copies bytes from the offset on to the front of the piece, and answers how many: as many as fit,
/// and at most so many.
fn copy_front(bytes: &[u8], offset: usize, most: usize, piece: &mut [u8]) -> usize
    requires { offset ≤ length bytes.now }
    ensures count { result ≡ moved most (length piece.old) (length (drop offset bytes.now)) }
    ensures copied { take result piece.new ≡ take result (drop offset bytes.now) }
{
    let left = bytes.len() - offset;
    let count = most.min(piece.len().min(left));
    let end = offset + count;
    piece[..count].copy_from_slice(&bytes[offset..end]);
    count
}

/// The place of the first file of this name.
fn position_of(files: &[(Vec<u8>, Vec<u8>)], name: &[u8]) -> Option<usize>
    ensures { MatchOption result (first_named (files_of files.now) name.now ≡ None)
        (StandsAt (files_of files.now) name.now) }
{
    for (place, file) in files.iter().enumerate() {
        if file.0.as_slice() == name {
            return Some(place);
        }
    }
    None
}

impl MemSink {
    ghost use Rattle.outside_memory.specs.Memory.{next_fails, one_more};

    /// A sink with nothing written, which takes `room` bytes of memory now and holds no more. A
    /// write moves at most `most` bytes. The calls whose numbers are in `fails` answer `Failed`,
    /// the first being 1.
    pub fn new(
        alloc: Global,
        most: usize,
        room: usize,
        fails: Vec<u64>,
    ) -> Result<MemSink, NoMemory>
        requires { 0 < most }
        ensures held { IfOk result (λ sink. sink.held ≡ []) }
        ensures room { IfOk result (λ sink. sink.room ≡ room) }
        ensures most { IfOk result (λ sink. sink.most ≡ most) }
        ensures fails { IfOk result (λ sink. sink.fails ≡ fails.items) }
        ensures fresh { IfOk result (λ sink. (sink.calls ≡ 0) × (sink.faults ≡ 0)) }
    {
        let held = Vec::with_capacity(alloc, room)?;
        Ok(MemSink {
            held,
            room,
            most,
            fails,
            calls: 0,
            faults: 0,
        })
    }

    /// What has been written.
    pub fn held(&self) -> &[u8]
        ensures { result.now ≡ self.now.held }
    {
        self.held.as_slice()
    }
}

impl Sink for MemSink {
    ghost use Rattle.outside_memory.specs.Memory.{after_write, write_answer};

    ghost held = { λ s. Some s.held };

    ghost faults = { λ s. s.faults };

    fn write(&mut self, piece: &[u8]) -> Result<usize, Failed>
        ensures answer { result ≡ write_answer self.old (length piece.now) }
        ensures state { self.new ≡ after_write self.old piece.now }
        ensures monotone { self.old.faults ≤ self.new.faults }
        ensures within { IfOk result (λ count. count ≤ length piece.now) }
        ensures some { IfOk result (λ count. 0 < length piece.now → 0 < count) }
        ensures ok { IfOk result
            (λ count. Some self.new.held ≡ extended (Some self.old.held) (take count piece.now)) }
        ensures err { OnErr result (Some self.new.held ≡ Some self.old.held) }
        ensures cause { OnErr result (Rose self.old.faults self.new.faults) }
    {
        self.calls = self.calls.saturating_add(1);
        let count = self.most.min(piece.len());
        if self.fails.contains(&self.calls) || self.room - self.held.len() < count {
            self.faults = self.faults.saturating_add(1);
            return Err(Failed);
        }
        self.held.extend_from_slice(&piece[..count]).unwrap();
        Ok(count)
    }
}
