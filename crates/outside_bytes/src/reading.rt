//! Reading a file.
ghost use Rattle.std.specs.Prelude.{◌≡◌, ◌≤◌, true, take, IfOk, IfErr, IfSome};
ghost use Rattle.ann_base.specs.Answers.{OfFault};
ghost use Rattle.ann_base.specs.Outside.{Rose, Lacks};
ghost use Rattle.outside_bytes.specs.Files.{told, WhereTold, left_of};

use ann_base::{Failed, OrMemory, Shelf};
use std::alloc::Global;

/// How many bytes one read asks for.
pub(crate) const PIECE: usize = 4096;

/// The first `most` bytes of the named file, or all of them where it has fewer. It takes memory for
/// these bytes and for at most one piece more, however long the file is. Where the shelf tells its
/// files, this one is among them.
///
/// Errors: `Fault` where the shelf failed, or tells its files and lacks this one.
pub fn read_file<S: Shelf>(
    alloc: Global,
    shelf: &mut S,
    name: &[u8],
    most: usize,
) -> Result<Vec<u8>, OrMemory<Failed>>
    ensures read { IfOk result
        (λ bytes.
        WhereTold (told (S.files shelf.old) name.now) (λ file. bytes.items ≡ take most file)) }
    ensures files { S.files shelf.new ≡ S.files shelf.old }
    ensures monotone { S.faults shelf.old ≤ S.faults shelf.new }
    ensures cause { IfErr result
        (OfFault
        (λ _.
        Lacks (S.files shelf.old) name.now (Rose (S.faults shelf.old) (S.faults shelf.new)))) }
{
    match shelf.pick(name) {
        Ok(()) => read_picked(alloc, shelf, most),
        Err(failed) => Err(OrMemory::Fault(failed)),
    }
}

/// The same of the picked file, from its next byte on.
fn read_picked<S: Shelf>(
    alloc: Global,
    shelf: &mut S,
    most: usize,
) -> Result<Vec<u8>, OrMemory<Failed>>
    requires { S.picked shelf.old ≡ true }
    ensures read { IfOk result
        (λ bytes.
        IfSome (left_of (S.files shelf.old) (S.at shelf.old))
        (λ left. bytes.items ≡ take most left)) }
    ensures files { S.files shelf.new ≡ S.files shelf.old }
    ensures monotone { S.faults shelf.old ≤ S.faults shelf.new }
    ensures cause { IfErr result (OfFault (λ _. Rose (S.faults shelf.old) (S.faults shelf.new))) }
{
    let mut bytes = Vec::new(alloc);
    let mut piece = [0; PIECE];
    while bytes.len() < most {
        match shelf.read(&mut piece) {
            Ok(0) => return Ok(bytes),
            Ok(count) => bytes.extend_from_slice(&piece[..count])?,
            Err(failed) => return Err(OrMemory::Fault(failed)),
        }
    }
    bytes.truncate(most);
    Ok(bytes)
}
