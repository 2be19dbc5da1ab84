//! Writing all of a piece.
ghost use Rattle.std.specs.Prelude.{◌≡◌, ◌≤◌, ◌+◌, ◌++◌, drop, length, OnOk, OnErr};
ghost use Rattle.ann_base.specs.Outside.{Rose, extended};
ghost use Rattle.outside_bytes.specs.Pieces.{HoldsPrefix};

use ann_base::{Failed, Sink};

/// Writes all bytes of the piece, in as many calls as it takes. After a failure a prefix of it was
/// written.
pub fn write_all<K: Sink>(sink: &mut K, piece: &[u8]) -> Result<(), Failed>
    ensures written { OnOk result (K.held sink.new ≡ extended (K.held sink.old) piece.now) }
    ensures monotone { K.faults sink.old ≤ K.faults sink.new }
    ensures cause { OnErr result (Rose (K.faults sink.old) (K.faults sink.new)) }
    ensures prefix { OnErr result (HoldsPrefix (K.held sink.old) (K.held sink.new) piece.now) }
{
    let mut rest = piece;
    while !rest.is_empty() {
        let count = sink.write(rest)?;
        rest = tail(rest, count);
    }
    Ok(())
}

/// Writes two pieces, the second where the first was written whole. After a failure a prefix of
/// both was written.
pub fn write_two<K: Sink>(sink: &mut K, first: &[u8], second: &[u8]) -> Result<(), Failed>
    ensures written { OnOk result
        (K.held sink.new ≡ extended (K.held sink.old) (first.now ++ second.now)) }
    ensures monotone { K.faults sink.old ≤ K.faults sink.new }
    ensures cause { OnErr result (Rose (K.faults sink.old) (K.faults sink.new)) }
    ensures prefix { OnErr result
        (HoldsPrefix (K.held sink.old) (K.held sink.new) (first.now ++ second.now)) }
{
    write_all(sink, first)?;
    write_all(sink, second)
}

/// Writes four pieces in order. After a failure a prefix of them was written.
pub fn write_four<K: Sink>(
    sink: &mut K,
    first: &[u8],
    second: &[u8],
    third: &[u8],
    fourth: &[u8],
) -> Result<(), Failed>
    ensures written { OnOk result
        (K.held sink.new
        ≡ extended (K.held sink.old) ((first.now ++ second.now) ++ (third.now ++ fourth.now))) }
    ensures monotone { K.faults sink.old ≤ K.faults sink.new }
    ensures cause { OnErr result (Rose (K.faults sink.old) (K.faults sink.new)) }
    ensures prefix { OnErr result
        (HoldsPrefix (K.held sink.old) (K.held sink.new)
        ((first.now ++ second.now) ++ (third.now ++ fourth.now))) }
{
    write_two(sink, first, second)?;
    write_two(sink, third, fourth)
}

/// What stands after so many bytes.
fn tail(piece: &[u8], count: usize) -> &[u8]
    requires { count ≤ length piece.now }
    ensures rest { result.now ≡ drop count piece.now }
    ensures shorter { length result.now + count ≡ length piece.now }
{
    &piece[count..]
}
