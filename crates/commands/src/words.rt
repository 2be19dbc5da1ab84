//! Lines of two words.
ghost use Rattle.std.specs.Prelude.{◌≡◌, ◌≤◌, [], ◌∷◌, ◌++◌, OnOk, OnErr};
ghost use Rattle.ann_base.specs.Outside.{Rose, extended};
ghost use Rattle.outside_bytes.specs.Pieces.{HoldsPrefix};

use ann_base::{Failed, Sink};
use outside_bytes::{write_all, write_four};

/// Writes two words with a space between them, and a line feed. After a failure a prefix of it was
/// written.
#[tactic(auto, using(crate::proofs::WordTexts::two_words))]
pub fn write_words<K: Sink>(sink: &mut K, first: &[u8], second: &[u8]) -> Result<(), Failed>
    ensures written { OnOk result
        (K.held sink.new ≡ extended (K.held sink.old) (first.now ++ 32 ∷ (second.now ++ 10 ∷ []))) }
    ensures monotone { K.faults sink.old ≤ K.faults sink.new }
    ensures cause { OnErr result (Rose (K.faults sink.old) (K.faults sink.new)) }
    ensures prefix { OnErr result
        (HoldsPrefix (K.held sink.old) (K.held sink.new)
        (first.now ++ 32 ∷ (second.now ++ 10 ∷ []))) }
{
    write_four(sink, first, b" ", second, b"\n")
}

/// The same behind a label. After a failure a prefix of both was written.
pub fn write_labelled<K: Sink>(
    sink: &mut K,
    label: &[u8],
    first: &[u8],
    second: &[u8],
) -> Result<(), Failed>
    ensures written { OnOk result
        (K.held sink.new
        ≡ extended (K.held sink.old) (label.now ++ (first.now ++ 32 ∷ (second.now ++ 10 ∷ [])))) }
    ensures monotone { K.faults sink.old ≤ K.faults sink.new }
    ensures cause { OnErr result (Rose (K.faults sink.old) (K.faults sink.new)) }
    ensures prefix { OnErr result
        (HoldsPrefix (K.held sink.old) (K.held sink.new)
        (label.now ++ (first.now ++ 32 ∷ (second.now ++ 10 ∷ [])))) }
{
    write_all(sink, label)?;
    write_words(sink, first, second)
}
