//! The values of numeric literals (ISO/IEC 8652:2012, 2.4). One outside its type is answered as
//! want of memory: legality refuses it.
ghost use Rattle.std.specs.Prelude.{◌≡◌, IfOk};
ghost use Rattle.ada_regions.specs.Statics.{literal_value, negated};

use ada_subtypes::{static_literal, static_negative};
use ann_base::NoMemory;
use profile_image::Value;

/// The value of a literal.
#[tactic(auto, using(crate::proofs::LiteralValues::value_of_static))]
pub(crate) fn literal_value(literal: &[u8]) -> Result<Value, NoMemory>
    ensures { IfOk result (λ v. v ≡ literal_value literal.now) }
{
    static_literal(literal).ok_or(NoMemory)
}

/// The value of a literal behind a minus.
#[tactic(auto, using(crate::proofs::LiteralValues::value_of_negative))]
pub(crate) fn negative_value(literal: &[u8]) -> Result<Value, NoMemory>
    ensures { IfOk result (λ v. v ≡ negated (literal_value literal.now)) }
{
    static_negative(literal).ok_or(NoMemory)
}
