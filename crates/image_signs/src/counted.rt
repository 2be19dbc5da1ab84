//! What counts the signs in an expression.
use ada_regions::Names;
use ann_base::NoMemory;

/// What counts its signs (ISO/IEC 8652:2012, 4.5, 6.4).
pub(crate) trait Counted {
    ghost use Rattle.std.specs.Prelude.{◌≡◌, IfOk, option_copied, option_map};
    ghost use Rattle.ada_regions.specs.Statics.{literal_value};
    ghost use Rattle.ada_image.specs.ImageOfExpressions.{ExpressionImage};

    ghost image: { Self → ExpressionImage };

    /// The number of its operator signs and calls of predefined functions.
    fn signs(&self, names: &Names<'_>) -> Result<u32, NoMemory>
        ensures { IfOk result (λ n. n ≡ (image self.now).signs names.now) };

    /// The literal that it is, if it is a numeric literal without brackets.
    fn literal(&self) -> Option<&[u8]>
        ensures { option_map literal_value (option_copied result) ≡ (image self.now).literal };
}
