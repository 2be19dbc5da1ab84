//! What an expression gives the image.
use ada_image::{Lists, Within};
use ada_tree::Name;
use ann_base::NoMemory;
use profile_image::ExprNo;

/// What gives an expression's image (ISO/IEC 8652:2012, clause 4).
pub trait Imaged {
    ghost use Rattle.std.specs.Prelude.{◌≡◌, option_copied, option_map};
    ghost use Rattle.ada_regions.specs.Statics.{literal_value};
    ghost use Rattle.ada_image.specs.Made.{Made};
    ghost use Rattle.ada_image.specs.ImageOfExpressions.{ExpressionImage};

    ghost image: { Self → ExpressionImage };

    /// The expressions that it is are made.
    fn made(&self, lists: &mut Lists, within: &Within<'_, '_>) -> Result<ExprNo, NoMemory>
        ensures { Made ((image self.now).made within.now) lists.old lists.new result };

    /// The literal that it is, if it is a numeric literal without brackets.
    fn literal(&self) -> Option<&[u8]>
        ensures { option_map literal_value (option_copied result) ≡ (image self.now).literal };

    /// The name that it is, if it is one, in brackets or without.
    fn name(&self) -> Option<&Name>
        ensures { option_copied result ≡ (image self.now).name };
}
