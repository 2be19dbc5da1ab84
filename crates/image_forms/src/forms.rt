//! What holds statements and may have a form in an image.
use ada_regions::Names;

/// A sequence of statements, or what stands for one in statements that hold others.
pub trait SequenceHasForm {
    ghost use Rattle.std.specs.Prelude.{◌≡◌};
    ghost use Rattle.ada_image.specs.BuiltExpressions.{Built};

    ghost built: { Self → Built };

    /// Whether an image has a form for each of its parts, given what its names denote.
    fn is_built(&self, names: &Names<'_>) -> bool
        ensures { result ≡ built self.now names.now };
}
