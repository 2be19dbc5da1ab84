//! What has a value and may have a form in an image.
use ada_regions::Names;

/// An expression, or a form of one.
pub trait HasForm {
    ghost use Rattle.std.specs.Prelude.{◌≡◌};
    ghost use Rattle.ada_image.specs.BuiltExpressions.{Built};

    ghost built: { Self → Built };

    /// Whether an image has a form for each of its parts, given what its names denote.
    fn is_built(&self, names: &Names<'_>) -> bool
        ensures { result ≡ built self.now names.now };
}
