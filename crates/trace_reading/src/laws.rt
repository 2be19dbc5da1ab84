//! What reading shows of the texts of lines, as calls that do nothing: their contracts are theorems
//! on the definitions.
ghost use Rattle.std.specs.Prelude.{◌≡◌, ◌<◌, ℕ, List, None, length};
ghost use Rattle.trace_text.specs.declared.events.Event.{Event};
ghost use Rattle.trace_text.specs.Text.{IsPrintableLine, ArePrintable, line_text, text_of};
ghost use Rattle.trace_text.specs.declared.lines.TheConstants.{LINE_BYTES};
ghost use Rattle.trace_text.specs.Queue.{TraceLine};
ghost use Rattle.trace_reading.specs.Lines.{line_in};

/// Different printable lines have different texts, and different lists of them have different
/// texts.
pub fn texts_differ()
    ensures lines { (t u : ℕ) (e f : Event) → IsPrintableLine t e → IsPrintableLine u f
        → line_text t e ≡ line_text u f → (t ≡ u) × (e ≡ f) }
    ensures texts { (a b : List TraceLine) → ArePrintable a → ArePrintable b → text_of a ≡ text_of b
        → a ≡ b }
{}

/// A text of more than LINE_BYTES bytes is no line.
pub fn long_texts_are_bad()
    ensures { (text : List ℕ) → LINE_BYTES < length text → line_in text ≡ None }
{}
