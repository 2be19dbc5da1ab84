//! What is answered of the lines of a trace, as a call that does nothing: its contract is a theorem
//! on the definitions.
ghost use Rattle.std.specs.Prelude.{◌≡◌, ℕ, List, Ok};
ghost use Rattle.trace_text.specs.Queue.{TraceLine};
ghost use Rattle.trace_laws.specs.Verdicts.{texts_in};
ghost use Rattle.trace_files.specs.Reported.{formed_lines, IsFormedTrace};

use trace_text::tests_tell;

/// The lines of a trace are answered exactly where each of its texts is a line, they are formed,
/// and they are within the most bytes.
pub fn lines_tell()
    ensures formed { (bytes : List ℕ) (lines : List TraceLine) → formed_lines bytes ≡ Ok lines
        → IsFormedTrace (texts_in bytes) lines }
    ensures only { (bytes : List ℕ) (lines : List TraceLine) → IsFormedTrace (texts_in bytes) lines
        → formed_lines bytes ≡ Ok lines }
{
    tests_tell();
}
