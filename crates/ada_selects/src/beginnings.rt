//! With what statements begin (ISO/IEC 8652:2012, 5.1, 5.5, 5.6).
ghost use Rattle.std.specs.Prelude.{◌≡◌};
ghost use Rattle.ada_grammar.specs.ReadingStatements.{begins_block, begins_compound, begins_loop};
ghost use Rattle.ada_grammar.specs.ReadingStatements.{begins_simple, begins_statement};

use ada_grammar::Cursor;
use ada_lex::Reserved;

/// Whether a loop without a name begins here (5.5).
pub fn begins_loop(cursor: &Cursor<'_>) -> bool
    ensures { result ≡ begins_loop cursor.now }
{
    cursor.is_word(Reserved::Loop)
        || cursor.is_word(Reserved::While)
        || cursor.is_word(Reserved::For)
}

/// Whether a block without a name begins here (5.6).
pub fn begins_block(cursor: &Cursor<'_>) -> bool
    ensures { result ≡ begins_block cursor.now }
{
    cursor.is_word(Reserved::Declare) || cursor.is_word(Reserved::Begin)
}

/// Whether a statement that holds others, and has no name, begins here (5.1).
pub fn begins_compound(cursor: &Cursor<'_>) -> bool
    ensures { result ≡ begins_compound cursor.now }
{
    cursor.is_word(Reserved::If)
        || cursor.is_word(Reserved::Case)
        || begins_loop(cursor)
        || begins_block(cursor)
        || cursor.is_word(Reserved::Accept)
        || cursor.is_word(Reserved::Select)
}

/// Whether another statement, or one with a name, begins here (5.1).
fn begins_simple(cursor: &Cursor<'_>) -> bool
    ensures { result ≡ begins_simple cursor.now }
{
    cursor.is_word(Reserved::Null)
        || cursor.is_word(Reserved::Delay)
        || cursor.is_word(Reserved::Exit)
        || cursor.is_word(Reserved::Return)
        || cursor.is_word(Reserved::Raise)
        || cursor.is_word(Reserved::Abort)
        || cursor.is_word(Reserved::Requeue)
        || cursor.is_identifier()
}

/// Whether a statement begins here (5.1).
#[tactic(auto, unfolding(ada_grammar::specs::ReadingStatements::begins_statement))]
pub fn begins_statement(cursor: &Cursor<'_>) -> bool
    ensures { result ≡ begins_statement cursor.now }
{
    begins_compound(cursor) || begins_simple(cursor)
}
