//! Lists of parts: reading goes on as long as a part begins, or as long as a delimiter stands
//! between two of them.
ghost use Rattle.std.specs.Prelude.{Bool, List};
ghost use Rattle.ada_lex.specs.DelimiterLetters.{delimiter_letters};
ghost use Rattle.ada_tree.specs.Written.{Lexeme};
ghost use Rattle.ada_grammar.specs.Reading.{Parser, behind_delimiter_of, items_of};
ghost use Rattle.ada_grammar.specs.Reading.{sees_delimiter, separated_of};
ghost use Rattle.ada_grammar.specs.Reads.{Reads};
ghost use Rattle.ada_expressions.specs.Parts.{ReadsAs, TestsAs};

use ada_grammar::{Cursor, Stuck};
use ada_lex::Delimiter;
use ada_tree::OneOrMore;
use ann_base::OrMemory;
use sqlite_items::Items;
use std::alloc::Global;

/// Parts, as long as one begins.
#[tactic(auto, unfolding(ada_grammar::specs::Reading::items_of))]
pub fn items<
    T: Drop,
    B: Fn(&Cursor<'_>) -> bool,
    R: Fn(&mut Cursor<'_>) -> Result<T, OrMemory<Stuck>>,
>(alloc: Global, cursor: &mut Cursor<'_>, begins: B, item: R) -> Result<Items<T>, OrMemory<Stuck>>
    requires begins { B.IsAlwaysCallable begins }
    requires item { R.IsAlwaysCallable item }
    ensures { (test : List Lexeme → Bool) (part : Parser T) → TestsAs (B.post begins) test
        → ReadsAs (R.post item) part → Reads result cursor.new (items_of test part cursor.old) }
{
    let mut found = Items::new(alloc);
    for _turn in 0..cursor.remaining() {
        if !begins(cursor) {
            return Ok(found);
        }
        found.push(item(cursor)?)?;
    }
    Ok(found)
}

/// A part behind this delimiter.
#[tactic(auto, unfolding(ada_grammar::specs::Reading::behind_delimiter_of))]
fn behind<T, R: Fn(&mut Cursor<'_>) -> Result<T, OrMemory<Stuck>>>(
    cursor: &mut Cursor<'_>,
    delimiter: Delimiter,
    item: &R,
) -> Result<T, OrMemory<Stuck>>
    requires { R.IsAlwaysCallable item.now }
    ensures { (part : Parser T) → ReadsAs (R.post item.now) part
        → Reads result cursor.new
        (behind_delimiter_of (delimiter_letters delimiter) part cursor.old) }
{
    cursor.delimiter(delimiter)?;
    item(cursor)
}

/// Parts, each behind this delimiter.
pub fn items_behind<T: Drop, R: Fn(&mut Cursor<'_>) -> Result<T, OrMemory<Stuck>>>(
    alloc: Global,
    cursor: &mut Cursor<'_>,
    delimiter: Delimiter,
    item: R,
) -> Result<Items<T>, OrMemory<Stuck>>
    requires { R.IsAlwaysCallable item }
    ensures { (part : Parser T) → ReadsAs (R.post item) part
        → Reads result cursor.new
        (items_of (sees_delimiter (delimiter_letters delimiter))
        (behind_delimiter_of (delimiter_letters delimiter) part) cursor.old) }
{
    items(
        alloc,
        cursor,
        |cursor| cursor.is_delimiter(delimiter),
        |cursor| behind(cursor, delimiter, &item),
    )
}

/// Parts with this delimiter between them.
#[tactic(auto, unfolding(ada_grammar::specs::Reading::separated_of))]
pub fn separated<T: Drop, R: Fn(&mut Cursor<'_>) -> Result<T, OrMemory<Stuck>>>(
    alloc: Global,
    cursor: &mut Cursor<'_>,
    delimiter: Delimiter,
    item: R,
) -> Result<OneOrMore<T>, OrMemory<Stuck>>
    requires { R.IsAlwaysCallable item }
    ensures { (part : Parser T) → ReadsAs (R.post item) part
        → Reads result cursor.new
        (separated_of (delimiter_letters delimiter) part cursor.old) }
{
    let first = item(cursor)?;
    let others = items_behind(alloc, cursor, delimiter, item)?;
    Ok(OneOrMore { first, others })
}
