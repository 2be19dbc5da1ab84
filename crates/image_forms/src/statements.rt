//! Whether statements, and lists of them, have a form in an image (ISO/IEC 8652:2012, 5.1).
ghost use Rattle.std.specs.Prelude.{◌≡◌, ◌∷◌};
ghost use Rattle.ada_tree.specs.declared.statements.Statement.TheVariants as statement;
ghost use Rattle.ada_image.specs.BuiltSequences.{statement_built, statements_built};

use crate::branches::{accept_body_built, alternatives_built, elsifs_built, sequence_if_built};
use crate::forms::SequenceHasForm;
use crate::selects::select_built;
use crate::simple::{assignment_built, iteration_built};
use ada_regions::Names;
use ada_tree::{Case, If, Loop, OneOrMore, Statement};
use expression_forms::{call_statement_built, expression_built, source_if_there, value_if_there};

/// An if statement (5.3).
fn if_built<Q: SequenceHasForm>(branches: &If<Q>, names: &Names<'_>) -> bool
    ensures { result ≡ statement_built Q.built (statement.If branches.now) names.now }
{
    expression_built(&branches.condition, names)
        && (branches.statements.is_built(names)
            && (elsifs_built(branches.elsifs.as_slice(), names)
                && sequence_if_built(&branches.otherwise, names)))
}

/// A case statement (5.4).
fn case_built<Q: SequenceHasForm>(case: &Case<Q>, names: &Names<'_>) -> bool
    ensures { result ≡ statement_built Q.built (statement.Case case.now) names.now }
{
    expression_built(&case.selector, names) && alternatives_built(&case.alternatives, names)
}

/// A loop (5.5).
fn loop_built<Q: SequenceHasForm>(around: &Loop<Q>, names: &Names<'_>) -> bool
    ensures { result ≡ statement_built Q.built (statement.Loop around.now) names.now }
{
    iteration_built(&around.iteration, names) && around.statements.is_built(names)
}

/// A statement (5.1).
fn statement_built<Q: SequenceHasForm>(statement: &Statement<Q>, names: &Names<'_>) -> bool
    ensures { result ≡ statement_built Q.built statement.now names.now }
{
    match statement {
        Statement::Assignment(assignment) => assignment_built(assignment, names),
        Statement::Call(call) => call_statement_built(call, names),
        Statement::Delay(delay) => expression_built(&delay.value, names),
        Statement::If(branches) => if_built(branches, names),
        Statement::Case(case) => case_built(case, names),
        Statement::Loop(around) => loop_built(around, names),
        Statement::Exit(exit) => value_if_there(exit.condition.as_ref(), names),
        Statement::Block(block) => block.sequence.is_built(names),
        Statement::Return { value, .. } => source_if_there(value, names),
        Statement::Accept(accept) => accept_body_built(&accept.body, names),
        Statement::Select(select) => select_built(&select.form, names),
        _ => true,
    }
}

/// Statements behind the first one.
fn other_statements_built<Q: SequenceHasForm>(
    statements: &[Statement<Q>],
    names: &Names<'_>,
) -> bool
    ensures { result ≡ statements_built Q.built statements.now names.now }
{
    for statement in statements {
        if !statement_built(statement, names) {
            return false;
        }
    }
    true
}

/// The statements of a sequence.
pub(crate) fn statements_built<Q: SequenceHasForm>(
    statements: &OneOrMore<Statement<Q>>,
    names: &Names<'_>,
) -> bool
    ensures { result
        ≡ statements_built Q.built (statements.now.first ∷ statements.now.others) names.now }
{
    statement_built(&statements.first, names)
        && other_statements_built(statements.others.as_slice(), names)
}
