//! Parts of a tree that the table of its names keeps.
ghost use Rattle.std.specs.Prelude.{◌≡◌};

use ada_tree::{Aspect, Expression};
use std::marker::Model;

/// An expression of the tree. Contracts see the expression.
#[derive(Drop)]
pub struct ExpressionOf<'t> {
    expression: &'t Expression,
}

impl<'t> Model for ExpressionOf<'t> {
    ghost use Rattle.ada_tree.specs.declared.expressions.Expression.{Expression};
    ghost use Rattle.ada_tree.specs.contracts.expressions.Expression as e;

    ghost Value = { Expression };

    ghost coded = { e.the_row.coded };

    ghost view = { λ part. part.expression.now };
}

impl<'t> ExpressionOf<'t> {
    /// This expression.
    pub fn new(expression: &'t Expression) -> Self
        ensures { result ≡ expression.now }
    {
        ExpressionOf { expression }
    }

    /// The expression.
    pub fn get(&self) -> &'t Expression
        ensures { result.now ≡ self.now }
    {
        self.expression
    }
}

/// The aspects of a declaration (13.1.1). Contracts see their list.
#[derive(Drop)]
pub struct AspectsOf<'t> {
    aspects: &'t [Aspect],
}

impl<'t> Model for AspectsOf<'t> {
    ghost use Rattle.std.specs.Prelude.{List};
    ghost use Rattle.ada_tree.specs.declared.declarations.Aspect.{Aspect};
    ghost use Rattle.ada_tree.specs.contracts.expressions.Expression as e;
    ghost use Rattle.std.specs.Coded.{codes};

    ghost Value = { List Aspect };

    ghost coded = { Prim.hlevel (codes, e.the_row.coded) };

    ghost view = { λ part. part.aspects.now };
}

impl<'t> AspectsOf<'t> {
    /// These aspects.
    pub fn new(aspects: &'t [Aspect]) -> Self
        ensures { result ≡ aspects.now }
    {
        AspectsOf { aspects }
    }

    /// The aspects in the order of the text.
    pub fn as_slice(&self) -> &'t [Aspect]
        ensures { result.now ≡ self.now }
    {
        self.aspects
    }
}
