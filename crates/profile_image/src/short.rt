//! The short lists of an image.
ghost use Rattle.std.specs.Prelude.{◌≡◌, ◌++◌, ◌∷◌, [], IfErr, OnErr, OnOk};

use crate::statements::{Actual, SelectAlternative};
use std::alloc::{AllocFailed, Global};
use std::marker::Model;

/// The actual parameters of a call, in the order of the formals; contracts see the list itself.
#[derive(Drop)]
pub struct Actuals {
    items: Vec<Actual>,
}

impl Model for Actuals {
    ghost use Rattle.std.specs.Prelude.{List};
    ghost use Rattle.profile_image.specs.declared.statements.Actual.{Actual};

    ghost Value = { List Actual };

    ghost view = { λ actuals. actuals.items.items };
}

impl Actuals {
    /// No actual parameters. They take no memory.
    pub fn new(alloc: Global) -> Self
        ensures { result ≡ [] }
    {
        Actuals {
            items: Vec::new(alloc),
        }
    }

    /// Adds one at the end. Want of memory hands it back and leaves the list as it was.
    pub fn push(&mut self, item: Actual) -> Result<(), AllocFailed<Actual>>
        ensures ok { OnOk result (self.new ≡ self.old ++ item ∷ []) }
        ensures err { OnErr result (self.new ≡ self.old) }
        ensures item_returned { IfErr result (λ failed. failed.value ≡ item) }
    {
        self.items.push(item)
    }

    /// The actual parameters in order.
    pub fn as_slice(&self) -> &[Actual]
        ensures { result.now ≡ self.now }
    {
        self.items.as_slice()
    }
}

/// The alternatives of a selective accept, in the order of the text; contracts see the list itself.
#[derive(Drop)]
pub struct SelectAlternatives {
    items: Vec<SelectAlternative>,
}

impl Model for SelectAlternatives {
    ghost use Rattle.std.specs.Prelude.{List};
    ghost use Rattle.profile_image.specs.declared.statements.SelectAlternative.{SelectAlternative};

    ghost Value = { List SelectAlternative };

    ghost view = { λ alternatives. alternatives.items.items };
}

impl SelectAlternatives {
    /// No alternatives. They take no memory.
    pub fn new(alloc: Global) -> Self
        ensures { result ≡ [] }
    {
        SelectAlternatives {
            items: Vec::new(alloc),
        }
    }

    /// Adds one at the end. Want of memory hands it back and leaves the list as it was.
    pub fn push(&mut self, item: SelectAlternative) -> Result<(), AllocFailed<SelectAlternative>>
        ensures ok { OnOk result (self.new ≡ self.old ++ item ∷ []) }
        ensures err { OnErr result (self.new ≡ self.old) }
        ensures item_returned { IfErr result (λ failed. failed.value ≡ item) }
    {
        self.items.push(item)
    }

    /// The alternatives in order.
    pub fn as_slice(&self) -> &[SelectAlternative]
        ensures { result.now ≡ self.now }
    {
        self.items.as_slice()
    }
}
