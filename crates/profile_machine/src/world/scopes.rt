//! Scopes in use and their cells (3.1, 8.2).
use crate::world::marks::CopyBack;
use ann_base::ObjectNo;
use profile_image::{DeclNo, ScopeNo, Value};
use rosters::Numbered;
use trace_text::Who;
use world_tables::List;

/// A scope in use, by number: scopes are numbered from 0, the environment's, in the order in which
/// they begin.
#[derive(Clone, Copy)]
pub struct ScopeId(pub u32);

/// The cells of a declared object: the scope in use that holds them, and the declaration.
#[derive(Clone, Copy)]
pub struct Located {
    pub within: ScopeId,
    pub declared: DeclNo,
}

/// A variable: the scope in use and the place of its cell there; its range is that of the
/// declaration.
#[derive(Clone, Copy)]
pub struct Variable {
    pub within: ScopeId,
    pub place: u32,
    pub declared: DeclNo,
}

/// A scope in use (3.1, 8.2).
pub struct ScopeInUse {
    pub id: ScopeId,
    pub scope: ScopeNo,
    /// The scope in use that stands round it in the text.
    pub outer: Option<ScopeId>,
    /// Who runs it.
    pub owner: Who,
    /// The protected object of whose operation or entry it is the body.
    pub object: Option<ObjectNo>,
    /// The controlled object on which the operation works whose body it is.
    pub subject: Option<Located>,
    pub cells: List<Value>,
}

// Written out, so that it is proved once, and not by each function that drops one.
impl Drop for ScopeInUse {
    fn drop(self) {
        let ScopeInUse {
            id: _,
            scope: _,
            outer: _,
            owner: _,
            object: _,
            subject: _,
            cells: _,
        } = self;
    }
}

impl Numbered for ScopeInUse {
    ghost use Rattle.std.specs.Prelude.{length, false, Some};

    ghost number = { λ x. Some x.id.0 };

    ghost size = { λ x. length x.cells };

    ghost stirs = { λ x. false };

    fn number(&self) -> Option<u32> {
        Some(self.id.0)
    }

    fn size(&self) -> usize {
        self.cells.len()
    }

    fn stirs(&self) -> bool {
        false
    }
}

/// How a scope begins in a run: what stands round it in the text, the object or the controlled
/// object that it works on, and what its first cells hold.
pub struct Beginning {
    pub outer: Option<ScopeId>,
    pub object: Option<ObjectNo>,
    pub subject: Option<Located>,
    pub values: List<Value>,
}

// Written out, so that it is proved once, and not by each function that drops one.
impl Drop for Beginning {
    fn drop(self) {
        let Beginning {
            outer: _,
            object: _,
            subject: _,
            values: _,
        } = self;
    }
}

/// What a call hands over: the values of the parameters, what is copied back, and the object that
/// stands for itself (6.4.1).
#[derive(Drop)]
pub struct Handed {
    pub values: List<Value>,
    pub back: List<CopyBack>,
    pub subject: Option<Located>,
}
