//! A scope with the chain that it begins.

ghost use Rattle.std.specs.Prelude.{◌≡◌, ◌∷◌, [], ◌++◌, length, IfOk};
ghost use Rattle.snap_graph.specs.declared.kind.ScopeKind.TheVariants.{Script};

use crate::slots::Slots;
use snap_graph::ScopeKind;
use snap_text::NoMemory;
use spec_scopes::ScopeNeed;
use std::alloc::Global;

/// A scope, and the scopes of the chain that it begins, innermost first.
#[derive(Drop)]
pub(crate) struct Level {
    /// Which declarations it holds.
    pub kind: ScopeKind,
    /// Its names.
    pub slots: Slots,
    /// What each scope of the chain needs.
    pub needs: Vec<ScopeNeed>,
    /// The numbers of the scopes of the chain.
    pub scopes: Vec<usize>,
}

impl Level {
    /// What the scope needs.
    pub fn need(&self) -> ScopeNeed
        ensures { result ≡ record { kind = self.now.kind; slots = length self.now.slots } }
    {
        ScopeNeed {
            kind: self.kind,
            slots: self.slots.len(),
        }
    }

    /// The scope of a script, with its number.
    pub fn script(alloc: Global, number: usize, slots: Slots) -> Result<Level, NoMemory>
        ensures kind { IfOk result (λ level. level.kind ≡ Script) }
        ensures slots { IfOk result (λ level. level.slots ≡ slots) }
        ensures needs { IfOk result (λ level. level.needs.items ≡ record { kind = Script; slots = length slots } ∷ []) }
        ensures scopes { IfOk result (λ level. level.scopes.items ≡ number ∷ []) }
    {
        let mut needs = Vec::new(alloc);
        needs.push(ScopeNeed {
            kind: ScopeKind::Script,
            slots: slots.len(),
        })?;
        let mut scopes = Vec::new(alloc);
        scopes.push(number)?;
        Ok(Level {
            kind: ScopeKind::Script,
            slots,
            needs,
            scopes,
        })
    }

    /// A scope inside this one, with its number.
    pub fn inside(
        &self,
        alloc: Global,
        number: usize,
        kind: ScopeKind,
        slots: Slots,
    ) -> Result<Level, NoMemory>
        ensures kind { IfOk result (λ level. level.kind ≡ kind) }
        ensures slots { IfOk result (λ level. level.slots ≡ slots) }
        ensures needs { IfOk result (λ level. level.needs.items ≡ record { kind = kind; slots = length slots } ∷ self.now.needs.items) }
        ensures scopes { IfOk result (λ level. level.scopes.items ≡ number ∷ self.now.scopes.items) }
    {
        let length = self.scopes.len() + 1;
        let mut needs = Vec::with_capacity(alloc, length)?;
        needs.push(ScopeNeed {
            kind,
            slots: slots.len(),
        })?;
        needs.extend_from_slice(&self.needs)?;
        let mut scopes = Vec::with_capacity(alloc, length)?;
        scopes.push(number)?;
        scopes.extend_from_slice(&self.scopes)?;
        Ok(Level {
            kind,
            slots,
            needs,
            scopes,
        })
    }
}
