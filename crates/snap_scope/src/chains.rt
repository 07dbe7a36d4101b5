//! All scopes of a tree, with their chains.

ghost use Rattle.std.specs.Prelude.{◌≡◌, ◌∷◌, [], ◌++◌, ◌<◌, ◌^◌, length, map, OnOk, IfOk, Ok, Err};
ghost use Rattle.snap_graph.specs.declared.kind.ScopeKind.TheVariants.{Script};
ghost use Rattle.snap_scope.specs.Chains.{chain_in, scope_in};
ghost use Rattle.spec_scopes.specs.Scopes.{need};
ghost use Rattle.spec_scopes.specs.Slots.{place_of};

use crate::level::Level;
use crate::slots::Slots;
use snap_graph::ScopeKind;
use snap_text::NoMemory;
use spec_scopes::{ScopeNeed, SlotPlace};
use std::alloc::Global;
use std::marker::Model;

/// Scopes by number, each with the chain that it begins. They are seen as the lists of both.
#[derive(Drop)]
pub(crate) struct Chains {
    levels: Vec<Level>,
}

impl Model for Chains {
    ghost use Rattle.snap_scope.specs.Chains.{AreLevels, Table, table_of};

    ghost Value = { Table };

    ghost view = { λ chains. table_of chains.levels.items };

    ghost invariant = { λ chains. AreLevels chains.levels.items };
}

impl Chains {
    /// The scope of a script alone.
    pub fn script(alloc: Global, slots: Slots) -> Result<Chains, NoMemory>
        ensures scopes { IfOk result (λ chains. chains.scopes ≡ record { kind = Script; slots = slots } ∷ []) }
        ensures chains { IfOk result (λ chains. chains.chains ≡ (record { kind = Script; slots = slots } ∷ []) ∷ []) }
    {
        let level = Level::script(alloc, 0, slots)?;
        let mut levels = Vec::new(alloc);
        levels.push(level)?;
        Ok(Chains { levels })
    }

    /// Adds a scope inside the chain of a number, and gives its own number.
    pub fn add(
        &mut self,
        alloc: Global,
        outer: usize,
        kind: ScopeKind,
        slots: Slots,
    ) -> Result<usize, NoMemory>
        requires within { outer < length self.old.chains }
        requires few { length (chain_in self.old outer) < 2 ^ 32 }
        ensures number { IfOk result (λ number. number ≡ length self.old.chains) }
        ensures scopes { OnOk result (self.new.scopes ≡ self.old.scopes ++ record { kind = kind; slots = slots } ∷ []) }
        ensures chains { OnOk result (self.new.chains ≡ self.old.chains ++ (record { kind = kind; slots = slots } ∷ chain_in self.old outer) ∷ []) }
    {
        let number = self.levels.len();
        let level = self.levels[outer].inside(alloc, number, kind, slots)?;
        self.levels.push(level)?;
        Ok(number)
    }

    /// What the scopes of a chain need, innermost first.
    pub fn needs(&self, number: usize) -> &[ScopeNeed]
        requires { number < length self.now.chains }
        ensures { result.now ≡ map need (chain_in self.now number) }
    {
        self.levels[number].needs.as_slice()
    }

    /// What a scope needs.
    pub fn need(&self, number: usize) -> ScopeNeed
        requires { number < length self.now.scopes }
        ensures { result ≡ need (scope_in self.now.scopes number) }
    {
        self.levels[number].need()
    }

    /// The place of a name in a chain.
    pub fn place(&self, number: usize, name: &[u8]) -> Option<SlotPlace>
        requires { number < length self.now.chains }
        ensures { result ≡ place_of (chain_in self.now number) name.now }
    {
        for (hops, scope) in self.levels[number].scopes.iter().enumerate() {
            if let Some(place) = self.levels[*scope].slots.find(name) {
                return Some(SlotPlace {
                    hops: hops as u32,
                    slot: place.slot,
                    constant: place.constant,
                });
            }
        }
        None
    }
}
