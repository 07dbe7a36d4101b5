//! The scopes of a tree.

ghost use Rattle.std.specs.Prelude.{◌≡◌, ◌<◌, length, map, slice_get, Some};
ghost use Rattle.std.specs.Option.{option_map};
ghost use Rattle.snap_ast.specs.Words.{Each};
ghost use Rattle.snap_scope.specs.Chains.{scope_in};
ghost use Rattle.snap_scope.specs.Visit.{IsEntry, scopes_at};
ghost use Rattle.spec_scopes.specs.Resolution.{node_scopes};
ghost use Rattle.spec_scopes.specs.Scopes.{need};
ghost use Rattle.spec_scopes.specs.Slots.{place_of};

use crate::chains::Chains;
use crate::context::NodeEntry;
use spec_scopes::{ScopeNeed, SlotPlace};
use std::marker::Model;

/// The scopes of a tree: the chain round each node, the scope that a node makes, and the places of the names that it
/// mentions. Chains that nodes share are kept once. They are seen as the scope of the script and, for each node by its
/// number, all three.
#[derive(Drop)]
pub struct Scopes {
    chains: Chains,
    nodes: Vec<NodeEntry>,
    places: Vec<Option<SlotPlace>>,
}

impl Model for Scopes {
    ghost use Rattle.std.specs.Prelude.{◌<◌, length, map};
    ghost use Rattle.snap_ast.specs.Words.{Each};
    ghost use Rattle.snap_scope.specs.Chains.{scope_in};
    ghost use Rattle.snap_scope.specs.Visit.{IsEntry, scopes_at};
    ghost use Rattle.spec_scopes.specs.Resolution.{Resolution};

    ghost Value = { Resolution };

    ghost view = { λ scopes. record { script = scope_in scopes.chains.scopes 0; nodes = map (scopes_at scopes.chains scopes.places.items) scopes.nodes.items } };

    ghost invariant = { λ scopes. (0 < length scopes.chains.scopes) × Each (IsEntry scopes.chains (length scopes.places.items)) scopes.nodes.items };
}

impl Scopes {
    /// The scopes of visited nodes.
    pub(crate) fn of(
        chains: Chains,
        nodes: Vec<NodeEntry>,
        places: Vec<Option<SlotPlace>>,
    ) -> Scopes
        requires some { 0 < length chains.scopes }
        requires entries { Each (IsEntry chains (length places.items)) nodes.items }
        ensures { result ≡ record { script = scope_in chains.scopes 0; nodes = map (scopes_at chains places.items) nodes.items } }
    {
        Scopes {
            chains,
            nodes,
            places,
        }
    }

    /// The scopes round a node, innermost first, without the one that it makes itself: ECMA-262, Environment
    /// Records. A function that is made at the node closes over this chain.
    pub fn chain_of(&self, node: u32) -> &[ScopeNeed]
        requires { node < length self.now.nodes }
        ensures { result.now ≡ map need (node_scopes self.now node).round }
    {
        let entry = self.nodes[node as usize];
        self.chains.needs(entry.chain as usize)
    }

    /// The slot of a name in the innermost scope round a node that holds it, or nothing where none does.
    pub fn slot_of(&self, node: u32, name: &[u8]) -> Option<SlotPlace>
        requires { node < length self.now.nodes }
        ensures { result ≡ place_of (node_scopes self.now node).round name.now }
    {
        let entry = self.nodes[node as usize];
        self.chains.place(entry.chain as usize, name)
    }

    /// The places of the names that a node reads, writes or declares in the scopes round it, in order of the source,
    /// which were found when the tree was resolved; nothing for a name that no scope holds.
    pub fn places_of(&self, node: u32) -> &[Option<SlotPlace>]
        requires { node < length self.now.nodes }
        ensures { result.now ≡ (node_scopes self.now node).names }
    {
        let entry = self.nodes[node as usize];
        let first = entry.first as usize;
        &self.places[first..first + entry.count as usize]
    }

    /// One of these places, by its index.
    pub fn place_of_name(&self, node: u32, index: u32) -> Option<SlotPlace>
        requires node { node < length self.now.nodes }
        requires name { index < length (node_scopes self.now node).names }
        ensures { slice_get (node_scopes self.now node).names index ≡ Some result }
    {
        let entry = self.nodes[node as usize];
        self.places[entry.first as usize + index as usize]
    }

    /// The scope that a node makes itself, or nothing where it makes none.
    pub fn made_by(&self, node: u32) -> Option<ScopeNeed>
        requires { node < length self.now.nodes }
        ensures { result ≡ option_map need (node_scopes self.now node).own }
    {
        match self.nodes[node as usize].own {
            Some(own) => Some(self.chains.need(own as usize)),
            None => None,
        }
    }

    /// The scope of the script.
    pub fn top(&self) -> ScopeNeed
        ensures { result ≡ need self.now.script }
    {
        self.chains.need(0)
    }
}
