//! The order of own keys.

ghost use Rattle.std.specs.Prelude.{◌≡◌, ℕ, List, IfOk, ◌==◌, filter, map};
ghost use Rattle.std.specs.List.Sorted.{IsNonDecreasingBy};
ghost use Rattle.snap_graph.specs.OwnKeys.{key_rank, own_order};
ghost use Rattle.snap_store.specs.Plain.{property_in};
ghost use Rattle.snap_store.specs.Ranked.{ranked_key};

use crate::indices::{INDEX_END, array_index};
use crate::plain_node::PlainProperty;
use snap_graph::own_keys_are_in_order;
use snap_text::{NoMemory, Units};
use std::alloc::Global;

// A key, and where it stands among own keys.
#[derive(Drop)]
struct RankedKey {
    rank: u32,
    key: Units,
}

// Where a key stands among own keys: an array index at its number, and any other key behind all indices.
fn rank_of(key: &[u16]) -> u32
    ensures { result ≡ key_rank key.now }
{
    array_index(key).unwrap_or(INDEX_END)
}

fn ranked_keys(alloc: Global, properties: &[PlainProperty]) -> Result<Vec<RankedKey>, NoMemory>
    ensures { IfOk result (λ ranked. ranked.items ≡ map ranked_key properties.now) }
{
    let mut ranked = Vec::new(alloc);
    for property in properties {
        let units = property.key.units();
        let rank = rank_of(units);
        let key = Units::of(alloc, units)?;
        ranked.push(RankedKey { rank, key })?;
    }
    Ok(ranked)
}

// Ranked keys by their ranks; those of one rank stay in their order.
fn sorted_keys(mut ranked: Vec<RankedKey>) -> Result<Vec<RankedKey>, NoMemory>
    ensures rises { IfOk result (λ sorted. IsNonDecreasingBy (λ one. one.rank) sorted.items) }
    ensures stays { IfOk result (λ sorted. (rank : ℕ)
        → filter (λ one. one.rank == rank) sorted.items ≡ filter (λ one. one.rank == rank) ranked.items) }
{
    ranked.sort_by_key(|one: &RankedKey| one.rank)?;
    Ok(ranked)
}

fn bare_keys(alloc: Global, ranked: Vec<RankedKey>) -> Result<Vec<Units>, NoMemory>
    ensures { IfOk result (λ keys. keys.items ≡ map (λ one. one.key) ranked.items) }
{
    let mut keys = Vec::new(alloc);
    for one in ranked {
        let RankedKey { rank: _, key } = one;
        keys.push(key)?;
    }
    Ok(keys)
}

// The keys of properties, in the order of own keys. That this order is the one by rank is a law.
pub(crate) fn keys_in_order(
    alloc: Global,
    properties: &[PlainProperty],
) -> Result<Vec<Units>, NoMemory>
    ensures { IfOk result (λ keys. (texts : List (List ℕ))
        → keys.items ≡ map (λ property. property.key) (own_order (map (property_in texts) properties.now))) }
{
    own_keys_are_in_order();
    let ranked = ranked_keys(alloc, properties)?;
    let sorted = sorted_keys(ranked)?;
    bare_keys(alloc, sorted)
}
