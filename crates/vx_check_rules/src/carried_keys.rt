//! The keys that the claims of a node's inputs carry up to the node.

ghost use Rattle.std.specs.Prelude.{◌≡◌, ◌++◌, map, flat_map, option_map, slice_get, IfOk, OnOk};
ghost use Rattle.vx_catalog_relations.specs.Catalog.{relation_at};
ghost use Rattle.vx_plan_nodes.specs.Outline.{outline_of, plan_of};
ghost use Rattle.vx_plan_nodes.specs.Outputs.{HasOutputs};
ghost use Rattle.vx_check_rules.specs.Behaviour.{front_places, kept_keys, first_pair, keys_up, node_keys};
ghost use Rattle.vx_check_rules.specs.KeyedView.{copied_keys, keyed_in};
ghost use Rattle.vx_check_rules.specs.Seen.{columns_seen};

use crate::columns::ColumnsSeen;
use crate::keyed::{CopiedKeys, Keyed, node_keyed};
use crate::places::{have_places, put_places};
use std::alloc::{AllocError, Global};
use vx_catalog_relations::Catalog;
use vx_plan_nodes::TypedNode;

type Keys = Vec<Vec<usize>>;

// Puts those keys of one input of which each column has a place behind the others.
fn put_kept(alloc: Global, keys: &mut Keys, from: CopiedKeys<'_>) -> Result<(), AllocError>
    ensures { OnOk result (map (λ k. k.items) keys.new.items ≡ map (λ k. k.items) keys.old.items ++ kept_keys (copied_keys from.entry).0 (copied_keys from.entry).1) }
{
    for place in 0..from.keys.count() {
        let columns = from.keys.at(place);
        if have_places(from.copying, columns) {
            let mut key = Vec::new(alloc);
            put_places(&mut key, from.copying, columns)?;
            keys.push(key)?;
        }
    }
    Ok(())
}

// The first of them.
fn first_kept<'p>(from: CopiedKeys<'p>) -> Option<ColumnsSeen<'p>>
    ensures { option_map (λ cols. front_places (copied_keys from.entry).0 (columns_seen cols)) result ≡ slice_get (kept_keys (copied_keys from.entry).0 (copied_keys from.entry).1) 0 }
{
    for place in 0..from.keys.count() {
        let columns = from.keys.at(place);
        if have_places(from.copying, columns) {
            return Some(columns);
        }
    }
    None
}

// Puts the first such key of each input together, if both have one, behind the others.
fn put_pair(
    alloc: Global,
    keys: &mut Keys,
    first: CopiedKeys<'_>,
    second: CopiedKeys<'_>,
) -> Result<(), AllocError>
    ensures { OnOk result (map (λ k. k.items) keys.new.items ≡ map (λ k. k.items) keys.old.items
        ++ first_pair (kept_keys (copied_keys first.entry).0 (copied_keys first.entry).1) (kept_keys (copied_keys second.entry).0 (copied_keys second.entry).1)) }
{
    let Some(columns) = first_kept(first) else {
        return Ok(());
    };
    let Some(others) = first_kept(second) else {
        return Ok(());
    };
    let mut key = Vec::new(alloc);
    put_places(&mut key, first.copying, columns)?;
    put_places(&mut key, second.copying, others)?;
    keys.push(key)?;
    Ok(())
}

// Puts what an output has of these keys, if they are there, behind the others: of one input all, of two the first of each,
// together.
fn put_up(alloc: Global, keys: &mut Keys, keyed: Option<Keyed<'_>>) -> Result<(), AllocError>
    ensures { OnOk result (map (λ k. k.items) keys.new.items ≡ map (λ k. k.items) keys.old.items ++ flat_map keys_up (keyed_in keyed.entry)) }
{
    let Some(keyed) = keyed else {
        return Ok(());
    };
    match keyed.second {
        Some(second) => put_pair(alloc, keys, keyed.first, second),
        None => put_kept(alloc, keys, keyed.first),
    }
}

/// The keys that are carried up to a node.
pub fn node_keys(alloc: Global, catalog: &Catalog, node: &TypedNode) -> Result<Keys, AllocError>
    requires { HasOutputs (relation_at catalog.now) (outline_of node.now) }
    ensures { IfOk result (λ v. map (λ k. k.items) v.items ≡ node_keys (relation_at catalog.now) (plan_of node.now)) }
{
    let keyed = node_keyed(catalog, node);
    let mut keys = Vec::new(alloc);
    for each in &keyed {
        put_up(alloc, &mut keys, *each)?;
    }
    Ok(keys)
}
