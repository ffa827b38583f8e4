//! The keys that a node shows by what is known of columns.

ghost use Rattle.std.specs.Prelude.{◌≡◌, ℕ, true, length, map, [], IfOk, OnOk};
ghost use Rattle.std.specs.List.{list_all};
ghost use Rattle.vx_catalog_relations.specs.Relation.{Relation};
ghost use Rattle.vx_catalog_relations.specs.Catalog.{relation_at, all_below};
ghost use Rattle.vx_plan_nodes.specs.Outline.{outline_of, plan_of};
ghost use Rattle.vx_plan_nodes.specs.Outputs.{HasOutputs};
ghost use Rattle.vx_plan_nodes.specs.Typed.{are_columns};
ghost use Rattle.vx_plan_nodes.specs.Types.{width};
ghost use Rattle.vx_plan_facts.specs.KnownView.{IsKnownOf};
ghost use Rattle.vx_check_rules.specs.Behaviour.{keyed_from};
ghost use Rattle.vx_check_rules.specs.Derived.{key_derived_by};
ghost use Rattle.vx_check_rules.specs.KeyedView.{all_keyed_in};
ghost use Rattle.vx_check_rules.specs.KnownNode.{IsKeyOf, StaysKnown};
ghost use Rattle.vx_check_options.specs.FoundKeys.{IsPart};
ghost use Rattle.vx_check_shown.specs.ShownKeys.{IsNeeded, AddsKeys, ShownKeys};

use crate::candidates::key_copies;
use crate::firsts::named;
use crate::projected::key_stand_ins;
use std::alloc::{AllocError, Global};
use vx_catalog_relations::Catalog;
use vx_check_options::{Lists, MAX_KEYS, add_key, without};
use vx_check_rules::{Keyed, is_key_derived, keyed_from};
use vx_plan_facts::KnownColumns;
use vx_plan_nodes::TypedNode;

// The columns of a key that are needed: a last one that is not is left out first.
fn needed(
    alloc: Global,
    keyed: &[Option<Keyed<'_>>],
    node: &TypedNode,
    known: &mut KnownColumns<'_>,
    key: &[usize],
) -> Result<Vec<usize>, AllocError>
    requires { (catalog : ℕ → Relation) × IsKeyOf catalog known.old (plan_of node.now) key.now }
    ensures part { (catalog : ℕ → Relation) → IsKeyOf catalog known.old (plan_of node.now) key.now
        → IfOk result (λ v. IsPart (key_derived_by catalog (plan_of node.now) (all_keyed_in keyed.now)) key.now v.items) }
    ensures kept { StaysKnown known.old known.new (plan_of node.now) }
{
    let mut part = Vec::from_slice(alloc, key)?;
    for i in 0..key.len() {
        let others = without(alloc, part.as_slice(), key[key.len() - 1 - i])?;
        if is_key_derived(keyed, node, known, others.as_slice()) {
            part = others;
        }
    }
    Ok(part)
}

// The same by the first of equal columns.
fn needed_firsts(
    alloc: Global,
    keyed: &[Option<Keyed<'_>>],
    node: &TypedNode,
    known: &mut KnownColumns<'_>,
    key: &[usize],
) -> Result<Vec<usize>, AllocError>
    requires { (catalog : ℕ → Relation) × IsKeyOf catalog known.old (plan_of node.now) key.now }
    ensures needed { (catalog : ℕ → Relation) → IsKeyOf catalog known.old (plan_of node.now) key.now
        → IfOk result (λ v. IsNeeded catalog (plan_of node.now) (all_keyed_in keyed.now) key.now v.items) }
    ensures kept { StaysKnown known.old known.new (plan_of node.now) }
{
    let firsts = named(alloc, node, known, key)?;
    needed(alloc, keyed, node, known, firsts.as_slice())
}

// Adds of each of the keys that follows the columns that are needed, until 16 are found.
fn add_keys(
    alloc: Global,
    found: &mut Lists,
    keyed: &[Option<Keyed<'_>>],
    node: &TypedNode,
    known: &mut KnownColumns<'_>,
    keys: &[Vec<usize>],
) -> Result<(), AllocError>
    requires { (catalog : ℕ → Relation) × IsKnownOf catalog known.old (plan_of node.now) × (list_all (all_below (width catalog (plan_of node.now))) (map (λ k. k.items) keys.now) ≡ true) }
    ensures added { (catalog : ℕ → Relation) → IsKnownOf catalog known.old (plan_of node.now) → list_all (all_below (width catalog (plan_of node.now))) (map (λ k. k.items) keys.now) ≡ true
        → OnOk result (AddsKeys catalog (plan_of node.now) (all_keyed_in keyed.now) (map (λ k. k.items) keys.now) (map (λ k. k.items) found.old.items) (map (λ k. k.items) found.new.items)) }
    ensures kept { StaysKnown known.old known.new (plan_of node.now) }
{
    for key in keys {
        if found.len() >= MAX_KEYS {
            return Ok(());
        }
        if is_key_derived(keyed, node, known, key.as_slice()) {
            add_key(
                found,
                needed_firsts(alloc, keyed, node, known, key.as_slice())?,
            )?;
        }
    }
    Ok(())
}

/// The keys that a node shows by what is known of columns, where its inputs have these keys, 16 at most: of each claimed key
/// that follows the columns that are needed, and then others; of equal columns the first.
pub fn shown_keys(
    alloc: Global,
    catalog: &Catalog,
    node: &TypedNode,
    known: &mut KnownColumns<'_>,
    claimed: &[Vec<usize>],
    lefts: &[Vec<usize>],
    rights: &[Vec<usize>],
) -> Result<Lists, AllocError>
    requires known { IsKnownOf (relation_at catalog.now) known.old (plan_of node.now) }
    requires outputs { HasOutputs (relation_at catalog.now) (outline_of node.now) }
    requires claimed { list_all (are_columns (width (relation_at catalog.now) (plan_of node.now))) (map (λ k. k.items) claimed.now) ≡ true }
    ensures found { IfOk result (λ v. ShownKeys (relation_at catalog.now) (plan_of node.now)
        (keyed_from (relation_at catalog.now) (plan_of node.now) (map (λ k. k.items) lefts.now) (map (λ k. k.items) rights.now)) (map (λ k. k.items) claimed.now) (map (λ k. k.items) v.items)) }
    ensures kept { StaysKnown known.old known.new (plan_of node.now) }
{
    let keyed = keyed_from(catalog, node, lefts, rights);
    let mut found = Vec::new(alloc);
    add_keys(alloc, &mut found, &keyed, node, known, claimed)?;
    let copies = key_copies(alloc, &keyed, known.facts_of(node).width())?;
    add_keys(alloc, &mut found, &keyed, node, known, copies.as_slice())?;
    let stand_ins = key_stand_ins(alloc, node, known, lefts)?;
    add_keys(alloc, &mut found, &keyed, node, known, stand_ins.as_slice())?;
    Ok(found)
}
