//! The keys that a node can claim, by any keys of its inputs.

ghost use Rattle.std.specs.Prelude.{◌≡◌, ℕ, ◌==◌, List, ◌∷◌, [], true, not, map, length, option_map, option_to_list, IfOk, OnOk};
ghost use Rattle.std.specs.List.{list_all, filter};
ghost use Rattle.vx_catalog_relations.specs.Catalog.{relation_at};
ghost use Rattle.vx_plan_nodes.specs.Phases.{first_columns};
ghost use Rattle.vx_plan_nodes.specs.Outline.{outline_of, plan_of};
ghost use Rattle.vx_plan_nodes.specs.Outputs.{HasOutputs};
ghost use Rattle.vx_plan_nodes.specs.Types.{types_of};
ghost use Rattle.vx_plan_nodes.specs.Typed.{are_columns};
ghost use Rattle.vx_plan_nodes.specs.DescribeView.{copying_of};
ghost use Rattle.vx_check_rules.specs.Behaviour.{has_key, keys_give, keyed_from};
ghost use Rattle.vx_check_rules.specs.KeyedView.{keys_seen, copied_keys, keyed_of, all_keyed_in};
ghost use Rattle.vx_check_rules.specs.Seen.{columns_seen};
ghost use Rattle.vx_check_options.specs.FoundKeys.{show, both_give, IsPart, IsKey, IsShown, Finds, KeptKeys, FoundKeys};

use crate::choices::{add_choices, add_key, put_choices};
use crate::copies::Lists;
use std::alloc::{AllocError, Global};
use vx_catalog_relations::Catalog;
use vx_check_rules::{ColumnsSeen, CopiedKeys, Keyed, KeysSeen, are_covered, keyed_from, show_key};
use vx_plan_nodes::{Copying, TypedNode, output_types};

// The keys of both inputs, and how many columns an output has.
#[derive(Clone, Copy)]
struct Search<'p> {
    first: CopiedKeys<'p>,
    second: CopiedKeys<'p>,
    width: usize,
}

impl Search<'_> {
    // Adds the keys of copies of all columns of both keys.
    fn add_both(
        &self,
        alloc: Global,
        found: &mut Lists,
        key: ColumnsSeen<'_>,
        other: ColumnsSeen<'_>,
    ) -> Result<(), AllocError>
        ensures { OnOk result (Finds (IsKey (both_give (copying_of self.now.first.copying) (copying_of self.now.second.copying) (columns_seen key.entry ∷ []) (columns_seen other.entry ∷ [])) (first_columns self.now.width))
            (IsShown (both_give (copying_of self.now.first.copying) (copying_of self.now.second.copying) (columns_seen key.entry ∷ []) (columns_seen other.entry ∷ [])) (first_columns self.now.width))
            (map (λ k. k.items) found.old.items) (map (λ k. k.items) found.new.items)) }
    {
        let mut choices = Vec::new(alloc);
        put_choices(alloc, &mut choices, self.first.copying, self.width, key)?;
        put_choices(alloc, &mut choices, self.second.copying, self.width, other)?;
        // A choice without columns is within no columns.
        if are_covered(KeysSeen::Listed(choices.as_slice()), ColumnsSeen::First(0)) {
            return Ok(());
        }
        add_choices(alloc, found, &[], choices.as_slice())
    }

    // The same for the key and each of the second input's.
    fn add_beside(
        &self,
        alloc: Global,
        found: &mut Lists,
        key: ColumnsSeen<'_>,
    ) -> Result<(), AllocError>
        ensures { OnOk result (Finds (IsKey (both_give (copying_of self.now.first.copying) (copying_of self.now.second.copying) (columns_seen key.entry ∷ []) (keys_seen self.now.second.keys)) (first_columns self.now.width))
            (IsShown (both_give (copying_of self.now.first.copying) (copying_of self.now.second.copying) (columns_seen key.entry ∷ []) (keys_seen self.now.second.keys)) (first_columns self.now.width))
            (map (λ k. k.items) found.old.items) (map (λ k. k.items) found.new.items)) }
    {
        for other in 0..self.second.keys.count() {
            self.add_both(alloc, found, key, self.second.keys.at(other))?;
        }
        Ok(())
    }
}

// The keys of the second input. Of one input's keys alone it is the key of no columns, which any columns contain.
fn other_keys<'p>(keyed: Keyed<'p>) -> CopiedKeys<'p>
    ensures { (x : List ℕ) → has_key (copied_keys result).0 (copied_keys result).1 x ≡ list_all (λ f. has_key f.0 f.1 x) (option_to_list (option_map copied_keys keyed.entry.second)) }
{
    match keyed.second {
        Some(keys) => keys,
        None => CopiedKeys {
            copying: Copying::WholeRows,
            keys: KeysSeen::First(0),
        },
    }
}

// Adds the keys that `keyed` gives among the first `width` columns.
fn add_keyed(
    alloc: Global,
    found: &mut Lists,
    keyed: Keyed<'_>,
    width: usize,
) -> Result<(), AllocError>
    ensures { OnOk result (Finds (IsKey (keys_give (keyed_of keyed.entry)) (first_columns width)) (IsShown (keys_give (keyed_of keyed.entry)) (first_columns width)) (map (λ k. k.items) found.old.items) (map (λ k. k.items) found.new.items)) }
{
    let search = Search {
        first: keyed.first,
        second: other_keys(keyed),
        width,
    };
    for key in 0..keyed.first.keys.count() {
        search.add_beside(alloc, found, keyed.first.keys.at(key))?;
    }
    Ok(())
}

// Adds the keys of all that are there.
fn add_all(
    alloc: Global,
    found: &mut Lists,
    keyed: &[Option<Keyed<'_>>],
    width: usize,
) -> Result<(), AllocError>
    ensures { OnOk result (Finds (IsKey (show (all_keyed_in keyed.now)) (first_columns width)) (IsShown (show (all_keyed_in keyed.now)) (first_columns width)) (map (λ k. k.items) found.old.items) (map (λ k. k.items) found.new.items)) }
{
    for each in keyed {
        match each {
            Some(keyed) => add_keyed(alloc, found, *keyed, width)?,
            None => {}
        }
    }
    Ok(())
}

/// The other columns.
pub fn without(alloc: Global, columns: &[usize], column: usize) -> Result<Vec<usize>, AllocError>
    ensures { IfOk result (λ v. v.items ≡ filter (λ c. not (c == column)) columns.now) }
{
    let mut others = Vec::new(alloc);
    for other in columns {
        if *other != column {
            others.push(*other)?;
        }
    }
    Ok(others)
}

// The columns of a key that are needed: a last one that is not is left out first.
fn needed(
    alloc: Global,
    keyed: &[Option<Keyed<'_>>],
    key: &[usize],
) -> Result<Vec<usize>, AllocError>
    ensures { IfOk result (λ v. IsPart (show (all_keyed_in keyed.now)) key.now v.items) }
{
    let mut part = Vec::from_slice(alloc, key)?;
    for i in 0..key.len() {
        let others = without(alloc, part.as_slice(), key[key.len() - 1 - i])?;
        if show_key(keyed, others.as_slice()) {
            part = others;
        }
    }
    Ok(part)
}

// Of each claimed key that is shown the columns that are needed.
fn kept_keys(
    alloc: Global,
    keyed: &[Option<Keyed<'_>>],
    claimed: &[Vec<usize>],
) -> Result<Lists, AllocError>
    ensures { IfOk result (λ v. KeptKeys (show (all_keyed_in keyed.now)) (map (λ k. k.items) claimed.now) (map (λ k. k.items) v.items)) }
{
    let mut kept = Vec::new(alloc);
    for key in claimed {
        if show_key(keyed, key.as_slice()) {
            add_key(&mut kept, needed(alloc, keyed, key.as_slice())?)?;
        }
    }
    Ok(kept)
}

/// The keys that a node can claim, where its inputs have these keys: of each key that it claims already the part that is
/// needed, and then the first others, in the order of the inputs' keys, until there are 16.
pub fn found_keys(
    alloc: Global,
    catalog: &Catalog,
    node: &TypedNode,
    claimed: &[Vec<usize>],
    lefts: &[Vec<usize>],
    rights: &[Vec<usize>],
) -> Result<Lists, AllocError>
    requires outputs { HasOutputs (relation_at catalog.now) (outline_of node.now) }
    requires claimed { list_all (are_columns (length (types_of (relation_at catalog.now) (plan_of node.now)))) (map (λ k. k.items) claimed.now) ≡ true }
    ensures { IfOk result (λ v. FoundKeys (show (keyed_from (relation_at catalog.now) (plan_of node.now) (map (λ k. k.items) lefts.now) (map (λ k. k.items) rights.now)))
        (length (types_of (relation_at catalog.now) (plan_of node.now))) (map (λ k. k.items) claimed.now) (map (λ k. k.items) v.items)) }
{
    let keyed = keyed_from(catalog, node, lefts, rights);
    let mut found = kept_keys(alloc, &keyed, claimed)?;
    add_all(alloc, &mut found, &keyed, output_types(node).len())?;
    Ok(found)
}
