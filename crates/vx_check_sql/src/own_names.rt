//! How many underscores keep the names that a statement makes apart from those that it does not.

ghost use Rattle.std.specs.Prelude.{◌≡◌, map, string_bytes, IfOk};
ghost use Rattle.std.specs.List.{flat_map};
ghost use Rattle.vx_plan_nodes.specs.TypedView.{names_in, resolved_of};
ghost use Rattle.vx_check_sql.specs.OwnNames.{is_own_letter, leading, level, names_of, greatest_level, underscores};

use crate::nodes::column_names;
use std::alloc::{AllocError, Global};
use vx_catalog_relations::{Catalog, Relation};
use vx_plan_nodes::{Name, TypedPlan};

fn is_own_letter(byte: u8) -> bool
    ensures { result ≡ is_own_letter byte }
{
    let letter = byte.to_ascii_lowercase();
    letter == b'n' || letter == b'c'
}

// How many underscores these bytes begin with.
fn leading(bytes: &[u8]) -> usize
    ensures { result ≡ leading bytes.now }
{
    for (i, byte) in bytes.iter().enumerate() {
        if *byte != b'_' {
            return i;
        }
    }
    bytes.len()
}

// The level of a name: 0 where it does not begin like one that a statement makes, else 1 and one for each underscore
// behind its first letter.
#[tactic(auto, unfolding(crate::specs::OwnNames::level))]
fn level(name: &[u8]) -> usize
    ensures { result ≡ level name.now }
{
    match name {
        [letter, rest @ ..] if is_own_letter(*letter) => {
            let underscores = leading(rest);
            if underscores < rest.len() && rest[underscores].is_ascii_digit() {
                underscores + 1
            } else {
                0
            }
        }
        _ => 0,
    }
}

// The greatest level of these names.
fn level_of_texts(names: &[String]) -> usize
    ensures { result ≡ greatest_level (map string_bytes names.now) }
{
    let mut greatest = 0;
    for name in names {
        greatest = greatest.max(level(name.as_bytes()));
    }
    greatest
}

// The greatest level of the names of a relation and its columns.
fn level_of_relation(relation: &Relation) -> usize
    ensures { result ≡ greatest_level (names_of relation.now) }
{
    level(relation.name().as_bytes()).max(level_of_texts(relation.names()))
}

// The greatest level of the names of all relations and their columns.
#[tactic(auto, using(std::proofs::lemmas::Grind::common_steps, crate::proofs::OwnFacts::next_relation))]
fn level_of_catalog(catalog: &Catalog) -> usize
    ensures { result ≡ greatest_level (flat_map names_of catalog.now) }
{
    let mut greatest = 0;
    for i in 0..catalog.len() {
        greatest = greatest.max(level_of_relation(catalog.get(i)));
    }
    greatest
}

// The greatest level of the names of an output's columns.
fn level_of_names(alloc: Global, names: &[Name]) -> Result<usize, AllocError>
    ensures { IfOk result (λ n. n ≡ greatest_level names.now) }
{
    let mut greatest = 0;
    for name in names {
        greatest = greatest.max(level(name.to_text(alloc)?.as_bytes()));
    }
    Ok(greatest)
}

/// How many underscores the names that the plan's statement makes have behind their first letter.
#[tactic(auto, unfolding(crate::specs::OwnNames::underscores), using(crate::proofs::OwnFacts::greatest_append))]
pub fn underscores(alloc: Global, plan: &TypedPlan) -> Result<usize, AllocError>
    ensures { IfOk result (λ n. n ≡ underscores (names_in plan.now) (resolved_of plan.now).root) }
{
    let known = level_of_catalog(plan.catalog());
    Ok(known.max(level_of_names(alloc, column_names(plan.root()))?))
}
