//! Claims over the columns of an output.

ghost use Rattle.std.specs.Prelude.{◌≡◌, [], ◌∷◌, IfOk};
ghost use Rattle.std.specs.Arc.{arc_value};
ghost use Rattle.vx_plan_json.specs.Fault.{Gives};
ghost use Rattle.vx_plan_json.specs.Document.{part_form, claim_form};
ghost use Rattle.vx_plan_nodes.specs.Outline.{part_of, claim_of, columns_of, top_of};
ghost use Rattle.vx_plan.specs.Lookup.{test_distinct};
ghost use Rattle.vx_plan.specs.Resolve.{find_part, part_names, part_fits, claim_columns, test_claim, find_claim, with_claim};
ghost use Rattle.vx_plan.specs.Named.{names_of};

use crate::fits::route_fits;
use crate::lookup::{
    Declared, find_column, find_columns, find_keys, find_order, find_range, test_distinct,
    test_distinct_keys, test_distinct_order, test_match,
};
use std::alloc::{AllocError, Global};
use std::sync::Arc;
use vx_plan_json::{NamedClaim, NamedPart, PlanFault};
use vx_plan_nodes::{Claim, Columns, Head, Name, Part, Route};
use vx_rows_values::ColType;

/// A list of one column.
pub fn single(alloc: Global, column: usize) -> Result<Vec<usize>, AllocError>
    ensures { IfOk result (λ v. v.items ≡ column ∷ []) }
{
    let mut columns = Vec::new(alloc);
    columns.push(column)?;
    Ok(columns)
}

// A part by positions: a range comes before its column.
#[tactic(auto, unfolding(crate::specs::Resolve::find_part))]
fn find_part(
    alloc: Global,
    declared: &Declared<'_>,
    node: u32,
    names: &[Name],
    part: &NamedPart,
) -> Result<Part, PlanFault>
    ensures { Gives part_of result (find_part (names_of declared.now) node names.now (part_form part.now)) }
{
    match part {
        NamedPart::One => Ok(Part::One),
        NamedPart::Any => Ok(Part::Any),
        NamedPart::All => Ok(Part::All),
        NamedPart::Hash { route, columns } => {
            let positions = find_columns(alloc, node, names, columns.as_slice())?;
            let name = String::from_str(alloc, route.as_str())?;
            Ok(Part::Routed(Route::Hash(name), positions))
        }
        NamedPart::Range { range, column } => {
            let number = find_range(alloc, declared, node, range.as_str())?;
            let position = find_column(alloc, node, names, column.as_str())?;
            let positions = single(alloc, position)?;
            Ok(Part::Routed(Route::Range(number), positions))
        }
    }
}

fn part_fits(declared: &Declared<'_>, types: &[ColType], part: &Part) -> bool
    ensures { result ≡ part_fits (names_of declared.now) types.now (part_of part.now) }
{
    match part {
        Part::One | Part::Any | Part::All => true,
        Part::Routed(route, columns) => route_fits(declared, types, route, columns.as_slice()),
    }
}

// The columns of a claim: of its part, its order, its keys.
#[tactic(auto, unfolding(crate::specs::Resolve::claim_columns))]
fn claim_columns(
    alloc: Global,
    declared: &Declared<'_>,
    node: u32,
    names: &[Name],
    claim: &NamedClaim,
) -> Result<Claim, PlanFault>
    ensures { Gives claim_of result (claim_columns (names_of declared.now) node names.now (claim_form claim.now)) }
{
    let part = find_part(alloc, declared, node, names, &claim.part)?;
    let order = find_order(alloc, node, names, claim.order.as_slice())?;
    let keys = find_keys(alloc, node, names, claim.keys.as_slice())?;
    Ok(Claim { part, order, keys })
}

// The hashed columns of a part stand once.
#[tactic(auto, unfolding(crate::specs::Lookup::test_distinct, crate::specs::Lookup::tested_onto))]
fn test_part(alloc: Global, node: u32, part: &NamedPart) -> Result<(), PlanFault>
    ensures { Gives (λ _. tt) result (test_distinct node (part_names (part_form part.now))) }
{
    match part {
        NamedPart::Hash { columns, .. } => test_distinct(alloc, node, columns.as_slice()),
        NamedPart::One | NamedPart::Any | NamedPart::All | NamedPart::Range { .. } => Ok(()),
    }
}

// No column stands twice in one list of a claim.
#[tactic(auto, unfolding(crate::specs::Resolve::test_claim))]
fn test_claim(alloc: Global, node: u32, claim: &NamedClaim) -> Result<(), PlanFault>
    ensures { Gives (λ _. tt) result (test_claim node (claim_form claim.now)) }
{
    test_part(alloc, node, &claim.part)?;
    test_distinct_order(alloc, node, claim.order.as_slice())?;
    test_distinct_keys(alloc, node, claim.keys.as_slice())
}

// A claim by positions, over the columns of its node's output.
#[tactic(auto, unfolding(crate::specs::Resolve::find_claim))]
fn find_claim(
    alloc: Global,
    declared: &Declared<'_>,
    node: u32,
    columns: &Columns,
    claim: &NamedClaim,
) -> Result<Claim, PlanFault>
    ensures { Gives claim_of result (find_claim (names_of declared.now) node (columns_of columns.now) (claim_form claim.now)) }
{
    let found = claim_columns(alloc, declared, node, columns.names.as_slice(), claim)?;
    test_claim(alloc, node, claim)?;
    test_match(
        node,
        part_fits(declared, columns.types.as_slice(), &found.part),
    )?;
    Ok(found)
}

/// What every node has. The tests of its operator come before those of its claim.
#[tactic(auto, unfolding(crate::specs::Resolve::with_claim))]
pub fn with_claim(
    alloc: Global,
    declared: &Declared<'_>,
    node: u32,
    columns: Arc<Columns>,
    claim: &NamedClaim,
) -> Result<Head, PlanFault>
    ensures { Gives top_of result (with_claim (names_of declared.now) node (columns_of (arc_value columns)) (claim_form claim.now)) }
{
    let found = find_claim(alloc, declared, node, &columns, claim)?;
    Ok(Head {
        number: node,
        claim: found,
        columns,
    })
}
