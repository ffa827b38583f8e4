//! Operators over two inputs, by the columns of those inputs.

ghost use Rattle.std.specs.Prelude.{◌≡◌, map, false, IfOk};
ghost use Rattle.std.specs.Arc.{arc_value};
ghost use Rattle.vx_plan_json.specs.Fault.{Gives};
ghost use Rattle.vx_plan_json.specs.Document.{condition_form, pair_form, binary_form};
ghost use Rattle.vx_plan_nodes.specs.Outline.{columns_of, condition_of};
ghost use Rattle.vx_plan.specs.Resolve.{find_pair, find_pairs, both_columns, test_join, join_pairs, find_matches, join_matches, binary_shape};
ghost use Rattle.vx_plan.specs.Shaped.{joint_of};

use crate::columns::side_by_side;
use crate::conditions::find_conditions;
use crate::fits::{are_conditions, are_pairs, are_same_types};
use crate::lookup::{
    find_column, test_distinct_names, test_distinct_pairs, test_match, test_width,
};
use std::alloc::{AllocError, Global};
use std::sync::Arc;
use vx_plan_json::{NamedBinary, NamedCondition, PlanFault};
use vx_plan_nodes::{Binary, Columns, Condition, Name};

/// An operator over two inputs, and its output.
#[derive(Drop)]
pub struct Joint {
    pub binary: Binary,
    pub columns: Arc<Columns>,
}

#[tactic(auto, unfolding(crate::specs::Resolve::find_pair))]
fn find_pair(
    alloc: Global,
    node: u32,
    left: &[Name],
    right: &[Name],
    pair: &(String, String),
) -> Result<(usize, usize), PlanFault>
    ensures { Gives (λ p. p) result (find_pair node left.now right.now (pair_form pair.now)) }
{
    let first = find_column(alloc, node, left, pair.0.as_str())?;
    let second = find_column(alloc, node, right, pair.1.as_str())?;
    Ok((first, second))
}

#[tactic(auto, unfolding(crate::specs::Resolve::find_pairs), using(crate::proofs::WalkFacts::walk_steps))]
fn find_pairs(
    alloc: Global,
    node: u32,
    left: &[Name],
    right: &[Name],
    on: &[(String, String)],
) -> Result<Vec<(usize, usize)>, PlanFault>
    ensures { Gives (λ v. v.items) result (find_pairs node left.now right.now (map pair_form on.now)) }
{
    let mut found = Vec::new(alloc);
    for pair in on {
        let one = find_pair(alloc, node, left, right, pair)?;
        found.push(one)?;
    }
    Ok(found)
}

// No output name and no pair stands twice, and the output is not too wide.
#[tactic(auto, unfolding(crate::specs::Resolve::test_join))]
fn test_join(
    alloc: Global,
    node: u32,
    names: &[Name],
    on: &[(String, String)],
) -> Result<(), PlanFault>
    ensures { Gives (λ _. tt) result (test_join node names.now (map pair_form on.now)) }
{
    test_distinct_names(alloc, node, names)?;
    test_distinct_pairs(alloc, node, on)?;
    test_width(node, names.len())
}

#[tactic(auto, unfolding(crate::specs::Resolve::join_pairs))]
fn join_pairs(
    alloc: Global,
    node: u32,
    left: &Columns,
    right: &Columns,
    output: &Columns,
    on: &[(String, String)],
) -> Result<Vec<(usize, usize)>, PlanFault>
    requires { columns_of output.now ≡ both_columns (columns_of left.now) (columns_of right.now) }
    ensures { Gives (λ v. v.items) result (join_pairs node (columns_of left.now) (columns_of right.now) (map pair_form on.now)) }
{
    let found = find_pairs(
        alloc,
        node,
        left.names.as_slice(),
        right.names.as_slice(),
        on,
    )?;
    test_join(alloc, node, output.names.as_slice(), on)?;
    test_match(
        node,
        are_pairs(
            left.types.as_slice(),
            right.types.as_slice(),
            found.as_slice(),
        ),
    )?;
    Ok(found)
}

// A join's pairs, and its output.
fn joined(
    alloc: Global,
    node: u32,
    left: &Columns,
    right: &Columns,
    on: &[(String, String)],
) -> Result<(Vec<(usize, usize)>, Arc<Columns>), PlanFault>
    ensures pairs { Gives (λ r. r.0.items) result (join_pairs node (columns_of left.now) (columns_of right.now) (map pair_form on.now)) }
    ensures columns { IfOk result (λ r. columns_of (arc_value r.1) ≡ both_columns (columns_of left.now) (columns_of right.now)) }
{
    let columns = side_by_side(alloc, left, right)?;
    let pairs = join_pairs(alloc, node, left, right, &columns, on)?;
    Ok((pairs, columns))
}

// The pairs and the conditions of a semi or an anti join. The conditions are on the columns of both inputs.
#[tactic(auto, unfolding(crate::specs::Resolve::find_matches))]
fn find_matches(
    alloc: Global,
    node: u32,
    left: &Columns,
    right: &Columns,
    both: &Columns,
    on: &[(String, String)],
    conditions: &[NamedCondition],
) -> Result<(Vec<(usize, usize)>, Vec<Condition>), PlanFault>
    requires { columns_of both.now ≡ both_columns (columns_of left.now) (columns_of right.now) }
    ensures { Gives (λ g. (g.0.items, map condition_of g.1.items)) result (find_matches node (columns_of left.now) (columns_of right.now) (map pair_form on.now) (map condition_form conditions.now)) }
{
    let pairs = find_pairs(
        alloc,
        node,
        left.names.as_slice(),
        right.names.as_slice(),
        on,
    )?;
    let found = find_conditions(alloc, node, both.names.as_slice(), conditions)?;
    Ok((pairs, found))
}

#[tactic(auto, unfolding(crate::specs::Resolve::join_matches))]
fn join_matches(
    alloc: Global,
    node: u32,
    left: &Columns,
    right: &Columns,
    on: &[(String, String)],
    conditions: &[NamedCondition],
) -> Result<(Vec<(usize, usize)>, Vec<Condition>), PlanFault>
    ensures { Gives (λ g. (g.0.items, map condition_of g.1.items)) result (join_matches node (columns_of left.now) (columns_of right.now) (map pair_form on.now) (map condition_form conditions.now)) }
{
    let both = side_by_side(alloc, left, right)?;
    let (pairs, found) = find_matches(alloc, node, left, right, &both, on, conditions)?;
    test_distinct_pairs(alloc, node, on)?;
    let (left, right) = (left.types.as_slice(), right.types.as_slice());
    let are_typed = are_pairs(left, right, pairs.as_slice())
        && are_conditions(both.types.as_slice(), found.as_slice());
    test_match(node, are_typed)?;
    Ok((pairs, found))
}

// For each pair of a merge join, that its columns rise.
#[tactic(auto, using(std::proofs::lemmas::Grind::common_steps, crate::proofs::RisingFacts::one_more, crate::proofs::RisingFacts::as_many))]
fn all_rising(alloc: Global, on: &[(usize, usize)]) -> Result<Vec<bool>, AllocError>
    ensures { IfOk result (λ v. v.items ≡ map (λ p. false) on.now) }
{
    let mut falls = Vec::new(alloc);
    for _ in 0..on.len() {
        falls.push(false)?;
    }
    Ok(falls)
}

/// An operator by positions, and its output.
#[tactic(auto, unfolding(crate::specs::Resolve::binary_shape))]
pub fn binary_shape(
    alloc: Global,
    node: u32,
    left: &Arc<Columns>,
    right: &Columns,
    binary: &NamedBinary,
) -> Result<Joint, PlanFault>
    ensures { Gives joint_of result (binary_shape node (columns_of (arc_value left.now)) (columns_of right.now) (binary_form binary.now)) }
{
    match binary {
        NamedBinary::Union => {
            test_match(
                node,
                are_same_types(left.types.as_slice(), right.types.as_slice()),
            )?;
            let columns = Arc::try_clone(left)?;
            Ok(Joint {
                binary: Binary::Union,
                columns,
            })
        }
        NamedBinary::HashJoin(on) => {
            let (pairs, columns) = joined(alloc, node, left, right, on.as_slice())?;
            Ok(Joint {
                binary: Binary::HashJoin(pairs),
                columns,
            })
        }
        NamedBinary::MergeJoin(on) => {
            let (pairs, columns) = joined(alloc, node, left, right, on.as_slice())?;
            let falls = all_rising(alloc, pairs.as_slice())?;
            Ok(Joint {
                binary: Binary::MergeJoin(pairs, falls),
                columns,
            })
        }
        NamedBinary::SemiJoin(on, conditions) => {
            let (on, conditions) = (on.as_slice(), conditions.as_slice());
            let (pairs, found) = join_matches(alloc, node, left, right, on, conditions)?;
            let columns = Arc::try_clone(left)?;
            Ok(Joint {
                binary: Binary::SemiJoin(pairs, found),
                columns,
            })
        }
        NamedBinary::AntiJoin(on, conditions) => {
            let (on, conditions) = (on.as_slice(), conditions.as_slice());
            let (pairs, found) = join_matches(alloc, node, left, right, on, conditions)?;
            let columns = Arc::try_clone(left)?;
            Ok(Joint {
                binary: Binary::AntiJoin(pairs, found),
                columns,
            })
        }
    }
}
