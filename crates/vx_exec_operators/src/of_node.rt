//! The operators of the nodes of a plan.

ghost use Rattle.std.specs.Prelude.{◌≡◌, ◌≤◌, true, ℕ, length, map, IfOk};
ghost use Rattle.vx_rows_values.specs.Order.{order_columns};
ghost use Rattle.vx_rows.specs.View.{AreColumns};
ghost use Rattle.vx_plan_nodes.specs.Conditions.{conditions_of};
ghost use Rattle.vx_plan_nodes.specs.Known.{unary_known};
ghost use Rattle.vx_plan_nodes.specs.Plan.{semi_join};
ghost use Rattle.vx_plan_nodes.specs.Outline.{unary_of, binary_of, kind_of};
ghost use Rattle.vx_plan_nodes.specs.Runs.{is_concat};
ghost use Rattle.vx_plan_nodes.specs.Typed.{is_unary, is_binary, may_merge};
ghost use Rattle.vx_plan_nodes.specs.Types.{unary_types, binary_types};
ghost use Rattle.vx_plan_nodes.specs.Under.{unary_under};
ghost use Rattle.vx_match_join.specs.Matching.{op_of_matching};
ghost use Rattle.vx_ops.specs.Ledger.{one_op, two_op, receive};
ghost use Rattle.vx_ops.specs.Turn.{fresh_ledger};
ghost use Rattle.vx_ops.specs.Starts.{StartsWithin};
ghost use Rattle.vx_exec_operators.specs.Operator.{OperatorStands, operator_op, operator_types, operator_most, operator_idle};
ghost use Rattle.vx_rows_values.specs.Limits.{max_group_workers};

use crate::kind::OperatorKind;
use crate::operator::Operator;
use std::alloc::{AllocError, Global};
use vx_exchange::Receiver;
use vx_exchange_receivers::{InOrderReceiver, MergeReceiver};
use vx_match::{FirstRows, HashJoining, KeyedGroups, MergeJoin, SemiJoining};
use vx_match_join::Matching;
use vx_ops::{Limit, Project, Select, Sort, Union};
use vx_ops_kernels::kept_columns;
use vx_plan_nodes::{
    Binary, Condition, Exchange, ExchangeKind, PlanFunctions, Unary, copied_conditions,
    copied_entries, copied_filters,
};
use vx_rows_values::{ColType, KeySeed};

/// The operator over one input of rows of these types, at the node with this number, to which nothing came. Keys are hashed by
/// the seed. Among these functions are those that the operator computes.
pub fn unary_operator<F: PlanFunctions + Copy>(
    alloc: Global,
    functions: F,
    seed: KeySeed,
    number: u32,
    unary: &Unary,
    input: &[ColType],
) -> Result<Operator<F>, AllocError>
    requires typed { is_unary input.now (unary_of unary.now) ≡ true }
    requires known { unary_known input.now (unary_under (F.functions functions) (unary_of unary.now)) ≡ true }
    ensures op { IfOk result (λ o. operator_op F.PlanFunctions o ≡ one_op number (unary_under (F.functions functions) (unary_of unary.now))) }
    ensures stands { IfOk result (λ o. OperatorStands F.PlanFunctions o fresh_ledger) }
    ensures starts { IfOk result (λ o. StartsWithin (operator_op F.PlanFunctions o) (operator_most F.PlanFunctions o) (operator_idle F.PlanFunctions o)) }
    ensures reads { IfOk result (λ o. (operator_types F.PlanFunctions o).left ≡ input.now) }
    ensures returns { IfOk result (λ o. (operator_types F.PlanFunctions o).out ≡ unary_types (unary_of unary.now) input.now) }
{
    match unary {
        Unary::Select(filters) => {
            let copies = copied_filters(alloc, filters.as_slice())?;
            let types = Vec::from_slice(alloc, input)?;
            let select = Select::new(alloc, number, functions, copies, types);
            Ok(Operator::of(number, OperatorKind::Select(select)))
        }
        Unary::Project(entries) => {
            let copies = copied_entries(alloc, entries.as_slice())?;
            let project = Project::new(alloc, number, functions, copies, input)?;
            Ok(Operator::of(number, OperatorKind::Project(project)))
        }
        Unary::Distinct(kept) => {
            let columns = kept_columns(alloc, kept.as_slice())?;
            let distinct = FirstRows::source(alloc, seed, number, columns, input)?;
            Ok(Operator::of(number, OperatorKind::Distinct(distinct)))
        }
        Unary::Sort(phase, order) => {
            let order = Vec::from_slice(alloc, order.as_slice())?;
            let sort = Sort::new(alloc, number, *phase, order, input)?;
            Ok(Operator::of(number, OperatorKind::Sort(sort)))
        }
        Unary::Group(phase, by, aggregates) => {
            let by = by.as_slice();
            let aggregates = aggregates.as_slice();
            let group = KeyedGroups::source(alloc, seed, number, *phase, by, aggregates, input)?;
            Ok(Operator::of(number, OperatorKind::Group(group)))
        }
        Unary::Limit(rows) => {
            let types = Vec::from_slice(alloc, input)?;
            let limit = Limit::new(alloc, number, *rows, types);
            Ok(Operator::of(number, OperatorKind::Limit(limit)))
        }
    }
}

// Which rows a semi join, or, where `matched` is false, an anti join keeps, by these pairs of columns and these conditions.
fn matching_of(
    alloc: Global,
    matched: bool,
    on: &[(usize, usize)],
    conditions: &[Condition],
) -> Result<Matching, AllocError>
    ensures on { IfOk result (λ m. m.on.items ≡ on.now) }
    ensures op { IfOk result (λ m. op_of_matching m ≡ semi_join matched on.now (conditions_of conditions.now)) }
{
    let on = Vec::from_slice(alloc, on)?;
    let conditions = copied_conditions(alloc, conditions)?;
    Ok(Matching {
        matched,
        on,
        conditions,
    })
}

// The operator of a semi or an anti join over inputs of rows of these types, to which nothing came.
fn semi_join_operator<F: PlanFunctions + Copy>(
    alloc: Global,
    seed: KeySeed,
    number: u32,
    matching: Matching,
    left: &[ColType],
    right: &[ColType],
) -> Result<Operator<F>, AllocError>
    requires left { AreColumns (length left.now) (map (λ (p : ℕ × ℕ). p.0) matching.on.items) }
    requires right { AreColumns (length right.now) (map (λ (p : ℕ × ℕ). p.1) matching.on.items) }
    ensures op { IfOk result (λ o. operator_op F.PlanFunctions o ≡ two_op number (op_of_matching matching)) }
    ensures stands { IfOk result (λ o. OperatorStands F.PlanFunctions o fresh_ledger) }
    ensures starts { IfOk result (λ o. StartsWithin (operator_op F.PlanFunctions o) (operator_most F.PlanFunctions o) (operator_idle F.PlanFunctions o)) }
    ensures left { IfOk result (λ o. (operator_types F.PlanFunctions o).left ≡ left.now) }
    ensures right { IfOk result (λ o. (operator_types F.PlanFunctions o).right ≡ right.now) }
    ensures returns { IfOk result (λ o. (operator_types F.PlanFunctions o).out ≡ left.now) }
{
    let join = SemiJoining::source(alloc, seed, number, matching, left, right)?;
    Ok(Operator::of(number, OperatorKind::SemiJoin(join)))
}

/// The operator over two inputs of rows of these types, at the node with this number, to which nothing came. Keys are hashed by
/// the seed.
pub fn binary_operator<F: PlanFunctions + Copy>(
    alloc: Global,
    seed: KeySeed,
    number: u32,
    binary: &Binary,
    left: &[ColType],
    right: &[ColType],
) -> Result<Operator<F>, AllocError>
    requires { is_binary left.now right.now (binary_of binary.now) ≡ true }
    ensures op { IfOk result (λ o. operator_op F.PlanFunctions o ≡ two_op number (binary_of binary.now)) }
    ensures stands { IfOk result (λ o. OperatorStands F.PlanFunctions o fresh_ledger) }
    ensures starts { IfOk result (λ o. StartsWithin (operator_op F.PlanFunctions o) (operator_most F.PlanFunctions o) (operator_idle F.PlanFunctions o)) }
    ensures left { IfOk result (λ o. (operator_types F.PlanFunctions o).left ≡ left.now) }
    ensures right { IfOk result (λ o. (operator_types F.PlanFunctions o).right ≡ right.now) }
    ensures returns { IfOk result (λ o. (operator_types F.PlanFunctions o).out ≡ binary_types (binary_of binary.now) left.now right.now) }
{
    match binary {
        Binary::Union => {
            let types = Vec::from_slice(alloc, left)?;
            let union = Union::new(number, types);
            Ok(Operator::of(number, OperatorKind::Union(union)))
        }
        Binary::HashJoin(on) => {
            let on = Vec::from_slice(alloc, on.as_slice())?;
            let join = HashJoining::source(alloc, seed, number, on, left, right)?;
            Ok(Operator::of(number, OperatorKind::HashJoin(join)))
        }
        Binary::MergeJoin(on, falls) => {
            let falls = falls.as_slice();
            let join = MergeJoin::new(alloc, number, on.as_slice(), falls, left, right)?;
            Ok(Operator::of(number, OperatorKind::MergeJoin(join)))
        }
        Binary::SemiJoin(on, conditions) => {
            let matching = matching_of(alloc, true, on.as_slice(), conditions.as_slice())?;
            semi_join_operator(alloc, seed, number, matching, left, right)
        }
        Binary::AntiJoin(on, conditions) => {
            let matching = matching_of(alloc, false, on.as_slice(), conditions.as_slice())?;
            semi_join_operator(alloc, seed, number, matching, left, right)
        }
    }
}

// Whether an exchange takes its producers in the order of their numbers.
fn is_concat(kind: &ExchangeKind) -> bool
    ensures { result ≡ is_concat (kind_of kind.now) }
{
    matches!(kind, ExchangeKind::Concat)
}

/// The consumer end, at `place`, of the exchange whose node has this `number`. It takes rows of these `types` from `producers` producers,
/// and no packet has come yet.
pub fn consumer_operator<F: PlanFunctions + Copy>(
    alloc: Global,
    number: u32,
    exchange: &Exchange,
    place: u32,
    producers: u32,
    types: Vec<ColType>,
) -> Result<Operator<F>, AllocError>
    requires some { 1 ≤ producers }
    requires few { producers ≤ max_group_workers }
    requires columns { AreColumns (length types.items) (order_columns exchange.now.merge.items) }
    requires merges { may_merge (kind_of exchange.now.kind) exchange.now.merge.items ≡ true }
    ensures op { IfOk result (λ o. operator_op F.PlanFunctions o
        ≡ receive (record { exchange = number; place = place; producers = producers; types = types.items; merge = exchange.now.merge.items; in_order = is_concat (kind_of exchange.now.kind) })) }
    ensures stands { IfOk result (λ o. OperatorStands F.PlanFunctions o fresh_ledger) }
    ensures starts { IfOk result (λ o. StartsWithin (operator_op F.PlanFunctions o) (operator_most F.PlanFunctions o) (operator_idle F.PlanFunctions o)) }
    ensures reads { IfOk result (λ o. (operator_types F.PlanFunctions o).left ≡ types.items) }
    ensures returns { IfOk result (λ o. (operator_types F.PlanFunctions o).out ≡ types.items) }
{
    if is_concat(&exchange.kind) {
        let receiver = InOrderReceiver::new(number, place, producers, types);
        return Ok(Operator::of(number, OperatorKind::InOrder(receiver)));
    }
    if exchange.merge.is_empty() {
        let receiver = Receiver::new(alloc, number, place, producers, types)?;
        return Ok(Operator::of(number, OperatorKind::Receiver(receiver)));
    }
    let merge = Vec::from_slice(alloc, exchange.merge.as_slice())?;
    let receiver = MergeReceiver::new(alloc, number, place, producers, types, merge)?;
    Ok(Operator::of(number, OperatorKind::Merge(receiver)))
}
