//! What a node's JSON object says of the node itself, read and written.

ghost use Rattle.std.specs.Prelude.{◌≡◌, [], true, false, Some, map, option_map, string_bytes, codes, OnOk};
ghost use Rattle.serde_json.specs.Find.{get, as_str};
ghost use Rattle.serde_json.specs.View.{view, members_view};
ghost use Rattle.vx_catalog_json.specs.Look.{Finds, Parses};
ghost use Rattle.vx_plan_json.specs.Look.{some_in, or_default};
ghost use Rattle.vx_plan_json.specs.Document.{semi_join, claim_form, output_form, aggregate_form, scan_form, unary_form, condition_form, pair_form, binary_form, kind_form};
ghost use Rattle.vx_plan_json.specs.Form.{some_names_in, condition_in};
ghost use Rattle.vx_plan_json.specs.Operators.{own_form, mode_named, scan_in, scan_own, select_in, project_in, outputs_in, sort_in, partial_sort_in, sort_named, sorted_in, lists_in, group_in, partial_in, final_in, phase_named, phased_in, rows_in, limit_in, unary_in, unary_own, method_named, inner_in, matches_by, matches_in, join_named, join_in, union_in, binary_own, hash_in, range_in, sized_in, gather_in, concat_in, kind_in, merge_by, exchange_own, own_named, own_in, own_claim, own_under};
ghost use Rattle.vx_plan_json.specs.Written.{with_text, with_some_text, with_scan, with_lists, with_phase, with_unary, with_join, with_matches, with_binary, with_kind};

use crate::forms::{AggregateReader, ConditionReader, OutputReader, PairReader, read_node_claim};
use crate::json::{Members, put_list, put_order, put_some, put_text};
use crate::look::{get_text_at, read_name_at, read_some_order};
use crate::operands::{read_entries, read_filters};
use crate::plan::{
    NamedAggregate, NamedBinary, NamedClaim, NamedCondition, NamedKind, NamedOutput, NamedScan,
    NamedUnary,
};
use serde_json::{Value as Json, put};
use std::alloc::{AllocError, Global};
use vx_catalog_json::{
    Misread, NameReader, OrderText, get_member, get_text, read_list, read_some, test_members,
};
use vx_rows_values::limits::MAX_KEYS;

/// What a node says of itself, and the values of its inputs.
#[derive(Drop)]
pub enum Own<'v> {
    Scan(NamedClaim, NamedScan),
    Unary(NamedClaim, NamedUnary, &'v Json),
    Binary(NamedClaim, NamedBinary, &'v Json, &'v Json),
    Exchange(NamedClaim, NamedKind, Vec<OrderText>, &'v Json),
}

impl Own<'_> {
    // The claim of the node.
    fn claim(&self) -> &NamedClaim
        ensures { claim_form result.now ≡ own_claim (own_form self.now) }
    {
        match self {
            Own::Scan(claim, _) => claim,
            Own::Unary(claim, _, _) => claim,
            Own::Binary(claim, _, _, _) => claim,
            Own::Exchange(claim, _, _, _) => claim,
        }
    }
}

// Whether the workers share the rows.
fn parse_mode(text: &str) -> Result<bool, Misread>
    ensures { Finds (λ b. b) result (mode_named text.now) }
{
    match text {
        "shared" => Ok(true),
        "whole" => Ok(false),
        _ => Err(Misread::NotOfForm),
    }
}

fn read_prefix(alloc: Global, value: &Json) -> Result<String, Misread>
    ensures { Parses string_bytes result (or_default [] as_str (get (codes "prefix") (view value.now))) }
{
    match value.get("prefix") {
        Some(prefix) => Ok(String::from_str(alloc, get_text(prefix)?)?),
        None => Ok(String::new(alloc)),
    }
}

#[tactic(auto, unfolding(crate::specs::Operators::scan_in))]
fn read_scan(alloc: Global, value: &Json) -> Result<NamedScan, Misread>
    ensures { Parses scan_form result (scan_in (view value.now)) }
{
    let relation = read_name_at(alloc, value, "relation")?;
    let shared = parse_mode(get_text_at(value, "mode")?)?;
    let size = read_name_at(alloc, value, "size")?;
    let prefix = read_prefix(alloc, value)?;
    Ok(NamedScan {
        relation,
        shared,
        size,
        prefix,
    })
}

#[tactic(auto, unfolding(crate::specs::Operators::scan_own))]
fn read_scan_node<'v>(alloc: Global, value: &'v Json) -> Result<Own<'v>, Misread>
    ensures { Parses own_form result (scan_own (view value.now)) }
{
    test_members(
        value,
        &["op", "relation", "mode", "size", "prefix", "claim"],
    )?;
    let scan = read_scan(alloc, value)?;
    let claim = read_node_claim(alloc, value)?;
    Ok(Own::Scan(claim, scan))
}

// What stands in the objects of functions has so many levels of JSON at most.
#[tactic(auto, unfolding(crate::specs::Operators::select_in))]
fn read_select(alloc: Global, levels: u32, value: &Json) -> Result<NamedUnary, Misread>
    ensures { Parses unary_form result (select_in levels (view value.now)) }
{
    test_members(value, &["op", "where", "input", "claim"])?;
    let filters = read_filters(alloc, levels, get_member(value, "where")?)?;
    Ok(NamedUnary::Select(filters))
}

#[tactic(auto, unfolding(crate::specs::Operators::project_in))]
fn read_project(alloc: Global, levels: u32, value: &Json) -> Result<NamedUnary, Misread>
    ensures { Parses unary_form result (project_in levels (view value.now)) }
{
    test_members(value, &["op", "columns", "input", "claim"])?;
    let entries = read_entries(alloc, levels, get_member(value, "columns")?)?;
    Ok(NamedUnary::Project(entries))
}

// The kept columns of a distinct.
#[tactic(auto, unfolding(crate::specs::Operators::outputs_in))]
fn read_outputs(alloc: Global, value: &Json) -> Result<Vec<NamedOutput>, Misread>
    ensures { Parses (λ v. map output_form v.items) result (outputs_in (view value.now)) }
{
    test_members(value, &["op", "columns", "input", "claim"])?;
    read_some::<OutputReader>(alloc, get_member(value, "columns")?)
}

#[tactic(auto, unfolding(crate::specs::Operators::sort_in))]
fn read_plain_sort(alloc: Global, value: &Json) -> Result<NamedUnary, Misread>
    ensures { Parses unary_form result (sort_in (view value.now)) }
{
    test_members(value, &["op", "columns", "input", "claim"])?;
    let order = read_some_order(alloc, get_member(value, "columns")?)?;
    Ok(NamedUnary::Sort(order))
}

#[tactic(auto, unfolding(crate::specs::Operators::partial_sort_in))]
fn read_partial_sort(alloc: Global, value: &Json) -> Result<NamedUnary, Misread>
    ensures { Parses unary_form result (partial_sort_in (view value.now)) }
{
    test_members(value, &["op", "phase", "columns", "input", "claim"])?;
    let order = read_some_order(alloc, get_member(value, "columns")?)?;
    Ok(NamedUnary::PartialSort(order))
}

fn read_sort_phase(alloc: Global, phase: &str, value: &Json) -> Result<NamedUnary, Misread>
    ensures { Parses unary_form result (sort_named phase.now (view value.now)) }
{
    match phase {
        "partial" => read_partial_sort(alloc, value),
        _ => Err(Misread::NotOfForm),
    }
}

#[tactic(auto, unfolding(crate::specs::Operators::sorted_in))]
fn read_sort(alloc: Global, value: &Json) -> Result<NamedUnary, Misread>
    ensures { Parses unary_form result (sorted_in (view value.now)) }
{
    match value.get("phase") {
        Some(phase) => read_sort_phase(alloc, get_text(phase)?, value),
        None => read_plain_sort(alloc, value),
    }
}

// The columns and the aggregates of a group. Not both lists are empty.
#[tactic(auto, unfolding(crate::specs::Operators::lists_in, crate::specs::Form::names_in))]
fn read_lists(alloc: Global, value: &Json) -> Result<(Vec<String>, Vec<NamedAggregate>), Misread>
    ensures { Parses (λ g. (map string_bytes g.0.items, map aggregate_form g.1.items)) result (lists_in (view value.now)) }
{
    let by = read_list::<NameReader>(alloc, get_member(value, "by")?)?;
    let aggregates = read_list::<AggregateReader>(alloc, get_member(value, "aggregates")?)?;
    if by.is_empty() && aggregates.is_empty() {
        return Err(Misread::NotOfForm);
    }
    Ok((by, aggregates))
}

#[tactic(auto, unfolding(crate::specs::Operators::group_in))]
fn read_plain_group(alloc: Global, value: &Json) -> Result<NamedUnary, Misread>
    ensures { Parses unary_form result (group_in (view value.now)) }
{
    test_members(value, &["op", "by", "aggregates", "input", "claim"])?;
    let (by, aggregates) = read_lists(alloc, value)?;
    Ok(NamedUnary::Group(by, aggregates))
}

#[tactic(auto, unfolding(crate::specs::Operators::partial_in))]
fn read_partial_group(alloc: Global, value: &Json) -> Result<NamedUnary, Misread>
    ensures { Parses unary_form result (partial_in (view value.now)) }
{
    test_members(
        value,
        &["op", "phase", "by", "aggregates", "input", "claim"],
    )?;
    let (by, aggregates) = read_lists(alloc, value)?;
    Ok(NamedUnary::PartialGroup(by, aggregates))
}

#[tactic(auto, unfolding(crate::specs::Operators::final_in))]
fn read_final_group(value: &Json) -> Result<NamedUnary, Misread>
    ensures { Finds unary_form result (final_in (view value.now)) }
{
    test_members(value, &["op", "phase", "input", "claim"])?;
    Ok(NamedUnary::FinalGroup)
}

fn read_phase(alloc: Global, phase: &str, value: &Json) -> Result<NamedUnary, Misread>
    ensures { Parses unary_form result (phase_named phase.now (view value.now)) }
{
    match phase {
        "partial" => read_partial_group(alloc, value),
        "final" => read_final_group(value),
        _ => Err(Misread::NotOfForm),
    }
}

#[tactic(auto, unfolding(crate::specs::Operators::phased_in))]
fn read_group(alloc: Global, value: &Json) -> Result<NamedUnary, Misread>
    ensures { Parses unary_form result (phased_in (view value.now)) }
{
    match value.get("phase") {
        Some(phase) => read_phase(alloc, get_text(phase)?, value),
        None => read_plain_group(alloc, value),
    }
}

// A number of 32 bits without sign.
#[tactic(auto, unfolding(crate::specs::Operators::rows_in))]
fn read_rows(value: &Json) -> Result<u32, Misread>
    ensures { Finds (λ n. n) result (rows_in (view value.now)) }
{
    let number = value.as_u64().ok_or(Misread::NotOfForm)?;
    u32::try_from(number).ok().ok_or(Misread::NotOfForm)
}

#[tactic(auto, unfolding(crate::specs::Operators::limit_in))]
fn read_limit(value: &Json) -> Result<NamedUnary, Misread>
    ensures { Finds unary_form result (limit_in (view value.now)) }
{
    test_members(value, &["op", "rows", "input", "claim"])?;
    let rows = read_rows(get_member(value, "rows")?)?;
    Ok(NamedUnary::Limit(rows))
}

#[tactic(auto, unfolding(crate::specs::Operators::unary_in))]
fn read_unary(alloc: Global, levels: u32, op: &str, value: &Json) -> Result<NamedUnary, Misread>
    ensures { Parses unary_form result (unary_in levels op.now (view value.now)) }
{
    match op {
        "select" => read_select(alloc, levels, value),
        "project" => read_project(alloc, levels, value),
        "distinct" => Ok(NamedUnary::Distinct(read_outputs(alloc, value)?)),
        "sort" => read_sort(alloc, value),
        "group" => read_group(alloc, value),
        "limit" => read_limit(value),
        _ => Err(Misread::NotOfForm),
    }
}

#[tactic(auto, unfolding(crate::specs::Operators::unary_own))]
fn read_unary_node<'v>(
    alloc: Global,
    levels: u32,
    op: &str,
    value: &'v Json,
) -> Result<Own<'v>, Misread>
    ensures { Parses own_form result (unary_own levels op.now (view value.now)) }
{
    let unary = read_unary(alloc, levels, op, value)?;
    let claim = read_node_claim(alloc, value)?;
    let input = get_member(value, "input")?;
    Ok(Own::Unary(claim, unary, input))
}

// Whether a join merges.
fn parse_method(text: &str) -> Result<bool, Misread>
    ensures { Finds (λ b. b) result (method_named text.now) }
{
    match text {
        "merge" => Ok(true),
        "hash" => Ok(false),
        _ => Err(Misread::NotOfForm),
    }
}

#[tactic(auto, unfolding(crate::specs::Operators::inner_in))]
fn read_inner_join(alloc: Global, value: &Json) -> Result<NamedBinary, Misread>
    ensures { Parses binary_form result (inner_in (view value.now)) }
{
    test_members(
        value,
        &["op", "method", "kind", "on", "left", "right", "claim"],
    )?;
    let merging = parse_method(get_text_at(value, "method")?)?;
    let on = read_some::<PairReader>(alloc, get_member(value, "on")?)?;
    Ok(if merging {
        NamedBinary::MergeJoin(on)
    } else {
        NamedBinary::HashJoin(on)
    })
}

// The conditions in `where`; none where it is left out.
fn read_conditions(alloc: Global, value: &Json) -> Result<Vec<NamedCondition>, Misread>
    ensures { Parses (λ v. map condition_form v.items) result (or_default [] (some_in condition_in) (get (codes "where") (view value.now))) }
{
    match value.get("where") {
        Some(conditions) => read_some::<ConditionReader>(alloc, conditions),
        None => Ok(Vec::new(alloc)),
    }
}

// The pairs and the conditions of a join that does not merge.
fn read_pairs_and_conditions(
    alloc: Global,
    value: &Json,
) -> Result<(Vec<(String, String)>, Vec<NamedCondition>), Misread>
    ensures { Parses (λ g. (map pair_form g.0.items, map condition_form g.1.items)) result (matches_by false (view value.now)) }
{
    let on = read_some::<PairReader>(alloc, get_member(value, "on")?)?;
    let conditions = read_conditions(alloc, value)?;
    Ok((on, conditions))
}

// On what a semi or an anti join looks for matches.
#[tactic(auto, unfolding(crate::specs::Operators::matches_in))]
fn read_matches(
    alloc: Global,
    value: &Json,
) -> Result<(Vec<(String, String)>, Vec<NamedCondition>), Misread>
    ensures { Parses (λ g. (map pair_form g.0.items, map condition_form g.1.items)) result (matches_in (view value.now)) }
{
    test_members(
        value,
        &[
            "op", "method", "kind", "on", "where", "left", "right", "claim",
        ],
    )?;
    if parse_method(get_text_at(value, "method")?)? {
        return Err(Misread::NotOfForm);
    }
    read_pairs_and_conditions(alloc, value)
}

fn read_semi_join(alloc: Global, value: &Json) -> Result<NamedBinary, Misread>
    ensures { Parses binary_form result (option_map (λ g. semi_join true g.0 g.1) (matches_in (view value.now))) }
{
    let (on, conditions) = read_matches(alloc, value)?;
    Ok(NamedBinary::SemiJoin(on, conditions))
}

fn read_anti_join(alloc: Global, value: &Json) -> Result<NamedBinary, Misread>
    ensures { Parses binary_form result (option_map (λ g. semi_join false g.0 g.1) (matches_in (view value.now))) }
{
    let (on, conditions) = read_matches(alloc, value)?;
    Ok(NamedBinary::AntiJoin(on, conditions))
}

fn read_join_of(alloc: Global, kind: &str, value: &Json) -> Result<NamedBinary, Misread>
    ensures { Parses binary_form result (join_named kind.now (view value.now)) }
{
    match kind {
        "inner" => read_inner_join(alloc, value),
        "semi" => read_semi_join(alloc, value),
        "anti" => read_anti_join(alloc, value),
        _ => Err(Misread::NotOfForm),
    }
}

#[tactic(auto, unfolding(crate::specs::Operators::join_in))]
fn read_join(alloc: Global, value: &Json) -> Result<NamedBinary, Misread>
    ensures { Parses binary_form result (join_in (view value.now)) }
{
    match value.get("kind") {
        Some(kind) => read_join_of(alloc, get_text(kind)?, value),
        None => read_inner_join(alloc, value),
    }
}

#[tactic(auto, unfolding(crate::specs::Operators::union_in))]
fn read_union(value: &Json) -> Result<NamedBinary, Misread>
    ensures { Finds binary_form result (union_in (view value.now)) }
{
    test_members(value, &["op", "left", "right", "claim"])?;
    Ok(NamedBinary::Union)
}

fn read_binary_node<'v>(
    alloc: Global,
    binary: NamedBinary,
    value: &'v Json,
) -> Result<Own<'v>, Misread>
    ensures { Parses own_form result (binary_own (Some (binary_form binary)) (view value.now)) }
{
    let claim = read_node_claim(alloc, value)?;
    let left = get_member(value, "left")?;
    let right = get_member(value, "right")?;
    Ok(Own::Binary(claim, binary, left, right))
}

#[tactic(auto, unfolding(crate::specs::Operators::hash_in, crate::specs::Form::some_names_in))]
fn read_hash(alloc: Global, value: &Json) -> Result<NamedKind, Misread>
    ensures { Parses kind_form result (hash_in (view value.now)) }
{
    test_members(
        value,
        &[
            "op", "kind", "size", "route", "columns", "merge", "input", "claim",
        ],
    )?;
    let size = read_name_at(alloc, value, "size")?;
    let route = read_name_at(alloc, value, "route")?;
    let columns = read_some::<NameReader>(alloc, get_member(value, "columns")?)?;
    Ok(NamedKind::Hash {
        size,
        route,
        columns,
    })
}

#[tactic(auto, unfolding(crate::specs::Operators::range_in))]
fn read_range(alloc: Global, value: &Json) -> Result<NamedKind, Misread>
    ensures { Parses kind_form result (range_in (view value.now)) }
{
    test_members(
        value,
        &[
            "op", "kind", "size", "route", "column", "merge", "input", "claim",
        ],
    )?;
    let size = read_name_at(alloc, value, "size")?;
    let range = read_name_at(alloc, value, "route")?;
    let column = read_name_at(alloc, value, "column")?;
    Ok(NamedKind::Range {
        size,
        range,
        column,
    })
}

// The size of an exchange that neither routes nor has one receiver.
#[tactic(auto, unfolding(crate::specs::Operators::sized_in))]
fn read_size(alloc: Global, value: &Json) -> Result<String, Misread>
    ensures { Parses string_bytes result (sized_in (view value.now)) }
{
    test_members(value, &["op", "kind", "size", "merge", "input", "claim"])?;
    read_name_at(alloc, value, "size")
}

#[tactic(auto, unfolding(crate::specs::Operators::gather_in))]
fn read_gather(value: &Json) -> Result<NamedKind, Misread>
    ensures { Finds kind_form result (gather_in (view value.now)) }
{
    test_members(value, &["op", "kind", "merge", "input", "claim"])?;
    Ok(NamedKind::Gather)
}

#[tactic(auto, unfolding(crate::specs::Operators::concat_in))]
fn read_concat(value: &Json) -> Result<NamedKind, Misread>
    ensures { Finds kind_form result (concat_in (view value.now)) }
{
    test_members(value, &["op", "kind", "input", "claim"])?;
    Ok(NamedKind::Concat)
}

#[tactic(auto, unfolding(crate::specs::Operators::kind_in))]
fn read_kind(alloc: Global, kind: &str, value: &Json) -> Result<NamedKind, Misread>
    ensures { Parses kind_form result (kind_in kind.now (view value.now)) }
{
    match kind {
        "hash" => read_hash(alloc, value),
        "range" => read_range(alloc, value),
        "round" => Ok(NamedKind::Round(read_size(alloc, value)?)),
        "broadcast" => Ok(NamedKind::Broadcast(read_size(alloc, value)?)),
        "gather" => read_gather(value),
        "concat" => read_concat(value),
        _ => Err(Misread::NotOfForm),
    }
}

// The order by which an exchange of the kind merges.
#[tactic(auto, unfolding(crate::specs::Operators::merge_in))]
fn read_merge(alloc: Global, kind: &NamedKind, value: &Json) -> Result<Vec<OrderText>, Misread>
    ensures { Parses (λ v. v.items) result (merge_by (kind_form kind.now) (view value.now)) }
{
    if matches!(kind, NamedKind::Concat) {
        return Ok(Vec::new(alloc));
    }
    match value.get("merge") {
        Some(merge) => read_some_order(alloc, merge),
        None => Ok(Vec::new(alloc)),
    }
}

#[tactic(auto, unfolding(crate::specs::Operators::exchange_own))]
fn read_exchange_node<'v>(alloc: Global, value: &'v Json) -> Result<Own<'v>, Misread>
    ensures { Parses own_form result (exchange_own (view value.now)) }
{
    let kind = read_kind(alloc, get_text_at(value, "kind")?, value)?;
    let merge = read_merge(alloc, &kind, value)?;
    let claim = read_node_claim(alloc, value)?;
    let input = get_member(value, "input")?;
    Ok(Own::Exchange(claim, kind, merge, input))
}

fn read_node_of<'v>(
    alloc: Global,
    levels: u32,
    op: &str,
    value: &'v Json,
) -> Result<Own<'v>, Misread>
    ensures { Parses own_form result (own_named levels op.now (view value.now)) }
{
    match op {
        "scan" => read_scan_node(alloc, value),
        "union" => read_binary_node(alloc, read_union(value)?, value),
        "join" => read_binary_node(alloc, read_join(alloc, value)?, value),
        "exchange" => read_exchange_node(alloc, value),
        _ => read_unary_node(alloc, levels, op, value),
    }
}

// What a value says of a node, if it is a node.
#[tactic(auto, unfolding(crate::specs::Operators::own_in))]
fn read_any_own<'v>(alloc: Global, levels: u32, value: &'v Json) -> Result<Own<'v>, Misread>
    ensures { Parses own_form result (own_in levels (view value.now)) }
{
    read_node_of(alloc, levels, get_text_at(value, "op")?, value)
}

/// What a value says of a node, if it is a node. In a plan that asks for what is known of its columns, a claim has at most
/// 16 keys. What stands in the objects of functions has so many levels of JSON at most.
#[tactic(auto, unfolding(crate::specs::Operators::own_under))]
pub fn read_own<'v>(
    alloc: Global,
    derives: bool,
    levels: u32,
    value: &'v Json,
) -> Result<Own<'v>, Misread>
    ensures { Parses own_form result (own_under derives levels (view value.now)) }
{
    let own = read_any_own(alloc, levels, value)?;
    if derives && own.claim().keys.len() > MAX_KEYS {
        return Err(Misread::NotOfForm);
    }
    Ok(own)
}

// A text, unless it is empty.
fn put_some_text(
    members: &mut Members,
    alloc: Global,
    key: &str,
    value: &str,
) -> Result<(), AllocError>
    ensures { OnOk result (members_view members.new.entries ≡ with_some_text key.now value.now (members_view members.old.entries)) }
{
    if value.is_empty() {
        return Ok(());
    }
    put_text(members, alloc, key, value)
}

/// What a scan says of itself, as members.
pub fn put_scan(members: &mut Members, alloc: Global, scan: &NamedScan) -> Result<(), AllocError>
    ensures { OnOk result (members_view members.new.entries ≡ with_scan (scan_form scan.now) (members_view members.old.entries)) }
{
    let mode = if scan.shared { "shared" } else { "whole" };
    put_text(members, alloc, "op", "scan")?;
    put_text(members, alloc, "relation", scan.relation.as_str())?;
    put_text(members, alloc, "mode", mode)?;
    put_text(members, alloc, "size", scan.size.as_str())?;
    put_some_text(members, alloc, "prefix", scan.prefix.as_str())
}

// The columns and the aggregates of a group.
fn put_lists(
    members: &mut Members,
    alloc: Global,
    by: &[String],
    aggregates: &[NamedAggregate],
) -> Result<(), AllocError>
    ensures { OnOk result (members_view members.new.entries ≡ with_lists (map string_bytes by.now) (map aggregate_form aggregates.now) (members_view members.old.entries)) }
{
    put_list(members, alloc, "by", by)?;
    put_list(members, alloc, "aggregates", aggregates)
}

// A group's name and phase.
fn put_phase(members: &mut Members, alloc: Global, phase: &str) -> Result<(), AllocError>
    ensures { OnOk result (members_view members.new.entries ≡ with_phase phase.now (members_view members.old.entries)) }
{
    put_text(members, alloc, "op", "group")?;
    put_text(members, alloc, "phase", phase)
}

/// What an operator over one input says of itself, as members.
pub fn put_unary(members: &mut Members, alloc: Global, unary: &NamedUnary) -> Result<(), AllocError>
    ensures { OnOk result (members_view members.new.entries ≡ with_unary (unary_form unary.now) (members_view members.old.entries)) }
{
    match unary {
        NamedUnary::Select(filters) => {
            put_text(members, alloc, "op", "select")?;
            put_list(members, alloc, "where", filters.as_slice())
        }
        NamedUnary::Project(entries) => {
            put_text(members, alloc, "op", "project")?;
            put_list(members, alloc, "columns", entries.as_slice())
        }
        NamedUnary::Distinct(outputs) => {
            put_text(members, alloc, "op", "distinct")?;
            put_list(members, alloc, "columns", outputs.as_slice())
        }
        NamedUnary::Sort(order) => {
            put_text(members, alloc, "op", "sort")?;
            put_order(members, alloc, "columns", order.as_slice())
        }
        NamedUnary::PartialSort(order) => {
            put_text(members, alloc, "op", "sort")?;
            put_text(members, alloc, "phase", "partial")?;
            put_order(members, alloc, "columns", order.as_slice())
        }
        NamedUnary::Group(by, aggregates) => {
            put_text(members, alloc, "op", "group")?;
            put_lists(members, alloc, by.as_slice(), aggregates.as_slice())
        }
        NamedUnary::PartialGroup(by, aggregates) => {
            put_phase(members, alloc, "partial")?;
            put_lists(members, alloc, by.as_slice(), aggregates.as_slice())
        }
        NamedUnary::FinalGroup => put_phase(members, alloc, "final"),
        NamedUnary::Limit(rows) => {
            put_text(members, alloc, "op", "limit")?;
            put(members, alloc, "rows", Json::from(*rows))
        }
    }
}

fn put_join(
    members: &mut Members,
    alloc: Global,
    method: &str,
    on: &[(String, String)],
) -> Result<(), AllocError>
    ensures { OnOk result (members_view members.new.entries ≡ with_join method.now (map pair_form on.now) (members_view members.old.entries)) }
{
    put_text(members, alloc, "op", "join")?;
    put_text(members, alloc, "method", method)?;
    put_list(members, alloc, "on", on)
}

// A join that looks for matches, with its conditions, if there are any.
fn put_matches(
    members: &mut Members,
    alloc: Global,
    kind: &str,
    on: &[(String, String)],
    conditions: &[NamedCondition],
) -> Result<(), AllocError>
    ensures { OnOk result (members_view members.new.entries ≡ with_matches kind.now (map pair_form on.now) (map condition_form conditions.now) (members_view members.old.entries)) }
{
    put_join(members, alloc, "hash", on)?;
    put_text(members, alloc, "kind", kind)?;
    put_some(members, alloc, "where", conditions)
}

/// What an operator over two inputs says of itself, as members.
pub fn put_binary(
    members: &mut Members,
    alloc: Global,
    binary: &NamedBinary,
) -> Result<(), AllocError>
    ensures { OnOk result (members_view members.new.entries ≡ with_binary (binary_form binary.now) (members_view members.old.entries)) }
{
    match binary {
        NamedBinary::Union => put_text(members, alloc, "op", "union"),
        NamedBinary::HashJoin(on) => put_join(members, alloc, "hash", on.as_slice()),
        NamedBinary::MergeJoin(on) => put_join(members, alloc, "merge", on.as_slice()),
        NamedBinary::SemiJoin(on, conditions) => {
            put_matches(members, alloc, "semi", on.as_slice(), conditions.as_slice())
        }
        NamedBinary::AntiJoin(on, conditions) => {
            put_matches(members, alloc, "anti", on.as_slice(), conditions.as_slice())
        }
    }
}

fn put_sized(members: &mut Members, alloc: Global, kind: &str, size: &str) -> Result<(), AllocError>
    ensures { OnOk result (members_view members.new.entries ≡ with_text (codes "size") size.now (with_text (codes "kind") kind.now (members_view members.old.entries))) }
{
    put_text(members, alloc, "kind", kind)?;
    put_text(members, alloc, "size", size)
}

/// How an exchange sends, as members.
pub fn put_kind(members: &mut Members, alloc: Global, kind: &NamedKind) -> Result<(), AllocError>
    ensures { OnOk result (members_view members.new.entries ≡ with_kind (kind_form kind.now) (members_view members.old.entries)) }
{
    match kind {
        NamedKind::Hash {
            size,
            route,
            columns,
        } => {
            put_sized(members, alloc, "hash", size.as_str())?;
            put_text(members, alloc, "route", route.as_str())?;
            put_list(members, alloc, "columns", columns.as_slice())
        }
        NamedKind::Range {
            size,
            range,
            column,
        } => {
            put_sized(members, alloc, "range", size.as_str())?;
            put_text(members, alloc, "route", range.as_str())?;
            put_text(members, alloc, "column", column.as_str())
        }
        NamedKind::Round(size) => put_sized(members, alloc, "round", size.as_str()),
        NamedKind::Broadcast(size) => put_sized(members, alloc, "broadcast", size.as_str()),
        NamedKind::Gather => put_text(members, alloc, "kind", "gather"),
        NamedKind::Concat => put_text(members, alloc, "kind", "concat"),
    }
}
