//! A checked plan as JSON.

ghost use Rattle.std.specs.Prelude.{◌≡◌, ◌++◌, ◌∷◌, [], map, string_bytes, codes, OnOk, IfOk, Some};
ghost use Rattle.serde_json.specs.Data.{number, unsigned};
ghost use Rattle.serde_json.specs.Read.{read};
ghost use Rattle.serde_json.specs.View.{view, members_view};
ghost use Rattle.serde_json.specs.Written.{compact_text};
ghost use Rattle.vx_catalog_relations.specs.Catalog.{relation_at};
ghost use Rattle.vx_plan_facts.specs.Facts.{AreFactsOf, StandAt, AreNumbered};
ghost use Rattle.vx_plan_facts.specs.FactsView.{facts_of};
ghost use Rattle.vx_plan_nodes.specs.Outline.{outline_of, plan_of, top, size_of, part_of, claim_of, kind_of, route_of, unary_of, binary_of, phase_of, columns_of};
ghost use Rattle.vx_plan_nodes.specs.TypedView.{names_in};
ghost use Rattle.vx_check_rules.specs.CheckedView.{typed_plan};
ghost use Rattle.vx_check_formats.specs.Json.{keys_json, names_json, type_json, types_json, size_json, routed_json, part_json, with_claim, phase_word, unary_word, binary_word, op_word, with_operator, inputs, with_workers, with_output, with_route, with_kind, with_exchange, node_json, nodes_json, with_derive, plan_json};

use crate::columns::{Members, columns_json, order_json, put_text, text_json};
use crate::facts::put_facts;
use crate::words::{route_name, route_word};
use serde_json::{Map, Value as Json, put};
use std::alloc::{AllocError, Global};
use vx_check::{column_names, description, name_at};
use vx_check_rules::CheckedPlan;
use vx_plan_facts::{ColumnFacts, column_facts};
use vx_plan_nodes::{
    Binary, Claim, Columns, Exchange, ExchangeKind, Name, Part, Phase, Route, Size, SortPhase,
    TypedNode, TypedPlan, Unary,
};
use vx_rows_values::ColType;

fn keys_json(alloc: Global, names: &[Name], keys: &[Vec<usize>]) -> Result<Json, AllocError>
    ensures { IfOk result (λ d. view d ≡ keys_json names.now (map (λ k. k.items) keys.now)) }
{
    let mut list = Vec::new(alloc);
    for key in keys {
        list.push(columns_json(alloc, names, key.as_slice())?)?;
    }
    Ok(Json::Array(list))
}

fn names_json(alloc: Global, names: &[Name]) -> Result<Json, AllocError>
    ensures { IfOk result (λ d. view d ≡ names_json names.now) }
{
    let mut list = Vec::new(alloc);
    for name in names {
        list.push(Json::String(name.to_text(alloc)?))?;
    }
    Ok(Json::Array(list))
}

fn type_json(alloc: Global, kind: ColType) -> Result<Json, AllocError>
    ensures { IfOk result (λ d. view d ≡ type_json kind) }
{
    match kind {
        ColType::Int => text_json(alloc, "int"),
        ColType::Text => text_json(alloc, "text"),
    }
}

fn types_json(alloc: Global, types: &[ColType]) -> Result<Json, AllocError>
    ensures { IfOk result (λ d. view d ≡ types_json types.now) }
{
    let mut list = Vec::new(alloc);
    for kind in types {
        list.push(type_json(alloc, *kind)?)?;
    }
    Ok(Json::Array(list))
}

fn size_json(alloc: Global, plan: &TypedPlan, size: Size) -> Result<Json, AllocError>
    ensures { IfOk result (λ d. view d ≡ size_json (names_in plan.now) (size_of size)) }
{
    match size {
        Size::One => Ok(Json::from(1u32)),
        Size::Group(size) => text_json(alloc, name_at(plan.sizes(), size)),
    }
}

// A route by its kind, and the columns by which it sends.
fn routed_json(
    alloc: Global,
    plan: &TypedPlan,
    names: &[Name],
    route: &Route,
    columns: &[usize],
) -> Result<Json, AllocError>
    ensures { IfOk result (λ d. view d ≡ routed_json (names_in plan.now) names.now (route_of route.now) columns.now) }
{
    let mut members = Map::new(alloc);
    put_text(
        &mut members,
        alloc,
        route_word(route),
        route_name(plan, route),
    )?;
    put(
        &mut members,
        alloc,
        "columns",
        columns_json(alloc, names, columns)?,
    )?;
    Ok(Json::Object(members))
}

fn part_json(
    alloc: Global,
    plan: &TypedPlan,
    names: &[Name],
    part: &Part,
) -> Result<Json, AllocError>
    ensures { IfOk result (λ d. view d ≡ part_json (names_in plan.now) names.now (part_of part.now)) }
{
    match part {
        Part::One => text_json(alloc, "one"),
        Part::Any => text_json(alloc, "any"),
        Part::All => text_json(alloc, "all"),
        Part::Routed(route, columns) => routed_json(alloc, plan, names, route, columns.as_slice()),
    }
}

// A claim on an output whose columns have these names.
fn put_claim(
    members: &mut Members,
    alloc: Global,
    plan: &TypedPlan,
    names: &[Name],
    claim: &Claim,
) -> Result<(), AllocError>
    ensures { OnOk result (members_view members.new.entries ≡ with_claim (names_in plan.now) names.now (claim_of claim.now) (members_view members.old.entries)) }
{
    put(
        members,
        alloc,
        "part",
        part_json(alloc, plan, names, &claim.part)?,
    )?;
    put(
        members,
        alloc,
        "order",
        order_json(alloc, names, claim.order.as_slice())?,
    )?;
    put(
        members,
        alloc,
        "keys",
        keys_json(alloc, names, claim.keys.as_slice())?,
    )
}

fn phase_word(phase: Phase) -> &'static str
    ensures { result.now ≡ phase_word (phase_of phase) }
{
    match phase {
        Phase::Plain => "group",
        Phase::Partial => "partial-group",
        Phase::Final => "final-group",
    }
}

fn unary_word(operator: &Unary) -> &'static str
    ensures { result.now ≡ unary_word (unary_of operator.now) }
{
    match operator {
        Unary::Select(_) => "select",
        Unary::Project(_) => "project",
        Unary::Distinct(_) => "distinct",
        Unary::Sort(SortPhase::Plain, _) => "sort",
        Unary::Sort(SortPhase::Partial, _) => "partial-sort",
        Unary::Group(phase, _, _) => phase_word(*phase),
        Unary::Limit(_) => "limit",
    }
}

fn binary_word(operator: &Binary) -> &'static str
    ensures { result.now ≡ binary_word (binary_of operator.now) }
{
    match operator {
        Binary::Union => "union",
        Binary::HashJoin(_) => "hash-join",
        Binary::MergeJoin(_, _) => "merge-join",
        Binary::SemiJoin(_, _) => "hash-semi-join",
        Binary::AntiJoin(_, _) => "hash-anti-join",
    }
}

/// The node's operator in a word.
pub fn op_word(node: &TypedNode) -> &'static str
    ensures { result.now ≡ op_word (outline_of node.now) }
{
    match node {
        TypedNode::Scan(_, _) => "scan",
        TypedNode::Unary(_, operator, _) => unary_word(operator),
        TypedNode::Binary(_, operator, _, _) => binary_word(operator),
        TypedNode::Exchange(_, _, _) => "exchange",
    }
}

// The node's number, its operator in a word, and what it does in the words of the text that explains the plan.
fn put_operator(
    members: &mut Members,
    alloc: Global,
    plan: &TypedPlan,
    node: &TypedNode,
) -> Result<(), AllocError>
    ensures { OnOk result (members_view members.new.entries ≡ with_operator (names_in plan.now) (outline_of node.now) (members_view members.old.entries)) }
{
    put(members, alloc, "number", Json::from(node.head().number))?;
    put_text(members, alloc, "op", op_word(node))?;
    put_text(
        members,
        alloc,
        "text",
        description(alloc, plan, node)?.as_str(),
    )
}

// Adds the number of a node.
fn push_number(list: &mut Vec<Json>, node: &TypedNode) -> Result<(), AllocError>
    ensures { OnOk result (map view list.new.items ≡ map view list.old.items ++ (number (unsigned (top (outline_of node.now)).number) ∷ [])) }
{
    list.push(Json::from(node.head().number))?;
    Ok(())
}

// Adds the numbers of the nodes below, left before right.
fn push_inputs(list: &mut Vec<Json>, node: &TypedNode) -> Result<(), AllocError>
    ensures { OnOk result (map view list.new.items ≡ map view list.old.items ++ map (λ n. number (unsigned n)) (inputs (outline_of node.now))) }
{
    match node {
        TypedNode::Scan(_, _) => Ok(()),
        TypedNode::Unary(_, _, input) => push_number(list, input),
        TypedNode::Binary(_, _, left, right) => {
            push_number(list, left)?;
            push_number(list, right)
        }
        TypedNode::Exchange(_, _, input) => push_number(list, input),
    }
}

// The nodes below, and how many workers have the node's rows.
fn put_workers(
    members: &mut Members,
    alloc: Global,
    plan: &TypedPlan,
    node: &TypedNode,
) -> Result<(), AllocError>
    ensures { OnOk result (members_view members.new.entries ≡ with_workers (names_in plan.now) (outline_of node.now) (members_view members.old.entries)) }
{
    let mut inputs = Vec::new(alloc);
    push_inputs(&mut inputs, node)?;
    put(members, alloc, "inputs", Json::Array(inputs))?;
    put(
        members,
        alloc,
        "workers",
        size_json(alloc, plan, node.size())?,
    )
}

// The names and the types of the output's columns.
fn put_output(members: &mut Members, alloc: Global, columns: &Columns) -> Result<(), AllocError>
    ensures { OnOk result (members_view members.new.entries ≡ with_output (columns_of columns.now) (members_view members.old.entries)) }
{
    put(
        members,
        alloc,
        "output",
        names_json(alloc, columns.names.as_slice())?,
    )?;
    put(
        members,
        alloc,
        "types",
        types_json(alloc, columns.types.as_slice())?,
    )
}

fn put_route(
    members: &mut Members,
    alloc: Global,
    plan: &TypedPlan,
    inputs: &[Name],
    route: &Route,
    columns: &[usize],
) -> Result<(), AllocError>
    ensures { OnOk result (members_view members.new.entries ≡ with_route (names_in plan.now) inputs.now (route_of route.now) columns.now (members_view members.old.entries)) }
{
    put_text(members, alloc, "kind", route_word(route))?;
    put_text(members, alloc, "route", route_name(plan, route))?;
    put(
        members,
        alloc,
        "columns",
        columns_json(alloc, inputs, columns)?,
    )
}

fn put_kind(
    members: &mut Members,
    alloc: Global,
    plan: &TypedPlan,
    inputs: &[Name],
    kind: &ExchangeKind,
) -> Result<(), AllocError>
    ensures { OnOk result (members_view members.new.entries ≡ with_kind (names_in plan.now) inputs.now (kind_of kind.now) (members_view members.old.entries)) }
{
    match kind {
        ExchangeKind::Route(_, route, columns) => {
            put_route(members, alloc, plan, inputs, route, columns.as_slice())
        }
        ExchangeKind::Round(_) => put_text(members, alloc, "kind", "round"),
        ExchangeKind::Broadcast(_) => put_text(members, alloc, "kind", "broadcast"),
        ExchangeKind::Gather => put_text(members, alloc, "kind", "gather"),
        ExchangeKind::Concat => put_text(members, alloc, "kind", "concat"),
    }
}

// How an exchange sends and by which order it merges. Other nodes do neither.
fn put_exchange(
    members: &mut Members,
    alloc: Global,
    plan: &TypedPlan,
    node: &TypedNode,
) -> Result<(), AllocError>
    ensures { OnOk result (members_view members.new.entries ≡ with_exchange (names_in plan.now) (outline_of node.now) (members_view members.old.entries)) }
{
    match node {
        TypedNode::Scan(_, _) => Ok(()),
        TypedNode::Unary(_, _, _) => Ok(()),
        TypedNode::Binary(_, _, _, _) => Ok(()),
        TypedNode::Exchange(_, exchange, input) => {
            let names = column_names(input);
            put_kind(members, alloc, plan, names, &exchange.kind)?;
            put(
                members,
                alloc,
                "merge",
                order_json(alloc, names, exchange.merge.as_slice())?,
            )
        }
    }
}

#[tactic(auto, unfolding(crate::specs::Json::node_json))]
fn node_json(
    alloc: Global,
    plan: &TypedPlan,
    node: &TypedNode,
    facts: &ColumnFacts<'_>,
) -> Result<Json, AllocError>
    requires { AreFactsOf (relation_at (names_in plan.now).catalog) (plan_of node.now) (facts_of facts.now) }
    ensures { IfOk result (λ d. view d ≡ node_json (names_in plan.now) (outline_of node.now)) }
{
    let mut members = Map::new(alloc);
    put_operator(&mut members, alloc, plan, node)?;
    put_workers(&mut members, alloc, plan, node)?;
    let names = column_names(node);
    put_claim(&mut members, alloc, plan, names, &node.head().claim)?;
    put_facts(&mut members, alloc, names, facts)?;
    put_output(&mut members, alloc, &node.head().columns)?;
    put_exchange(&mut members, alloc, plan, node)?;
    Ok(Json::Object(members))
}

fn push_node(
    list: &mut Vec<Json>,
    alloc: Global,
    plan: &TypedPlan,
    node: &TypedNode,
    facts: &[ColumnFacts<'_>],
) -> Result<(), AllocError>
    requires { StandAt (relation_at (names_in plan.now).catalog) (map facts_of facts.now) (plan_of node.now) }
    ensures { OnOk result (map view list.new.items ≡ map view list.old.items ++ (node_json (names_in plan.now) (outline_of node.now) ∷ [])) }
{
    list.push(node_json(alloc, plan, node, &facts[node.head().number as usize])?)?;
    Ok(())
}

// Adds the node, and then those below it, of which the facts stand by their numbers.
fn push_nodes(
    list: &mut Vec<Json>,
    alloc: Global,
    plan: &TypedPlan,
    node: &TypedNode,
    facts: &[ColumnFacts<'_>],
) -> Result<(), AllocError>
    requires { AreNumbered (relation_at (names_in plan.now).catalog) (map facts_of facts.now) (plan_of node.now) }
    ensures { OnOk result (map view list.new.items ≡ map view list.old.items ++ nodes_json (names_in plan.now) (outline_of node.now)) }
{
    push_node(list, alloc, plan, node, facts)?;
    match node {
        TypedNode::Scan(_, _) => Ok(()),
        TypedNode::Unary(_, _, input) => push_nodes(list, alloc, plan, input, facts),
        TypedNode::Binary(_, _, left, right) => {
            push_nodes(list, alloc, plan, left, facts)?;
            push_nodes(list, alloc, plan, right, facts)
        }
        TypedNode::Exchange(_, _, input) => push_nodes(list, alloc, plan, input, facts),
    }
}

// That the plan asks for what is known of columns, if it does.
fn put_derive(members: &mut Members, alloc: Global, derives: bool) -> Result<(), AllocError>
    ensures { OnOk result (members_view members.new.entries ≡ with_derive derives (members_view members.old.entries)) }
{
    if !derives {
        return Ok(());
    }
    put(members, alloc, "derive", Json::Bool(true))
}

// The nodes in preorder, whether the plan's order is total, and whether it asks for what is known of columns.
fn plan_json(alloc: Global, plan: &TypedPlan) -> Result<Json, AllocError>
    ensures { IfOk result (λ d. view d ≡ plan_json plan.now) }
{
    let facts = column_facts(alloc, plan)?;
    let mut nodes = Vec::new(alloc);
    push_nodes(&mut nodes, alloc, plan, plan.root(), facts.as_slice())?;
    let mut members = Map::new(alloc);
    put(&mut members, alloc, "nodes", Json::Array(nodes))?;
    put(&mut members, alloc, "total", Json::Bool(plan.is_total()))?;
    put_derive(&mut members, alloc, plan.derives())?;
    Ok(Json::Object(members))
}

// The plan as JSON.
fn plan_text(alloc: Global, plan: &TypedPlan) -> Result<String, AllocError>
    ensures text { IfOk result (λ s. string_bytes s ≡ compact_text (plan_json plan.now)) }
    ensures reads { IfOk result (λ s. read (string_bytes s) ≡ Some (plan_json plan.now)) }
{
    plan_json(alloc, plan)?.to_string(alloc)
}

/// The plan as one line of JSON: an object for each node, in the order of the lines of the text that explains it, and
/// whether the plan is total, and whether it asks for what is known of columns. The line reads as that value.
pub fn explain_json(alloc: Global, checked: &CheckedPlan) -> Result<String, AllocError>
    ensures text { IfOk result (λ s. string_bytes s ≡ compact_text (plan_json (typed_plan checked.now)) ++ codes "\n") }
    ensures reads { IfOk result (λ s. read (compact_text (plan_json (typed_plan checked.now))) ≡ Some (plan_json (typed_plan checked.now))) }
{
    let mut text = plan_text(alloc, checked.plan())?;
    text.push_str("\n")?;
    Ok(text)
}
