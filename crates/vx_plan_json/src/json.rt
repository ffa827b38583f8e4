//! A plan as JSON.

ghost use Rattle.std.specs.Prelude.{◌≡◌, ℕ, List, map, true, string_bytes, codes, Ok, IfOk, OnOk};
ghost use Rattle.serde_json.specs.Data.{object, string, no_members, put};
ghost use Rattle.serde_json.specs.View.{view, items_of, members_view};
ghost use Rattle.serde_json.specs.Written.{compact_text};
ghost use Rattle.vx_catalog_json.specs.Look.{OrderText};
ghost use Rattle.vx_rows_values.specs.Values.{Name, Val};
ghost use Rattle.vx_rows_values.specs.ValueView.{val_of};
ghost use Rattle.vx_plan_json.specs.Document.{hash_part, range_part, part_form, claim_form, side_form, ConditionForm, condition_form, OutputForm, output_form, operand_value, operand_form, FilterForm, filter_form, EntryForm, entry_form, made, function_form, AggregateForm, aggregate_form, scan_form, unary_form, pair_form, binary_form, kind_form, tree_of};
ghost use Rattle.vx_rows_values.specs.Ranges.{RangeForm, range_form};
ghost use Rattle.vx_plan_json.specs.PlanView.{document_of};
ghost use Rattle.vx_plan_json.specs.Reading.{document_of_text};
ghost use Rattle.vx_plan_json.specs.Written.{names_json, entry_json, order_json, list_json, value_json, with_some, with_text, range_json, part_json, with_part, claim_members, with_object, with_claim, with_side, condition_json, output_json, with_applied, with_typed, with_constant, type_text, operand_json, answer_json, filter_json, with_operand, projected_json, with_function, with_call, aggregate_json, pair_json, scan_json, unary_json, binary_json, exchange_json, node_json, with_flag, document_json};

use crate::document::Plan;
use crate::operators::{put_binary, put_kind, put_scan, put_unary};
use crate::plan::{
    NamedAggregate, NamedBinary, NamedClaim, NamedCondition, NamedEntry, NamedFilter,
    NamedFunction, NamedKind, NamedOperand, NamedOutput, NamedPart, NamedScan, NamedSide,
    NamedUnary, Node,
};
use serde_json::{Map, Value as Json, put};
use std::alloc::{AllocError, Global};
use vx_catalog_json::OrderText;
use vx_rows_values::{ColType, NamedRange, Value};

/// The members of an object.
pub type Members = Map<String, Json>;

/// What has a form in JSON.
pub trait ToJson {
    ghost use Rattle.std.specs.Prelude.{◌≡◌, IfOk};
    ghost use Rattle.serde_json.specs.Data.{Data};
    ghost use Rattle.serde_json.specs.View.{view};

    ghost Form: { Type 0 };

    ghost look: { Self → Form };

    ghost json: { Form → Data };

    /// The JSON value of it.
    fn to_value(&self, alloc: Global) -> Result<Json, AllocError>
        ensures { IfOk result (λ d. view d ≡ json (look self.now)) };
}

fn list_json<T: ToJson>(alloc: Global, items: &[T]) -> Result<Json, AllocError>
    ensures { IfOk result (λ d. view d ≡ list_json T.json (map T.look items.now)) }
{
    let mut list = Vec::new(alloc);
    for item in items {
        list.push(item.to_value(alloc)?)?;
    }
    Ok(Json::Array(list))
}

/// A list as a member.
pub fn put_list<T: ToJson>(
    members: &mut Members,
    alloc: Global,
    key: &str,
    items: &[T],
) -> Result<(), AllocError>
    ensures { OnOk result (members_view members.new.entries ≡ put key.now (list_json T.json (map T.look items.now)) (members_view members.old.entries)) }
{
    put(members, alloc, key, list_json(alloc, items)?)
}

/// A list as a member, unless it is empty.
pub fn put_some<T: ToJson>(
    members: &mut Members,
    alloc: Global,
    key: &str,
    items: &[T],
) -> Result<(), AllocError>
    ensures { OnOk result (members_view members.new.entries ≡ with_some key.now T.json (map T.look items.now) (members_view members.old.entries)) }
{
    if items.is_empty() {
        return Ok(());
    }
    put_list(members, alloc, key, items)
}

fn text(alloc: Global, text: &str) -> Result<Json, AllocError>
    ensures { IfOk result (λ d. view d ≡ string text.now) }
{
    Ok(Json::String(String::from_str(alloc, text)?))
}

impl ToJson for String {
    ghost Form = { List ℕ };

    ghost look = { string_bytes };

    ghost json = { string };

    fn to_value(&self, alloc: Global) -> Result<Json, AllocError> {
        text(alloc, self.as_str())
    }
}

impl ToJson for Vec<String> {
    ghost Form = { List (List ℕ) };

    ghost look = { λ k. map string_bytes k.items };

    ghost json = { names_json };

    fn to_value(&self, alloc: Global) -> Result<Json, AllocError> {
        list_json(alloc, self.as_slice())
    }
}

/// A text as a member.
pub fn put_text(
    members: &mut Members,
    alloc: Global,
    key: &str,
    value: &str,
) -> Result<(), AllocError>
    ensures { OnOk result (members_view members.new.entries ≡ with_text key.now value.now (members_view members.old.entries)) }
{
    put(members, alloc, key, text(alloc, value)?)
}

// The name of a column that falls, in an object that says so.
fn falling_json(alloc: Global, name: &str) -> Result<Json, AllocError>
    ensures { IfOk result (λ d. view d ≡ entry_json (record { name = name.now; falling = true })) }
{
    let mut members = Map::new(alloc);
    put_text(&mut members, alloc, "column", name)?;
    put(&mut members, alloc, "desc", Json::Bool(true))?;
    Ok(Json::Object(members))
}

impl ToJson for OrderText {
    ghost Form = { OrderText };

    ghost look = { λ e. e };

    ghost json = { entry_json };

    fn to_value(&self, alloc: Global) -> Result<Json, AllocError> {
        if self.falling {
            falling_json(alloc, self.name.as_str())
        } else {
            text(alloc, self.name.as_str())
        }
    }
}

/// An order as a member.
#[tactic(auto, using(crate::proofs::OrderFacts::same_order))]
pub fn put_order(
    members: &mut Members,
    alloc: Global,
    key: &str,
    order: &[OrderText],
) -> Result<(), AllocError>
    ensures { OnOk result (members_view members.new.entries ≡ put key.now (order_json order.now) (members_view members.old.entries)) }
{
    put_list(members, alloc, key, order)
}

/// An order as a member, unless it is empty.
#[tactic(auto, using(crate::proofs::OrderFacts::same_order))]
pub fn put_some_order(
    members: &mut Members,
    alloc: Global,
    key: &str,
    order: &[OrderText],
) -> Result<(), AllocError>
    ensures { OnOk result (members_view members.new.entries ≡ with_some key.now entry_json order.now (members_view members.old.entries)) }
{
    put_some(members, alloc, key, order)
}

impl ToJson for Value {
    ghost Form = { Val };

    ghost look = { val_of };

    ghost json = { value_json };

    fn to_value(&self, alloc: Global) -> Result<Json, AllocError> {
        match self {
            Value::Int(number) => Ok(Json::from(*number)),
            Value::Text(s) => text(alloc, s.as_str()),
        }
    }
}

impl ToJson for NamedRange {
    ghost Form = { RangeForm };

    ghost look = { range_form };

    ghost json = { range_json };

    fn to_value(&self, alloc: Global) -> Result<Json, AllocError> {
        let mut members = Map::new(alloc);
        put_text(&mut members, alloc, "name", self.name.as_str())?;
        put_list(&mut members, alloc, "bounds", self.bounds.as_slice())?;
        Ok(Json::Object(members))
    }
}

fn hash_part_json(alloc: Global, route: &str, columns: &[String]) -> Result<Json, AllocError>
    ensures { IfOk result (λ d. view d ≡ part_json (hash_part route.now (map string_bytes columns.now))) }
{
    let mut members = Map::new(alloc);
    put_text(&mut members, alloc, "hash", route)?;
    put_list(&mut members, alloc, "columns", columns)?;
    Ok(Json::Object(members))
}

fn range_part_json(alloc: Global, range: &str, column: &str) -> Result<Json, AllocError>
    ensures { IfOk result (λ d. view d ≡ part_json (range_part range.now column.now)) }
{
    let mut members = Map::new(alloc);
    put_text(&mut members, alloc, "range", range)?;
    put_text(&mut members, alloc, "column", column)?;
    Ok(Json::Object(members))
}

fn part_json(alloc: Global, part: &NamedPart) -> Result<Json, AllocError>
    ensures { IfOk result (λ d. view d ≡ part_json (part_form part.now)) }
{
    match part {
        NamedPart::One => text(alloc, "one"),
        NamedPart::Any => text(alloc, "any"),
        NamedPart::All => text(alloc, "all"),
        NamedPart::Hash { route, columns } => {
            hash_part_json(alloc, route.as_str(), columns.as_slice())
        }
        NamedPart::Range { range, column } => {
            range_part_json(alloc, range.as_str(), column.as_str())
        }
    }
}

// The part, unless it is any.
fn put_part(members: &mut Members, alloc: Global, part: &NamedPart) -> Result<(), AllocError>
    ensures { OnOk result (members_view members.new.entries ≡ with_part (part_form part.now) (members_view members.old.entries)) }
{
    if matches!(part, NamedPart::Any) {
        return Ok(());
    }
    put(members, alloc, "part", part_json(alloc, part)?)
}

fn claim_members(alloc: Global, claim: &NamedClaim) -> Result<Members, AllocError>
    ensures { IfOk result (λ m. members_view m.entries ≡ claim_members (claim_form claim.now)) }
{
    let mut own = Map::new(alloc);
    put_part(&mut own, alloc, &claim.part)?;
    put_some_order(&mut own, alloc, "order", claim.order.as_slice())?;
    put_some(&mut own, alloc, "keys", claim.keys.as_slice())?;
    Ok(own)
}

// An object of these members, unless there are none.
fn put_object(
    members: &mut Members,
    alloc: Global,
    key: &str,
    own: Members,
) -> Result<(), AllocError>
    ensures { OnOk result (members_view members.new.entries ≡ with_object key.now (members_view own.entries) (members_view members.old.entries)) }
{
    if own.is_empty() {
        return Ok(());
    }
    put(members, alloc, key, Json::Object(own))
}

// The claim of a node, unless it is any part without order and keys.
fn put_claim(members: &mut Members, alloc: Global, claim: &NamedClaim) -> Result<(), AllocError>
    ensures { OnOk result (members_view members.new.entries ≡ with_claim (claim_form claim.now) (members_view members.old.entries)) }
{
    put_object(members, alloc, "claim", claim_members(alloc, claim)?)
}

fn put_side(members: &mut Members, alloc: Global, side: &NamedSide) -> Result<(), AllocError>
    ensures { OnOk result (members_view members.new.entries ≡ with_side (side_form side.now) (members_view members.old.entries)) }
{
    match side {
        NamedSide::Column(name) => put_text(members, alloc, "column2", name.as_str()),
        NamedSide::Constant(value) => put(members, alloc, "value", value.to_value(alloc)?),
    }
}

impl ToJson for NamedCondition {
    ghost Form = { ConditionForm };

    ghost look = { condition_form };

    ghost json = { condition_json };

    fn to_value(&self, alloc: Global) -> Result<Json, AllocError> {
        let mut members = Map::new(alloc);
        put_text(&mut members, alloc, "column", self.left.as_str())?;
        put_text(&mut members, alloc, "op", self.test.text())?;
        put_side(&mut members, alloc, &self.right)?;
        Ok(Json::Object(members))
    }
}

impl ToJson for NamedOutput {
    ghost Form = { OutputForm };

    ghost look = { output_form };

    ghost json = { output_json };

    fn to_value(&self, alloc: Global) -> Result<Json, AllocError> {
        let Some(name) = &self.renamed else {
            return text(alloc, self.column.as_str());
        };
        let mut members = Map::new(alloc);
        put_text(&mut members, alloc, "column", self.column.as_str())?;
        put_text(&mut members, alloc, "as", name.as_str())?;
        Ok(Json::Object(members))
    }
}

fn type_text(kind: ColType) -> &'static str
    ensures { result.now ≡ type_text kind }
{
    match kind {
        ColType::Int => "int",
        ColType::Text => "text",
    }
}

// A function and its operands.
fn put_applied(
    members: &mut Members,
    alloc: Global,
    name: &str,
    operands: Vec<Json>,
) -> Result<(), AllocError>
    ensures { OnOk result (members_view members.new.entries ≡ with_applied name.now (items_of (map view operands.items)) (members_view members.old.entries)) }
{
    put_text(members, alloc, "fn", name)?;
    put(members, alloc, "of", Json::Array(operands))
}

// The type of its answer, too.
fn put_typed(
    members: &mut Members,
    alloc: Global,
    name: &str,
    answer: ColType,
    operands: Vec<Json>,
) -> Result<(), AllocError>
    ensures { OnOk result (members_view members.new.entries ≡ with_typed name.now answer (items_of (map view operands.items)) (members_view members.old.entries)) }
{
    put_applied(members, alloc, name, operands)?;
    put_text(members, alloc, "type", type_text(answer))
}

fn put_constant(members: &mut Members, alloc: Global, value: &Value) -> Result<(), AllocError>
    ensures { OnOk result (members_view members.new.entries ≡ with_constant (val_of value.now) (members_view members.old.entries)) }
{
    put(members, alloc, "value", value.to_value(alloc)?)
}

fn constant_json(alloc: Global, value: &Value) -> Result<Json, AllocError>
    ensures { IfOk result (λ d. view d ≡ operand_json (operand_value (val_of value.now))) }
{
    let mut members = Map::new(alloc);
    put_constant(&mut members, alloc, value)?;
    Ok(Json::Object(members))
}

fn call_json(
    alloc: Global,
    name: &str,
    answer: ColType,
    operands: Vec<Json>,
) -> Result<Json, AllocError>
    ensures { IfOk result (λ d. view d ≡ object (with_typed name.now answer (items_of (map view operands.items)) no_members)) }
{
    let mut members = Map::new(alloc);
    put_typed(&mut members, alloc, name, answer, operands)?;
    Ok(Json::Object(members))
}

// An operand: the name of a column, or an object.
#[cycle(operands)]
fn operand_json(alloc: Global, operand: &NamedOperand) -> Result<Json, AllocError>
    ensures { IfOk result (λ d. view d ≡ operand_json (operand_form operand.now)) }
{
    match operand {
        NamedOperand::Column(name) => text(alloc, name.as_str()),
        NamedOperand::Constant(value) => constant_json(alloc, value),
        NamedOperand::Call(name, answer, operands) => {
            let list = operands_json(alloc, operands.as_slice())?;
            call_json(alloc, name.as_str(), *answer, list)
        }
    }
}

#[cycle(operands)]
fn operands_json(alloc: Global, operands: &[NamedOperand]) -> Result<Vec<Json>, AllocError>
    ensures { IfOk result (λ v. map view v.items ≡ map (λ o. operand_json (operand_form o)) operands.now) }
{
    let mut list = Vec::new(alloc);
    for operand in operands {
        list.push(operand_json(alloc, operand)?)?;
    }
    Ok(list)
}

// What is computed, as members.
fn put_operand(
    members: &mut Members,
    alloc: Global,
    operand: &NamedOperand,
) -> Result<(), AllocError>
    ensures { OnOk result (members_view members.new.entries ≡ with_operand (operand_form operand.now) (members_view members.old.entries)) }
{
    match operand {
        NamedOperand::Column(name) => put_text(members, alloc, "column", name.as_str()),
        NamedOperand::Constant(value) => put_constant(members, alloc, value),
        NamedOperand::Call(name, answer, operands) => {
            let list = operands_json(alloc, operands.as_slice())?;
            put_typed(members, alloc, name.as_str(), *answer, list)
        }
    }
}

// A function that is a condition, without the type of its answer.
fn answer_json(alloc: Global, operand: &NamedOperand) -> Result<Json, AllocError>
    ensures { IfOk result (λ d. view d ≡ answer_json (operand_form operand.now)) }
{
    let NamedOperand::Call(name, _, operands) = operand else {
        return operand_json(alloc, operand);
    };
    let mut members = Map::new(alloc);
    let list = operands_json(alloc, operands.as_slice())?;
    put_applied(&mut members, alloc, name.as_str(), list)?;
    Ok(Json::Object(members))
}

impl ToJson for NamedFilter {
    ghost Form = { FilterForm };

    ghost look = { filter_form };

    ghost json = { filter_json };

    fn to_value(&self, alloc: Global) -> Result<Json, AllocError> {
        match self {
            NamedFilter::Compared(condition) => condition.to_value(alloc),
            NamedFilter::Computed(operand) => answer_json(alloc, operand),
        }
    }
}

fn made_json(alloc: Global, operand: &NamedOperand, name: &str) -> Result<Json, AllocError>
    ensures { IfOk result (λ d. view d ≡ projected_json (made (operand_form operand.now) name.now)) }
{
    let mut members = Map::new(alloc);
    put_operand(&mut members, alloc, operand)?;
    put_text(&mut members, alloc, "as", name)?;
    Ok(Json::Object(members))
}

impl ToJson for NamedEntry {
    ghost Form = { EntryForm };

    ghost look = { entry_form };

    ghost json = { projected_json };

    fn to_value(&self, alloc: Global) -> Result<Json, AllocError> {
        match self {
            NamedEntry::Kept(output) => output.to_value(alloc),
            NamedEntry::Made(operand, name) => made_json(alloc, operand, name.as_str()),
        }
    }
}

// An aggregate over a column.
fn put_call(
    members: &mut Members,
    alloc: Global,
    name: &str,
    column: &str,
) -> Result<(), AllocError>
    ensures { OnOk result (members_view members.new.entries ≡ with_call name.now column.now (members_view members.old.entries)) }
{
    put_text(members, alloc, "fn", name)?;
    put_text(members, alloc, "column", column)
}

fn put_function(
    members: &mut Members,
    alloc: Global,
    function: &NamedFunction,
) -> Result<(), AllocError>
    ensures { OnOk result (members_view members.new.entries ≡ with_function (function_form function.now) (members_view members.old.entries)) }
{
    match function {
        NamedFunction::Least(column) => put_call(members, alloc, "min", column.as_str()),
        NamedFunction::Greatest(column) => put_call(members, alloc, "max", column.as_str()),
        NamedFunction::Sum(column) => put_call(members, alloc, "sum", column.as_str()),
        NamedFunction::CountRows => put_text(members, alloc, "fn", "count"),
    }
}

impl ToJson for NamedAggregate {
    ghost Form = { AggregateForm };

    ghost look = { aggregate_form };

    ghost json = { aggregate_json };

    fn to_value(&self, alloc: Global) -> Result<Json, AllocError> {
        let mut members = Map::new(alloc);
        put_function(&mut members, alloc, &self.function)?;
        put_text(&mut members, alloc, "as", self.name.as_str())?;
        Ok(Json::Object(members))
    }
}

impl ToJson for (String, String) {
    ghost Form = { Name × Name };

    ghost look = { pair_form };

    ghost json = { pair_json };

    fn to_value(&self, alloc: Global) -> Result<Json, AllocError> {
        let mut both = Vec::new(alloc);
        both.push(text(alloc, self.0.as_str())?)?;
        both.push(text(alloc, self.1.as_str())?)?;
        Ok(Json::Array(both))
    }
}

fn scan_json(alloc: Global, claim: &NamedClaim, scan: &NamedScan) -> Result<Json, AllocError>
    ensures { IfOk result (λ d. view d ≡ scan_json (claim_form claim.now) (scan_form scan.now)) }
{
    let mut members = Map::new(alloc);
    put_claim(&mut members, alloc, claim)?;
    put_scan(&mut members, alloc, scan)?;
    Ok(Json::Object(members))
}

fn unary_json(
    alloc: Global,
    claim: &NamedClaim,
    unary: &NamedUnary,
    input: Json,
) -> Result<Json, AllocError>
    ensures { IfOk result (λ d. view d ≡ unary_json (claim_form claim.now) (unary_form unary.now) (view input)) }
{
    let mut members = Map::new(alloc);
    put_claim(&mut members, alloc, claim)?;
    put_unary(&mut members, alloc, unary)?;
    put(&mut members, alloc, "input", input)?;
    Ok(Json::Object(members))
}

fn binary_json(
    alloc: Global,
    claim: &NamedClaim,
    binary: &NamedBinary,
    left: Json,
    right: Json,
) -> Result<Json, AllocError>
    ensures { IfOk result (λ d. view d ≡ binary_json (claim_form claim.now) (binary_form binary.now) (view left) (view right)) }
{
    let mut members = Map::new(alloc);
    put_claim(&mut members, alloc, claim)?;
    put_binary(&mut members, alloc, binary)?;
    put(&mut members, alloc, "left", left)?;
    put(&mut members, alloc, "right", right)?;
    Ok(Json::Object(members))
}

fn exchange_json(
    alloc: Global,
    claim: &NamedClaim,
    kind: &NamedKind,
    merge: &[OrderText],
    input: Json,
) -> Result<Json, AllocError>
    ensures { IfOk result (λ d. view d ≡ exchange_json (claim_form claim.now) (kind_form kind.now) merge.now (view input)) }
{
    let mut members = Map::new(alloc);
    put_claim(&mut members, alloc, claim)?;
    put_text(&mut members, alloc, "op", "exchange")?;
    put_kind(&mut members, alloc, kind)?;
    put_some_order(&mut members, alloc, "merge", merge)?;
    put(&mut members, alloc, "input", input)?;
    Ok(Json::Object(members))
}

fn node_json(alloc: Global, node: &Node) -> Result<Json, AllocError>
    ensures { IfOk result (λ d. view d ≡ node_json (tree_of node.now)) }
{
    match node {
        Node::Scan(claim, scan) => scan_json(alloc, claim, scan),
        Node::Unary(claim, unary, input) => {
            unary_json(alloc, claim, unary, node_json(alloc, input)?)
        }
        Node::Binary(claim, binary, left, right) => {
            let left = node_json(alloc, left)?;
            binary_json(alloc, claim, binary, left, node_json(alloc, right)?)
        }
        Node::Exchange(claim, kind, merge, input) => {
            let input = node_json(alloc, input)?;
            exchange_json(alloc, claim, kind, merge.as_slice(), input)
        }
    }
}

// True, unless the flag is false.
fn put_flag(members: &mut Members, alloc: Global, key: &str, flag: bool) -> Result<(), AllocError>
    ensures { OnOk result (members_view members.new.entries ≡ with_flag key.now flag (members_view members.old.entries)) }
{
    if !flag {
        return Ok(());
    }
    put(members, alloc, key, Json::Bool(true))
}

fn plan_json(alloc: Global, plan: &Plan) -> Result<Json, AllocError>
    ensures { IfOk result (λ d. view d ≡ document_json (document_of plan.now)) }
{
    let mut members = Map::new(alloc);
    put_some(&mut members, alloc, "sizes", plan.sizes())?;
    put_some(&mut members, alloc, "ranges", plan.ranges())?;
    put_flag(&mut members, alloc, "total", plan.is_total())?;
    put_flag(&mut members, alloc, "derive", plan.derives())?;
    put(&mut members, alloc, "root", node_json(alloc, plan.root())?)?;
    Ok(Json::Object(members))
}

fn claim_json(alloc: Global, claim: &NamedClaim) -> Result<Json, AllocError>
    ensures { IfOk result (λ d. view d ≡ object (claim_members (claim_form claim.now))) }
{
    Ok(Json::Object(claim_members(alloc, claim)?))
}

/// A claim as a plan document writes it.
pub fn claim_text(alloc: Global, claim: &NamedClaim) -> Result<String, AllocError>
    ensures { IfOk result (λ s. string_bytes s ≡ compact_text (object (claim_members (claim_form claim.now)))) }
{
    claim_json(alloc, claim)?.to_string(alloc)
}

/// The plan as a JSON text, without the members that have their defaults. It reads as the same plan.
pub fn to_json(alloc: Global, plan: &Plan) -> Result<String, AllocError>
    ensures text { IfOk result (λ s. string_bytes s ≡ compact_text (document_json (document_of plan.now))) }
    ensures reads_back { IfOk result (λ s. document_of_text (string_bytes s) ≡ Ok (document_of plan.now)) }
{
    plan_json(alloc, plan)?.to_string(alloc)
}
