//! What a line says of a node's operator.

ghost use Rattle.std.specs.Prelude.{◌≡◌, ◌++◌, map, option_map, string_bytes, OnOk, codes, decimal, false};
ghost use Rattle.vx_rows_values.specs.ValueView.{val_of};
ghost use Rattle.vx_plan_json.specs.Document.{side_form, condition_form, output_form, operand_form, filter_form, entry_form, function_form, aggregate_form, scan_form, unary_form, pair_form, binary_form, kind_form, tree_of};
ghost use Rattle.vx_plan_drawing.specs.Description.{separated, value_text, side_text, condition_text, operand_text, filter_text, renamed_text, kept_text, made_text, made_list, kept_list, function_text, aggregate_text, aggregates_text, group_text, unary_text, pair_text, where_text, binary_text, kind_text, merge_text, prefix_text, scan_text, description, target_name, size_name};

use crate::words::{push_between, push_hash, push_list, push_order, push_range};
use itoa::Buffer;
use std::alloc::{AllocError, Global};
use vx_catalog_json::OrderText;
use vx_plan_json::{
    NamedAggregate, NamedBinary, NamedCondition, NamedEntry, NamedFilter, NamedFunction, NamedKind,
    NamedOperand, NamedOutput, NamedScan, NamedSide, NamedUnary, Node,
};
use vx_rows_values::Value;

// Adds a number in plain decimal, or a text as `serde_json` writes it.
fn push_value(alloc: Global, text: &mut String, value: &Value) -> Result<(), AllocError>
    ensures { OnOk result (string_bytes text.new ≡ string_bytes text.old ++ value_text (val_of value.now)) }
{
    match value {
        Value::Int(number) => {
            let mut digits = Buffer::new();
            text.push_str(digits.format(*number))
        }
        Value::Text(bytes) => {
            let quoted = serde_json::Value::String(String::from_str(
                alloc,
                bytes.as_str(),
            )?).to_string(alloc)?;
            text.push_str(quoted.as_str())
        }
    }
}

fn push_side(alloc: Global, text: &mut String, side: &NamedSide) -> Result<(), AllocError>
    ensures { OnOk result (string_bytes text.new ≡ string_bytes text.old ++ side_text (side_form side.now)) }
{
    match side {
        NamedSide::Column(name) => text.push_str(name.as_str()),
        NamedSide::Constant(value) => push_value(alloc, text, value),
    }
}

fn push_condition(
    alloc: Global,
    text: &mut String,
    condition: &NamedCondition,
) -> Result<(), AllocError>
    ensures { OnOk result (string_bytes text.new ≡ string_bytes text.old ++ condition_text (condition_form condition.now)) }
{
    text.push_str(condition.left.as_str())?;
    text.push_str(" ")?;
    text.push_str(condition.test.text())?;
    text.push_str(" ")?;
    push_side(alloc, text, &condition.right)
}

fn push_conditions(
    alloc: Global,
    text: &mut String,
    conditions: &[NamedCondition],
) -> Result<(), AllocError>
    ensures { OnOk result (string_bytes text.new ≡ string_bytes text.old ++ separated (codes " and ") false (map condition_text (map condition_form conditions.now))) }
{
    for (i, condition) in conditions.iter().enumerate() {
        push_between(text, " and ", i > 0)?;
        push_condition(alloc, text, condition)?;
    }
    Ok(())
}

// Adds what is computed: of a function its name and its operands.
#[cycle(operands)]
fn push_operand(alloc: Global, text: &mut String, operand: &NamedOperand) -> Result<(), AllocError>
    ensures { OnOk result (string_bytes text.new ≡ string_bytes text.old ++ operand_text (operand_form operand.now)) }
{
    match operand {
        NamedOperand::Column(name) => text.push_str(name.as_str()),
        NamedOperand::Constant(value) => push_value(alloc, text, value),
        NamedOperand::Call(name, _, operands) => {
            push_call(alloc, text, name.as_str(), operands.as_slice())
        }
    }
}

// Adds a function's name, and its operands in brackets.
#[cycle(operands)]
fn push_call(
    alloc: Global,
    text: &mut String,
    name: &str,
    operands: &[NamedOperand],
) -> Result<(), AllocError>
    ensures { OnOk result (string_bytes text.new ≡ string_bytes text.old ++ (name.now ++ (codes "(" ++ (separated (codes ",") false (map operand_text (map operand_form operands.now)) ++ codes ")")))) }
{
    text.push_str(name)?;
    text.push_str("(")?;
    push_operands(alloc, text, operands)?;
    text.push_str(")")
}

#[cycle(operands)]
fn push_operands(
    alloc: Global,
    text: &mut String,
    operands: &[NamedOperand],
) -> Result<(), AllocError>
    ensures { OnOk result (string_bytes text.new ≡ string_bytes text.old ++ separated (codes ",") false (map operand_text (map operand_form operands.now))) }
{
    for (i, operand) in operands.iter().enumerate() {
        push_between(text, ",", i > 0)?;
        push_operand(alloc, text, operand)?;
    }
    Ok(())
}

fn push_filter(alloc: Global, text: &mut String, filter: &NamedFilter) -> Result<(), AllocError>
    ensures { OnOk result (string_bytes text.new ≡ string_bytes text.old ++ filter_text (filter_form filter.now)) }
{
    match filter {
        NamedFilter::Compared(condition) => push_condition(alloc, text, condition),
        NamedFilter::Computed(operand) => push_operand(alloc, text, operand),
    }
}

fn push_filters(alloc: Global, text: &mut String, filters: &[NamedFilter]) -> Result<(), AllocError>
    ensures { OnOk result (string_bytes text.new ≡ string_bytes text.old ++ separated (codes " and ") false (map filter_text (map filter_form filters.now))) }
{
    for (i, filter) in filters.iter().enumerate() {
        push_between(text, " and ", i > 0)?;
        push_filter(alloc, text, filter)?;
    }
    Ok(())
}

// Adds the new name of a column that is kept, if it has one.
fn push_renamed(text: &mut String, renamed: &Option<String>) -> Result<(), AllocError>
    ensures { OnOk result (string_bytes text.new ≡ string_bytes text.old ++ renamed_text (option_map string_bytes renamed.now)) }
{
    match renamed {
        Some(name) => {
            text.push_str(" as ")?;
            text.push_str(name.as_str())
        }
        None => Ok(()),
    }
}

fn push_kept_column(text: &mut String, output: &NamedOutput) -> Result<(), AllocError>
    ensures { OnOk result (string_bytes text.new ≡ string_bytes text.old ++ kept_text (output_form output.now)) }
{
    text.push_str(output.column.as_str())?;
    push_renamed(text, &output.renamed)
}

fn push_kept_columns(text: &mut String, outputs: &[NamedOutput]) -> Result<(), AllocError>
    ensures { OnOk result (string_bytes text.new ≡ string_bytes text.old ++ separated (codes ",") false (map kept_text (map output_form outputs.now))) }
{
    for (i, output) in outputs.iter().enumerate() {
        push_between(text, ",", i > 0)?;
        push_kept_column(text, output)?;
    }
    Ok(())
}

// Adds what is computed, and its name.
fn push_made(
    alloc: Global,
    text: &mut String,
    operand: &NamedOperand,
    name: &str,
) -> Result<(), AllocError>
    ensures { OnOk result (string_bytes text.new ≡ string_bytes text.old ++ (operand_text (operand_form operand.now) ++ (codes " as " ++ name.now))) }
{
    push_operand(alloc, text, operand)?;
    text.push_str(" as ")?;
    text.push_str(name)
}

fn push_entry(alloc: Global, text: &mut String, entry: &NamedEntry) -> Result<(), AllocError>
    ensures { OnOk result (string_bytes text.new ≡ string_bytes text.old ++ made_text (entry_form entry.now)) }
{
    match entry {
        NamedEntry::Kept(output) => push_kept_column(text, output),
        NamedEntry::Made(operand, name) => push_made(alloc, text, operand, name.as_str()),
    }
}

fn push_entries(alloc: Global, text: &mut String, entries: &[NamedEntry]) -> Result<(), AllocError>
    ensures { OnOk result (string_bytes text.new ≡ string_bytes text.old ++ separated (codes ",") false (map made_text (map entry_form entries.now))) }
{
    for (i, entry) in entries.iter().enumerate() {
        push_between(text, ",", i > 0)?;
        push_entry(alloc, text, entry)?;
    }
    Ok(())
}

// Adds the word of a projection and its columns, in brackets.
fn push_project(alloc: Global, text: &mut String, entries: &[NamedEntry]) -> Result<(), AllocError>
    ensures { OnOk result (string_bytes text.new ≡ string_bytes text.old ++ (codes "project [" ++ made_list (map entry_form entries.now))) }
{
    text.push_str("project [")?;
    push_entries(alloc, text, entries)?;
    text.push_str("]")
}

// Adds an operator's word and the columns that it keeps, in brackets.
fn push_kept(text: &mut String, word: &str, outputs: &[NamedOutput]) -> Result<(), AllocError>
    ensures { OnOk result (string_bytes text.new ≡ string_bytes text.old ++ (word.now ++ kept_list (map output_form outputs.now))) }
{
    text.push_str(word)?;
    push_kept_columns(text, outputs)?;
    text.push_str("]")
}

fn push_function(text: &mut String, function: &NamedFunction) -> Result<(), AllocError>
    ensures { OnOk result (string_bytes text.new ≡ string_bytes text.old ++ function_text (function_form function.now)) }
{
    let (word, column) = match function {
        NamedFunction::Least(column) => ("min(", column),
        NamedFunction::Greatest(column) => ("max(", column),
        NamedFunction::Sum(column) => ("sum(", column),
        NamedFunction::CountRows => return text.push_str("count()"),
    };
    text.push_str(word)?;
    text.push_str(column.as_str())?;
    text.push_str(")")
}

fn push_aggregate(text: &mut String, aggregate: &NamedAggregate) -> Result<(), AllocError>
    ensures { OnOk result (string_bytes text.new ≡ string_bytes text.old ++ aggregate_text (aggregate_form aggregate.now)) }
{
    push_function(text, &aggregate.function)?;
    text.push_str(" as ")?;
    text.push_str(aggregate.name.as_str())
}

fn push_aggregate_list(text: &mut String, aggregates: &[NamedAggregate]) -> Result<(), AllocError>
    ensures { OnOk result (string_bytes text.new ≡ string_bytes text.old ++ separated (codes ", ") false (map aggregate_text (map aggregate_form aggregates.now))) }
{
    for (i, aggregate) in aggregates.iter().enumerate() {
        push_between(text, ", ", i > 0)?;
        push_aggregate(text, aggregate)?;
    }
    Ok(())
}

// Adds aggregates behind a space, if there are any.
fn push_aggregates(text: &mut String, aggregates: &[NamedAggregate]) -> Result<(), AllocError>
    ensures { OnOk result (string_bytes text.new ≡ string_bytes text.old ++ aggregates_text (map aggregate_form aggregates.now)) }
{
    if aggregates.is_empty() {
        return Ok(());
    }
    text.push_str(" ")?;
    push_aggregate_list(text, aggregates)
}

// Adds a grouping's word, its key columns and its aggregates.
fn push_group(
    text: &mut String,
    word: &str,
    by: &[String],
    aggregates: &[NamedAggregate],
) -> Result<(), AllocError>
    ensures { OnOk result (string_bytes text.new ≡ string_bytes text.old ++ (word.now ++ group_text (map string_bytes by.now) (map aggregate_form aggregates.now))) }
{
    text.push_str(word)?;
    push_list(text, by)?;
    push_aggregates(text, aggregates)
}

// Adds the word of a final group, whose columns are those of its partial group.
fn push_final(text: &mut String) -> Result<(), AllocError>
    ensures { OnOk result (string_bytes text.new ≡ string_bytes text.old ++ codes "final-group") }
{
    text.push_str("final-group")
}

// Adds how many first rows a limit takes.
fn push_limit(text: &mut String, rows: u32) -> Result<(), AllocError>
    ensures { OnOk result (string_bytes text.new ≡ string_bytes text.old ++ (codes "limit " ++ decimal rows)) }
{
    let mut digits = Buffer::new();
    text.push_str("limit ")?;
    text.push_str(digits.format(rows))
}

// Adds an operator over one input.
fn push_unary(alloc: Global, text: &mut String, operator: &NamedUnary) -> Result<(), AllocError>
    ensures { OnOk result (string_bytes text.new ≡ string_bytes text.old ++ unary_text (unary_form operator.now)) }
{
    match operator {
        NamedUnary::Select(filters) => {
            text.push_str("select ")?;
            push_filters(alloc, text, filters.as_slice())
        }
        NamedUnary::Project(entries) => push_project(alloc, text, entries.as_slice()),
        NamedUnary::Distinct(outputs) => push_kept(text, "distinct [", outputs.as_slice()),
        NamedUnary::Sort(order) => {
            text.push_str("sort ")?;
            push_order(text, order.as_slice())
        }
        NamedUnary::PartialSort(order) => {
            text.push_str("partial-sort ")?;
            push_order(text, order.as_slice())
        }
        NamedUnary::Group(by, aggregates) => {
            push_group(text, "group ", by.as_slice(), aggregates.as_slice())
        }
        NamedUnary::PartialGroup(by, aggregates) => {
            push_group(text, "partial-group ", by.as_slice(), aggregates.as_slice())
        }
        NamedUnary::FinalGroup => push_final(text),
        NamedUnary::Limit(rows) => push_limit(text, *rows),
    }
}

fn push_pairs(text: &mut String, on: &[(String, String)]) -> Result<(), AllocError>
    ensures { OnOk result (string_bytes text.new ≡ string_bytes text.old ++ separated (codes ",") false (map pair_text (map pair_form on.now))) }
{
    for (i, pair) in on.iter().enumerate() {
        push_between(text, ",", i > 0)?;
        text.push_str(pair.0.as_str())?;
        text.push_str("=")?;
        text.push_str(pair.1.as_str())?;
    }
    Ok(())
}

// Adds a join's word and its pairs, in brackets.
fn push_join(text: &mut String, word: &str, on: &[(String, String)]) -> Result<(), AllocError>
    ensures { OnOk result (string_bytes text.new ≡ string_bytes text.old ++ (word.now ++ (separated (codes ",") false (map pair_text (map pair_form on.now)) ++ codes "]"))) }
{
    text.push_str(word)?;
    push_pairs(text, on)?;
    text.push_str("]")
}

// Adds the conditions of a semi or an anti join, if there are any.
fn push_where(
    alloc: Global,
    text: &mut String,
    conditions: &[NamedCondition],
) -> Result<(), AllocError>
    ensures { OnOk result (string_bytes text.new ≡ string_bytes text.old ++ where_text (map condition_form conditions.now)) }
{
    if conditions.is_empty() {
        return Ok(());
    }
    text.push_str(" where ")?;
    push_conditions(alloc, text, conditions)
}

// Adds the word of a semi or an anti join, its pairs, in brackets, and its conditions.
fn push_semi_join(
    alloc: Global,
    text: &mut String,
    word: &str,
    on: &[(String, String)],
    conditions: &[NamedCondition],
) -> Result<(), AllocError>
    ensures { OnOk result (string_bytes text.new ≡ string_bytes text.old ++ (word.now ++ (separated (codes ",") false (map pair_text (map pair_form on.now)) ++ (codes "]" ++ where_text (map condition_form conditions.now))))) }
{
    push_join(text, word, on)?;
    push_where(alloc, text, conditions)
}

// Adds an operator over two inputs.
fn push_binary(alloc: Global, text: &mut String, operator: &NamedBinary) -> Result<(), AllocError>
    ensures { OnOk result (string_bytes text.new ≡ string_bytes text.old ++ binary_text (binary_form operator.now)) }
{
    match operator {
        NamedBinary::Union => text.push_str("union"),
        NamedBinary::HashJoin(on) => push_join(text, "hash-join [", on.as_slice()),
        NamedBinary::MergeJoin(on) => push_join(text, "merge-join [", on.as_slice()),
        NamedBinary::SemiJoin(on, conditions) => push_semi_join(
            alloc,
            text,
            "hash-semi-join [",
            on.as_slice(),
            conditions.as_slice(),
        ),
        NamedBinary::AntiJoin(on, conditions) => push_semi_join(
            alloc,
            text,
            "hash-anti-join [",
            on.as_slice(),
            conditions.as_slice(),
        ),
    }
}

fn push_kind(text: &mut String, kind: &NamedKind) -> Result<(), AllocError>
    ensures { OnOk result (string_bytes text.new ≡ string_bytes text.old ++ kind_text (kind_form kind.now)) }
{
    match kind {
        NamedKind::Hash {
            size: _,
            route,
            columns,
        } => push_hash(text, route.as_str(), columns.as_slice()),
        NamedKind::Range {
            size: _,
            range,
            column,
        } => push_range(text, range.as_str(), column.as_str()),
        NamedKind::Round(_) => text.push_str("round"),
        NamedKind::Broadcast(_) => text.push_str("broadcast"),
        NamedKind::Gather => text.push_str("gather"),
        NamedKind::Concat => text.push_str("concat"),
    }
}

// Adds the order by which an exchange merges, if it has an entry.
fn push_merge(text: &mut String, merge: &[OrderText]) -> Result<(), AllocError>
    ensures { OnOk result (string_bytes text.new ≡ string_bytes text.old ++ merge_text merge.now) }
{
    if merge.is_empty() {
        return Ok(());
    }
    text.push_str(" merge ")?;
    push_order(text, merge)
}

fn push_exchange(text: &mut String, kind: &NamedKind, merge: &[OrderText]) -> Result<(), AllocError>
    ensures { OnOk result (string_bytes text.new ≡ string_bytes text.old ++ (codes "exchange " ++ (kind_text (kind_form kind.now) ++ merge_text merge.now))) }
{
    text.push_str("exchange ")?;
    push_kind(text, kind)?;
    push_merge(text, merge)
}

// Adds a scan's prefix, if there is one.
fn push_prefix(text: &mut String, prefix: &str) -> Result<(), AllocError>
    ensures { OnOk result (string_bytes text.new ≡ string_bytes text.old ++ prefix_text prefix.now) }
{
    if prefix.is_empty() {
        return Ok(());
    }
    text.push_str(" prefix ")?;
    text.push_str(prefix)
}

fn push_scan(text: &mut String, scan: &NamedScan) -> Result<(), AllocError>
    ensures { OnOk result (string_bytes text.new ≡ string_bytes text.old ++ scan_text (scan_form scan.now)) }
{
    text.push_str("scan ")?;
    text.push_str(scan.relation.as_str())?;
    text.push_str(if scan.shared { " shared" } else { " whole" })?;
    push_prefix(text, scan.prefix.as_str())
}

/// Adds what a node does.
pub fn push_description(alloc: Global, text: &mut String, node: &Node) -> Result<(), AllocError>
    ensures { OnOk result (string_bytes text.new ≡ string_bytes text.old ++ description (tree_of node.now)) }
{
    match node {
        Node::Scan(_, scan) => push_scan(text, scan),
        Node::Unary(_, operator, _) => push_unary(alloc, text, operator),
        Node::Binary(_, operator, _, _) => push_binary(alloc, text, operator),
        Node::Exchange(_, kind, merge, _) => push_exchange(text, kind, merge.as_slice()),
    }
}

// The name of the size that an exchange sends to.
fn target_name(kind: &NamedKind) -> &str
    ensures { result.now ≡ target_name (kind_form kind.now) }
{
    match kind {
        NamedKind::Hash { size, .. } => size.as_str(),
        NamedKind::Range { size, .. } => size.as_str(),
        NamedKind::Round(size) => size.as_str(),
        NamedKind::Broadcast(size) => size.as_str(),
        NamedKind::Gather | NamedKind::Concat => "one",
    }
}

/// The name of a node's size: a scan and an exchange say theirs, another node has that of its (left) input.
pub fn size_name(node: &Node) -> &str
    ensures { result.now ≡ size_name (tree_of node.now) }
{
    match node {
        Node::Scan(_, scan) => scan.size.as_str(),
        Node::Unary(_, _, input) => size_name(input),
        Node::Binary(_, _, left, _) => size_name(left),
        Node::Exchange(_, kind, _, _) => target_name(kind),
    }
}
