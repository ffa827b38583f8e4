//! What the text that explains a plan says of a node's operator.

ghost use Rattle.std.specs.Prelude.{◌≡◌, ◌++◌, ◌+◌, ◌<◌, ◌^◌, map, string_bytes, length, OnOk, IfOk, codes, decimal, false};
ghost use Rattle.vx_rows_values.specs.ValueView.{val_of};
ghost use Rattle.vx_catalog_relations.specs.Catalog.{relation_at};
ghost use Rattle.vx_plan_nodes.specs.Outline.{outline_of, columns, condition_of, expression_of, filter_of, entry_of, is_renamed, aggregate_of, phase_of, unary_of, renamed_of, binary_of, kind_of};
ghost use Rattle.vx_plan_nodes.specs.TypedView.{names_in};
ghost use Rattle.vx_check.specs.Explain.{name_at, separated, value_text, condition_text, expression_text, filter_text, kept_text, kept_texts, made_text, made_texts, function_text, aggregate_texts, aggregates_text, group_text, grouping_text, unary_text, pair_text, where_text, binary_text, kind_text, merge_text, scan_text, prefix_text, description};

use crate::words::{push_between, push_list, push_name, push_order, push_routed};
use itoa::Buffer;
use std::alloc::{AllocError, Global};
use vx_plan_nodes::{
    Aggregate, Binary, Condition, Entry, Exchange, ExchangeKind, Expression, Filter, Name, Phase,
    Projected, ScanNode, Side, SortPhase, TypedNode, TypedPlan, Unary, share_names,
};
use vx_rows_values::{OrderEntry, Value};

// Adds a number in plain decimal, or a text as `serde_json` writes it.
fn push_value(alloc: Global, text: &mut String, value: &Value) -> Result<(), AllocError>
    ensures { OnOk result (string_bytes text.new ≡ string_bytes text.old ++ value_text (val_of value.now)) }
{
    match value {
        Value::Int(number) => {
            let mut digits = Buffer::new();
            text.push_str(digits.format(*number))
        }
        Value::Text(bytes) => {
            let quoted = serde_json::Value::String(String::from_str(
                alloc,
                bytes.as_str(),
            )?).to_string(alloc)?;
            text.push_str(quoted.as_str())
        }
    }
}

fn push_condition(
    alloc: Global,
    text: &mut String,
    names: &[Name],
    condition: &Condition,
) -> Result<(), AllocError>
    ensures { OnOk result (string_bytes text.new ≡ string_bytes text.old ++ condition_text names.now (condition_of condition.now)) }
{
    push_name(text, names, condition.left)?;
    text.push_str(" ")?;
    text.push_str(condition.test.text())?;
    text.push_str(" ")?;
    match &condition.right {
        Side::Column(column) => push_name(text, names, *column),
        Side::Constant(value) => push_value(alloc, text, value),
    }
}

fn push_conditions(
    alloc: Global,
    text: &mut String,
    names: &[Name],
    conditions: &[Condition],
) -> Result<(), AllocError>
    ensures { OnOk result (string_bytes text.new ≡ string_bytes text.old ++ separated (codes " and ") false (map (condition_text names.now) (map condition_of conditions.now))) }
{
    for (i, condition) in conditions.iter().enumerate() {
        push_between(text, " and ", i > 0)?;
        push_condition(alloc, text, names, condition)?;
    }
    Ok(())
}

// Adds expressions, with a comma between them.
#[cycle(expressions)]
fn push_operands(
    alloc: Global,
    text: &mut String,
    names: &[Name],
    operands: &[Expression],
) -> Result<(), AllocError>
    ensures { OnOk result (string_bytes text.new ≡ string_bytes text.old ++ separated (codes ",") false (map (λ e. expression_text names.now (expression_of e)) operands.now)) }
{
    for (i, operand) in operands.iter().enumerate() {
        push_between(text, ",", i > 0)?;
        push_expression(alloc, text, names, operand)?;
    }
    Ok(())
}

// Adds a call.
#[cycle(expressions)]
fn push_call(
    alloc: Global,
    text: &mut String,
    names: &[Name],
    function: &str,
    operands: &[Expression],
) -> Result<(), AllocError>
    ensures { OnOk result (string_bytes text.new ≡ string_bytes text.old ++ (function.now ++ (codes "(" ++ (separated (codes ",") false (map (λ e. expression_text names.now (expression_of e)) operands.now) ++ codes ")")))) }
{
    text.push_str(function)?;
    text.push_str("(")?;
    push_operands(alloc, text, names, operands)?;
    text.push_str(")")
}

// Adds an expression over columns of these names.
#[cycle(expressions)]
fn push_expression(
    alloc: Global,
    text: &mut String,
    names: &[Name],
    expression: &Expression,
) -> Result<(), AllocError>
    ensures { OnOk result (string_bytes text.new ≡ string_bytes text.old ++ expression_text names.now (expression_of expression.now)) }
{
    match expression {
        Expression::Input(column) => push_name(text, names, *column),
        Expression::Value(value) => push_value(alloc, text, value),
        Expression::Call(name, _, operands) => push_call(
            alloc,
            text,
            names,
            name.as_str(),
            operands.as_slice(),
        ),
    }
}

fn push_filter(
    alloc: Global,
    text: &mut String,
    names: &[Name],
    filter: &Filter,
) -> Result<(), AllocError>
    ensures { OnOk result (string_bytes text.new ≡ string_bytes text.old ++ filter_text names.now (filter_of filter.now)) }
{
    match filter {
        Filter::Compared(condition) => push_condition(alloc, text, names, condition),
        Filter::Computed(expression) => push_expression(alloc, text, names, expression),
    }
}

fn push_filters(
    alloc: Global,
    text: &mut String,
    names: &[Name],
    filters: &[Filter],
) -> Result<(), AllocError>
    ensures { OnOk result (string_bytes text.new ≡ string_bytes text.old ++ separated (codes " and ") false (map (filter_text names.now) (map filter_of filters.now))) }
{
    for (i, filter) in filters.iter().enumerate() {
        push_between(text, " and ", i > 0)?;
        push_filter(alloc, text, names, filter)?;
    }
    Ok(())
}

// Adds the kept column with this number, with its new name where it has one.
fn push_kept_column(
    text: &mut String,
    inputs: &[Name],
    outputs: &[Name],
    number: usize,
    kept: Projected,
) -> Result<(), AllocError>
    ensures { OnOk result (string_bytes text.new ≡ string_bytes text.old ++ kept_text (name_at inputs.now kept.column) (name_at outputs.now number) kept.renamed) }
{
    push_name(text, inputs, kept.column)?;
    if kept.renamed {
        text.push_str(" as ")?;
        push_name(text, outputs, number)?;
    }
    Ok(())
}

fn push_kept_columns(
    text: &mut String,
    inputs: &[Name],
    outputs: &[Name],
    kept: &[Projected],
) -> Result<(), AllocError>
    ensures { OnOk result (string_bytes text.new ≡ string_bytes text.old ++ separated (codes ",") false (kept_texts inputs.now outputs.now 0 (map (λ k. k.column) kept.now) (map (λ k. k.renamed) kept.now))) }
{
    for (i, column) in kept.iter().enumerate() {
        push_between(text, ",", i > 0)?;
        push_kept_column(text, inputs, outputs, i, *column)?;
    }
    Ok(())
}

// Adds the columns that a distinct keeps, in brackets.
fn push_distinct(
    text: &mut String,
    inputs: &[Name],
    outputs: &[Name],
    kept: &[Projected],
) -> Result<(), AllocError>
    ensures { OnOk result (string_bytes text.new ≡ string_bytes text.old ++ (codes "distinct [" ++ (separated (codes ",") false (kept_texts inputs.now outputs.now 0 (map (λ k. k.column) kept.now) (map (λ k. k.renamed) kept.now)) ++ codes "]"))) }
{
    text.push_str("distinct [")?;
    push_kept_columns(text, inputs, outputs, kept)?;
    text.push_str("]")
}

// Whether it has a name that is not its input column's.
fn is_renamed(entry: &Entry) -> bool
    ensures { result ≡ is_renamed entry.now }
{
    match entry {
        Entry::Kept(kept) => kept.renamed,
        Entry::Made(_) => true,
    }
}

// Adds what a column of a projection is.
fn push_made(
    alloc: Global,
    text: &mut String,
    inputs: &[Name],
    entry: &Entry,
) -> Result<(), AllocError>
    ensures { OnOk result (string_bytes text.new ≡ string_bytes text.old ++ made_text inputs.now (entry_of entry.now)) }
{
    match entry {
        Entry::Kept(kept) => push_name(text, inputs, kept.column),
        Entry::Made(expression) => push_expression(alloc, text, inputs, expression),
    }
}

// Adds the column of a projection with this number, with its new name where it has one.
fn push_entry(
    alloc: Global,
    text: &mut String,
    inputs: &[Name],
    outputs: &[Name],
    number: usize,
    entry: &Entry,
) -> Result<(), AllocError>
    ensures { OnOk result (string_bytes text.new ≡ string_bytes text.old ++ kept_text (made_text inputs.now (entry_of entry.now)) (name_at outputs.now number) (is_renamed entry.now)) }
{
    push_made(alloc, text, inputs, entry)?;
    if is_renamed(entry) {
        text.push_str(" as ")?;
        push_name(text, outputs, number)?;
    }
    Ok(())
}

fn push_entries(
    alloc: Global,
    text: &mut String,
    inputs: &[Name],
    outputs: &[Name],
    entries: &[Entry],
) -> Result<(), AllocError>
    ensures { OnOk result (string_bytes text.new ≡ string_bytes text.old ++ separated (codes ",") false (made_texts inputs.now outputs.now 0 (map entry_of entries.now) (map is_renamed entries.now))) }
{
    for (i, entry) in entries.iter().enumerate() {
        push_between(text, ",", i > 0)?;
        push_entry(alloc, text, inputs, outputs, i, entry)?;
    }
    Ok(())
}

// Adds a projection's columns, in brackets.
fn push_project(
    alloc: Global,
    text: &mut String,
    inputs: &[Name],
    outputs: &[Name],
    entries: &[Entry],
) -> Result<(), AllocError>
    ensures { OnOk result (string_bytes text.new ≡ string_bytes text.old ++ (codes "project [" ++ (separated (codes ",") false (made_texts inputs.now outputs.now 0 (map entry_of entries.now) (map is_renamed entries.now)) ++ codes "]"))) }
{
    text.push_str("project [")?;
    push_entries(alloc, text, inputs, outputs, entries)?;
    text.push_str("]")
}

fn push_function(text: &mut String, names: &[Name], aggregate: Aggregate) -> Result<(), AllocError>
    ensures { OnOk result (string_bytes text.new ≡ string_bytes text.old ++ function_text names.now (aggregate_of aggregate)) }
{
    let (word, column) = match aggregate {
        Aggregate::Least(column) => ("min(", column),
        Aggregate::Greatest(column) => ("max(", column),
        Aggregate::Sum(column) => ("sum(", column),
        Aggregate::CountRows => return text.push_str("count()"),
    };
    text.push_str(word)?;
    push_name(text, names, column)?;
    text.push_str(")")
}

// Adds aggregates, the first of which has the number `first` in the output.
fn push_aggregate_list(
    text: &mut String,
    inputs: &[Name],
    outputs: &[Name],
    first: usize,
    aggregates: &[Aggregate],
) -> Result<(), AllocError>
    requires { first + length aggregates.now < 2 ^ 64 }
    ensures { OnOk result (string_bytes text.new ≡ string_bytes text.old ++ separated (codes ", ") false (aggregate_texts inputs.now outputs.now first (map aggregate_of aggregates.now))) }
{
    for (i, aggregate) in aggregates.iter().enumerate() {
        push_between(text, ", ", i > 0)?;
        push_function(text, inputs, *aggregate)?;
        text.push_str(" as ")?;
        push_name(text, outputs, first + i)?;
    }
    Ok(())
}

// Adds aggregates behind a space, if there are any.
fn push_aggregates(
    text: &mut String,
    inputs: &[Name],
    outputs: &[Name],
    first: usize,
    aggregates: &[Aggregate],
) -> Result<(), AllocError>
    requires { first + length aggregates.now < 2 ^ 64 }
    ensures { OnOk result (string_bytes text.new ≡ string_bytes text.old ++ aggregates_text inputs.now outputs.now first (map aggregate_of aggregates.now)) }
{
    if aggregates.is_empty() {
        return Ok(());
    }
    text.push_str(" ")?;
    push_aggregate_list(text, inputs, outputs, first, aggregates)
}

// Adds a grouping's word, its key columns and its aggregates.
fn push_group(
    text: &mut String,
    word: &str,
    inputs: &[Name],
    outputs: &[Name],
    by: &[usize],
    aggregates: &[Aggregate],
) -> Result<(), AllocError>
    requires { length by.now + length aggregates.now < 2 ^ 64 }
    ensures { OnOk result (string_bytes text.new ≡ string_bytes text.old ++ (word.now ++ group_text inputs.now outputs.now by.now (map aggregate_of aggregates.now))) }
{
    text.push_str(word)?;
    push_list(text, inputs, by)?;
    push_aggregates(text, inputs, outputs, by.len(), aggregates)
}

// Adds a grouping in one of its phases.
fn push_grouping(
    text: &mut String,
    inputs: &[Name],
    outputs: &[Name],
    phase: Phase,
    by: &[usize],
    aggregates: &[Aggregate],
) -> Result<(), AllocError>
    requires { length by.now + length aggregates.now < 2 ^ 64 }
    ensures { OnOk result (string_bytes text.new ≡ string_bytes text.old ++ grouping_text inputs.now outputs.now (phase_of phase) by.now (map aggregate_of aggregates.now)) }
{
    match phase {
        Phase::Plain => push_group(text, "group ", inputs, outputs, by, aggregates),
        Phase::Partial => push_group(text, "partial-group ", inputs, outputs, by, aggregates),
        Phase::Final => text.push_str("final-group"),
    }
}

// Adds how many first rows a limit takes.
fn push_limit(text: &mut String, rows: u32) -> Result<(), AllocError>
    ensures { OnOk result (string_bytes text.new ≡ string_bytes text.old ++ (codes "limit " ++ decimal rows)) }
{
    let mut digits = Buffer::new();
    text.push_str("limit ")?;
    text.push_str(digits.format(rows))
}

// Adds an operator over one input; inputs and outputs are the names of the columns.
fn push_unary(
    alloc: Global,
    text: &mut String,
    inputs: &[Name],
    outputs: &[Name],
    operator: &Unary,
) -> Result<(), AllocError>
    ensures { OnOk result (string_bytes text.new ≡ string_bytes text.old ++ unary_text inputs.now outputs.now (renamed_of operator.now) (unary_of operator.now)) }
{
    match operator {
        Unary::Select(filters) => {
            text.push_str("select ")?;
            push_filters(alloc, text, inputs, filters.as_slice())
        }
        Unary::Project(entries) => push_project(alloc, text, inputs, outputs, entries.as_slice()),
        Unary::Distinct(kept) => push_distinct(text, inputs, outputs, kept.as_slice()),
        Unary::Sort(SortPhase::Plain, order) => {
            text.push_str("sort ")?;
            push_order(text, inputs, order.as_slice())
        }
        Unary::Sort(SortPhase::Partial, order) => {
            text.push_str("partial-sort ")?;
            push_order(text, inputs, order.as_slice())
        }
        Unary::Group(phase, by, aggregates) => push_grouping(
            text,
            inputs,
            outputs,
            *phase,
            by.as_slice(),
            aggregates.as_slice(),
        ),
        Unary::Limit(rows) => push_limit(text, *rows),
    }
}

fn push_pairs(
    text: &mut String,
    lefts: &[Name],
    rights: &[Name],
    on: &[(usize, usize)],
) -> Result<(), AllocError>
    ensures { OnOk result (string_bytes text.new ≡ string_bytes text.old ++ separated (codes ",") false (map (pair_text lefts.now rights.now) on.now)) }
{
    for (i, pair) in on.iter().enumerate() {
        push_between(text, ",", i > 0)?;
        push_name(text, lefts, pair.0)?;
        text.push_str("=")?;
        push_name(text, rights, pair.1)?;
    }
    Ok(())
}

// Adds a join's word and its pairs, in brackets.
fn push_join(
    text: &mut String,
    word: &str,
    lefts: &[Name],
    rights: &[Name],
    on: &[(usize, usize)],
) -> Result<(), AllocError>
    ensures { OnOk result (string_bytes text.new ≡ string_bytes text.old ++ (word.now ++ (separated (codes ",") false (map (pair_text lefts.now rights.now) on.now) ++ codes "]"))) }
{
    text.push_str(word)?;
    push_pairs(text, lefts, rights, on)?;
    text.push_str("]")
}

// The names of the left columns, and then those of the right ones.
fn names_of_both(alloc: Global, lefts: &[Name], rights: &[Name]) -> Result<Vec<Name>, AllocError>
    ensures { IfOk result (λ v. v.items ≡ lefts.now ++ rights.now) }
{
    let mut names = Vec::new(alloc);
    share_names(&mut names, lefts)?;
    share_names(&mut names, rights)?;
    Ok(names)
}

// Adds the conditions of a semi or an anti join, if there are any.
fn push_where(
    alloc: Global,
    text: &mut String,
    lefts: &[Name],
    rights: &[Name],
    conditions: &[Condition],
) -> Result<(), AllocError>
    ensures { OnOk result (string_bytes text.new ≡ string_bytes text.old ++ where_text (lefts.now ++ rights.now) (map condition_of conditions.now)) }
{
    if conditions.is_empty() {
        return Ok(());
    }
    let names = names_of_both(alloc, lefts, rights)?;
    text.push_str(" where ")?;
    push_conditions(alloc, text, names.as_slice(), conditions)
}

// Adds the word of a semi or an anti join, its pairs, in brackets, and its conditions.
fn push_semi_join(
    alloc: Global,
    text: &mut String,
    word: &str,
    lefts: &[Name],
    rights: &[Name],
    on: &[(usize, usize)],
    conditions: &[Condition],
) -> Result<(), AllocError>
    ensures { OnOk result (string_bytes text.new ≡ string_bytes text.old ++ (word.now ++ (separated (codes ",") false (map (pair_text lefts.now rights.now) on.now) ++ (codes "]" ++ where_text (lefts.now ++ rights.now) (map condition_of conditions.now))))) }
{
    push_join(text, word, lefts, rights, on)?;
    push_where(alloc, text, lefts, rights, conditions)
}

// Adds an operator over inputs whose columns have these names.
fn push_binary(
    alloc: Global,
    text: &mut String,
    lefts: &[Name],
    rights: &[Name],
    operator: &Binary,
) -> Result<(), AllocError>
    ensures { OnOk result (string_bytes text.new ≡ string_bytes text.old ++ binary_text lefts.now rights.now (binary_of operator.now)) }
{
    match operator {
        Binary::Union => text.push_str("union"),
        Binary::HashJoin(on) => push_join(text, "hash-join [", lefts, rights, on.as_slice()),
        Binary::MergeJoin(on, _) => push_join(text, "merge-join [", lefts, rights, on.as_slice()),
        Binary::SemiJoin(on, conditions) => push_semi_join(
            alloc,
            text,
            "hash-semi-join [",
            lefts,
            rights,
            on.as_slice(),
            conditions.as_slice(),
        ),
        Binary::AntiJoin(on, conditions) => push_semi_join(
            alloc,
            text,
            "hash-anti-join [",
            lefts,
            rights,
            on.as_slice(),
            conditions.as_slice(),
        ),
    }
}

fn push_kind(
    text: &mut String,
    plan: &TypedPlan,
    inputs: &[Name],
    kind: &ExchangeKind,
) -> Result<(), AllocError>
    ensures { OnOk result (string_bytes text.new ≡ string_bytes text.old ++ kind_text (names_in plan.now) inputs.now (kind_of kind.now)) }
{
    match kind {
        ExchangeKind::Route(_, route, columns) => push_routed(
            text,
            plan,
            inputs,
            route,
            columns.as_slice(),
        ),
        ExchangeKind::Round(_) => text.push_str("round"),
        ExchangeKind::Broadcast(_) => text.push_str("broadcast"),
        ExchangeKind::Gather => text.push_str("gather"),
        ExchangeKind::Concat => text.push_str("concat"),
    }
}

// Adds the order by which an exchange merges, if it has an entry.
fn push_merge(text: &mut String, inputs: &[Name], merge: &[OrderEntry]) -> Result<(), AllocError>
    ensures { OnOk result (string_bytes text.new ≡ string_bytes text.old ++ merge_text inputs.now merge.now) }
{
    if merge.is_empty() {
        return Ok(());
    }
    text.push_str(" merge ")?;
    push_order(text, inputs, merge)
}

// Adds an exchange over an input whose columns have these names.
fn push_exchange(
    text: &mut String,
    plan: &TypedPlan,
    inputs: &[Name],
    exchange: &Exchange,
) -> Result<(), AllocError>
    ensures { OnOk result (string_bytes text.new ≡ string_bytes text.old ++ (codes "exchange " ++ (kind_text (names_in plan.now) inputs.now (kind_of exchange.now.kind) ++ merge_text inputs.now exchange.now.merge.items))) }
{
    text.push_str("exchange ")?;
    push_kind(text, plan, inputs, &exchange.kind)?;
    push_merge(text, inputs, exchange.merge.as_slice())
}

// Adds a scan's prefix, if there is one.
fn push_prefix(text: &mut String, prefix: &str) -> Result<(), AllocError>
    ensures { OnOk result (string_bytes text.new ≡ string_bytes text.old ++ prefix_text prefix.now) }
{
    if prefix.is_empty() {
        return Ok(());
    }
    text.push_str(" prefix ")?;
    text.push_str(prefix)
}

// Adds the name of a relation; past the end of the catalog there is none.
fn push_relation(text: &mut String, plan: &TypedPlan, relation: usize) -> Result<(), AllocError>
    ensures { OnOk result (string_bytes text.new ≡ string_bytes text.old ++ (relation_at (names_in plan.now).catalog relation).name) }
{
    if relation < plan.catalog().len() {
        return text.push_str(plan.catalog().get(relation).name());
    }
    Ok(())
}

// Adds a scan.
fn push_scan(text: &mut String, plan: &TypedPlan, scan: &ScanNode) -> Result<(), AllocError>
    ensures { OnOk result (string_bytes text.new ≡ string_bytes text.old ++ scan_text (names_in plan.now) scan.now.relation scan.now.shared (string_bytes scan.now.prefix)) }
{
    text.push_str("scan ")?;
    push_relation(text, plan, scan.relation)?;
    text.push_str(if scan.shared { " shared" } else { " whole" })?;
    push_prefix(text, scan.prefix.as_str())
}

/// The names of the columns of a node's output.
pub fn column_names(node: &TypedNode) -> &[Name]
    ensures { result.now ≡ (columns (outline_of node.now)).names }
{
    node.head().columns.names.as_slice()
}

/// Adds what a node does.
pub fn push_description(
    alloc: Global,
    text: &mut String,
    plan: &TypedPlan,
    node: &TypedNode,
) -> Result<(), AllocError>
    ensures { OnOk result (string_bytes text.new ≡ string_bytes text.old ++ description (names_in plan.now) (outline_of node.now)) }
{
    match node {
        TypedNode::Scan(_, scan) => push_scan(text, plan, scan),
        TypedNode::Unary(head, operator, input) => {
            push_unary(
                alloc,
                text,
                column_names(input),
                head.columns.names.as_slice(),
                operator,
            )
        }
        TypedNode::Binary(_, operator, left, right) => {
            push_binary(
                alloc,
                text,
                column_names(left),
                column_names(right),
                operator,
            )
        }
        TypedNode::Exchange(_, exchange, input) => push_exchange(
            text,
            plan,
            column_names(input),
            exchange,
        ),
    }
}

/// What a node does.
pub fn description(alloc: Global, plan: &TypedPlan, node: &TypedNode) -> Result<String, AllocError>
    ensures { IfOk result (λ s. string_bytes s ≡ description (names_in plan.now) (outline_of node.now)) }
{
    let mut text = String::new(alloc);
    push_description(alloc, &mut text, plan, node)?;
    Ok(text)
}
