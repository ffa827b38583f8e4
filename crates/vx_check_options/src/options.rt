//! What the nodes of a plan can claim, from their inputs upwards, and the first node that no claims can save.

ghost use Rattle.std.specs.Prelude.{◌≡◌, ℕ, map, option_map, None, IfOk};
ghost use Rattle.std.specs.List.{list_any};
ghost use Rattle.vx_catalog_relations.specs.Relation.{Relation};
ghost use Rattle.vx_catalog_relations.specs.Catalog.{relation_at};
ghost use Rattle.vx_plan_nodes.specs.Plan.{any};
ghost use Rattle.vx_plan_nodes.specs.Outline.{part_of, outline_of, plan_of};
ghost use Rattle.vx_plan_nodes.specs.Outputs.{HasOutputs};
ghost use Rattle.vx_check_rules.specs.Rules.{part_gives};
ghost use Rattle.vx_check_rules.specs.Refusal.{first_failure};
ghost use Rattle.vx_check_rules.specs.RuleView.{rule_of, refusal_of};
ghost use Rattle.vx_check_options.specs.Options.{parts_at, places_here, can_send, can_order, fit_tests, first_unfit};
ghost use Rattle.vx_check_options.specs.OptionsView.{CanClaim, IsAbsent, AreInputs, parts_seen};

use crate::order_choices::{OrderChoices, choices_over, may_begin, narrowed};
use crate::parts::{only_part, parts_over};
use std::alloc::{AllocError, Global};
use vx_catalog_relations::Catalog;
use vx_check_rules::{OrderSeen, Rule, do_sizes_match, gives, has_one_worker};
use vx_plan_nodes::{Binary, Part, TypedNode};
use vx_rows_values::OrderEntry;

/// What a node can claim, and the first node, from it downwards, that no claims can save.
pub struct Options {
    /// The parts: the first 64.
    pub parts: Vec<Part>,
    /// What may stand at each place of the longest order.
    pub choices: OrderChoices,
    /// The first such node in post-order, and the test that fails there.
    pub unfit: Option<(u32, Rule)>,
}

impl Drop for Options {
    fn drop(self) {
        let Options {
            parts: _,
            choices: _,
            unfit: _,
        } = self;
    }
}

/// Of an input that a node does not have.
pub fn absent(alloc: Global) -> Result<Options, AllocError>
    ensures { IfOk result IsAbsent }
{
    Ok(Options {
        parts: only_part(alloc, Part::Any)?,
        choices: Vec::new(alloc),
        unfit: None,
    })
}

// Whether one of the parts has each row on one worker alone.
fn is_any_given(parts: &[Part]) -> bool
    ensures { result ≡ list_any (λ x. part_gives x any) (map part_of parts.now) }
{
    for part in parts {
        if gives(part, &Part::Any) {
            return true;
        }
    }
    false
}

// Whether each row of an exchange's input can be on one worker alone.
fn can_send(catalog: &Catalog, node: &TypedNode, left: &Options, right: &Options) -> bool
    requires { AreInputs (relation_at catalog.now) (plan_of node.now) left.now right.now }
    ensures { result ≡ can_send (relation_at catalog.now) (plan_of node.now) }
{
    match node {
        TypedNode::Exchange(_, _, input) => {
            has_one_worker(input) || is_any_given(left.parts.as_slice())
        }
        _ => true,
    }
}

// Whether the inputs can be in the order that the node needs.
fn can_order(catalog: &Catalog, node: &TypedNode, left: &Options, right: &Options) -> bool
    requires { AreInputs (relation_at catalog.now) (plan_of node.now) left.now right.now }
    ensures { result ≡ can_order (relation_at catalog.now) (plan_of node.now) }
{
    match node {
        TypedNode::Binary(_, Binary::MergeJoin(on, falls), _, _) => {
            let (on, falls) = (on.as_slice(), falls.as_slice());
            may_begin(left.choices.as_slice(), OrderSeen::Lefts(on, falls))
                && may_begin(right.choices.as_slice(), OrderSeen::Rights(on, falls))
        }
        TypedNode::Exchange(_, exchange, _) => {
            may_begin(
                left.choices.as_slice(),
                OrderSeen::Listed(exchange.merge.as_slice()),
            )
        }
        _ => true,
    }
}

// The first test of the node that no claims can pass, where it can have these parts, and these entries at the places of
// its order.
fn unfit_at(
    catalog: &Catalog,
    node: &TypedNode,
    left: &Options,
    right: &Options,
    parts: &[Part],
    choices: &[Vec<OrderEntry>],
) -> Option<Rule>
    requires inputs { AreInputs (relation_at catalog.now) (plan_of node.now) left.now right.now }
    requires parts { map part_of parts.now ≡ parts_at (relation_at catalog.now) (plan_of node.now) }
    requires choices { map (λ v. v.items) choices.now ≡ places_here (relation_at catalog.now) (plan_of node.now) }
    ensures { option_map rule_of result ≡ first_failure (fit_tests (relation_at catalog.now) (plan_of node.now)) }
{
    if !do_sizes_match(node) {
        return Some(Rule::SizeMismatch);
    }
    if !can_send(catalog, node, left, right) {
        return Some(Rule::ReplicatedInput);
    }
    if parts.is_empty() {
        return Some(Rule::InputsNotMatched);
    }
    if !can_order(catalog, node, left, right) {
        return Some(Rule::OrderNeeded);
    }
    if !may_begin(
        choices,
        OrderSeen::Listed(node.head().claim.order.as_slice()),
    ) {
        return Some(Rule::OrderNotShown);
    }
    None
}

// The first node that no claims can save: one below, or else the node with that test.
fn unfit_from(
    catalog: &Catalog,
    node: &TypedNode,
    left: &Options,
    right: &Options,
    parts: &[Part],
    choices: &[Vec<OrderEntry>],
) -> Option<(u32, Rule)>
    requires inputs { AreInputs (relation_at catalog.now) (plan_of node.now) left.now right.now }
    requires parts { map part_of parts.now ≡ parts_at (relation_at catalog.now) (plan_of node.now) }
    requires choices { map (λ v. v.items) choices.now ≡ places_here (relation_at catalog.now) (plan_of node.now) }
    ensures { option_map refusal_of result ≡ first_unfit (relation_at catalog.now) (plan_of node.now) }
{
    if let Some(unfit) = left.unfit.or(right.unfit) {
        return Some(unfit);
    }
    match unfit_at(catalog, node, left, right, parts, choices) {
        Some(rule) => Some((node.head().number, rule)),
        None => None,
    }
}

// The parts of the left input at which the node looks: an exchange makes its own.
fn parts_seen<'o>(node: &TypedNode, left: &'o Options, right: &'o Options) -> &'o [Part]
    ensures { (c : ℕ → Relation) → AreInputs c (plan_of node.now) left.now right.now → map part_of result.now ≡ parts_seen c (plan_of node.now) }
{
    match node {
        TypedNode::Exchange(_, _, _) => right.parts.as_slice(),
        _ => left.parts.as_slice(),
    }
}

// What a node can claim, where its inputs can claim this.
fn options_over(
    alloc: Global,
    catalog: &Catalog,
    node: &TypedNode,
    left: &Options,
    right: &Options,
) -> Result<Options, AllocError>
    requires outputs { HasOutputs (relation_at catalog.now) (outline_of node.now) }
    requires inputs { AreInputs (relation_at catalog.now) (plan_of node.now) left.now right.now }
    ensures { IfOk result (CanClaim (relation_at catalog.now) (plan_of node.now)) }
{
    let here = choices_over(
        alloc,
        catalog,
        node,
        left.parts.as_slice(),
        left.choices.as_slice(),
    )?;
    let order = OrderSeen::Listed(node.head().claim.order.as_slice());
    let choices = narrowed(alloc, order, here.as_slice())?;
    let lefts = parts_seen(node, left, right);
    let parts = parts_over(alloc, catalog, node, lefts, right.parts.as_slice())?;
    let unfit = unfit_from(
        catalog,
        node,
        left,
        right,
        parts.as_slice(),
        here.as_slice(),
    );
    Ok(Options {
        parts,
        choices,
        unfit,
    })
}

/// What a node can claim, from its inputs upwards. Of an input that a node does not have it is `none`.
pub fn options_at(
    alloc: Global,
    catalog: &Catalog,
    none: &Options,
    node: &TypedNode,
) -> Result<Options, AllocError>
    requires none { IsAbsent none.now }
    requires outputs { HasOutputs (relation_at catalog.now) (outline_of node.now) }
    ensures { IfOk result (CanClaim (relation_at catalog.now) (plan_of node.now)) }
{
    match node {
        TypedNode::Scan(_, _) => options_over(alloc, catalog, node, none, none),
        TypedNode::Unary(_, _, input) | TypedNode::Exchange(_, _, input) => {
            let left = options_at(alloc, catalog, none, input)?;
            options_over(alloc, catalog, node, &left, none)
        }
        TypedNode::Binary(_, _, left, right) => {
            let left = options_at(alloc, catalog, none, left)?;
            let right = options_at(alloc, catalog, none, right)?;
            options_over(alloc, catalog, node, &left, &right)
        }
    }
}

/// The first node in post-order that no claims can save, and the test that fails there.
pub fn first_unfit(
    alloc: Global,
    catalog: &Catalog,
    node: &TypedNode,
) -> Result<Option<(u32, Rule)>, AllocError>
    requires { HasOutputs (relation_at catalog.now) (outline_of node.now) }
    ensures { IfOk result (λ o. option_map refusal_of o ≡ first_unfit (relation_at catalog.now) (plan_of node.now)) }
{
    let none = absent(alloc)?;
    let options = options_at(alloc, catalog, &none, node)?;
    Ok(options.unfit)
}
