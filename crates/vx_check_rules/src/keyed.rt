//! The keys that a node has, by what its operator does with columns and rows.

ghost use Rattle.std.specs.Prelude.{◌≡◌, ◌<◌, [], ◌∷◌, length, map, slice_index_or};
ghost use Rattle.std.specs.List.{list_any};
ghost use Rattle.vx_catalog_relations.specs.Catalog.{relation_at};
ghost use Rattle.vx_plan_nodes.specs.Outline.{outline_of, plan_of};
ghost use Rattle.vx_plan_nodes.specs.Outputs.{HasOutputs};
ghost use Rattle.vx_plan_nodes.specs.Describe.{whole_rows, paired_on};
ghost use Rattle.vx_plan_nodes.specs.DescribeView.{described_of, described_both_of};
ghost use Rattle.vx_check_rules.specs.Rules.{covers};
ghost use Rattle.vx_check_rules.specs.Behaviour.{if_so, keyed_by, keyed_after, keyed_held, keyed_over, keyed_from, behaviour, has_key, keys_give};
ghost use Rattle.vx_check_rules.specs.KeyedView.{keys_seen, copied_keys, keyed_of, keyed_in, all_keyed_in};
ghost use Rattle.vx_check_rules.specs.Seen.{columns_seen};

use crate::columns::ColumnsSeen;
use crate::copied::CopiedColumns;
use crate::nodes::claimed_keys;
use vx_catalog_relations::{Catalog, Relation};
use vx_plan_nodes::{
    Copying, Described, DescribedBoth, KeysAfter, Meeting, TypedNode, output_types,
};

/// Keys of one input, which are borrowed.
#[derive(Clone, Copy)]
pub enum KeysSeen<'p> {
    Listed(&'p [Vec<usize>]),
    /// Those that a relation declares.
    Declared(&'p Relation),
    /// The columns from 0 up to this number.
    First(usize),
}

/// Keys of one input, on the columns that are copied.
#[derive(Clone, Copy)]
pub struct CopiedKeys<'p> {
    pub copying: Copying<'p>,
    pub keys: KeysSeen<'p>,
}

/// Keys: one of each of one or two inputs, together.
#[derive(Clone, Copy)]
pub struct Keyed<'p> {
    pub first: CopiedKeys<'p>,
    pub second: Option<CopiedKeys<'p>>,
}

impl<'p> KeysSeen<'p> {
    /// How many keys there are.
    pub fn count(self) -> usize
        ensures { result ≡ length (keys_seen self.entry) }
    {
        match self {
            KeysSeen::Listed(keys) => keys.len(),
            KeysSeen::Declared(relation) => relation.key_count(),
            KeysSeen::First(_) => 1,
        }
    }

    /// The key at this place.
    pub fn at(self, place: usize) -> ColumnsSeen<'p>
        requires { place < length (keys_seen self) }
        ensures { columns_seen result ≡ slice_index_or (keys_seen self.entry) place (columns_seen result) }
    {
        match self {
            KeysSeen::Listed(keys) => ColumnsSeen::Listed(keys[place].as_slice()),
            KeysSeen::Declared(relation) => ColumnsSeen::Listed(relation.key(place)),
            KeysSeen::First(count) => ColumnsSeen::First(count),
        }
    }
}

impl CopiedKeys<'_> {
    /// Whether the output columns contain copies of all columns of one of the keys.
    pub fn have(self, columns: ColumnsSeen<'_>) -> bool
        ensures { result ≡ has_key (copied_keys self.entry).0 (copied_keys self.entry).1 (columns_seen columns.entry) }
    {
        let copied = CopiedColumns::of(self.copying, columns);
        for place in 0..self.keys.count() {
            if copied.has_all(self.keys.at(place)) {
                return true;
            }
        }
        false
    }
}

impl Keyed<'_> {
    /// Whether the output columns contain a key of each of the inputs.
    pub fn give(self, columns: ColumnsSeen<'_>) -> bool
        ensures { result ≡ keys_give (keyed_of self.entry) (columns_seen columns.entry) }
    {
        if !self.first.have(columns) {
            return false;
        }
        match self.second {
            Some(keys) => keys.have(columns),
            None => true,
        }
    }
}

/// Whether the columns contain one of the keys.
pub fn are_covered(keys: KeysSeen<'_>, columns: ColumnsSeen<'_>) -> bool
    ensures { result ≡ covers (keys_seen keys.entry) (columns_seen columns.entry) }
{
    let copied = CopiedKeys {
        copying: Copying::WholeRows,
        keys,
    };
    copied.have(columns)
}

// Keys of columns that stand where they stood.
fn whole<'p>(keys: KeysSeen<'p>) -> CopiedKeys<'p>
    ensures { copied_keys result ≡ (whole_rows, keys_seen keys.entry) }
{
    CopiedKeys {
        copying: Copying::WholeRows,
        keys,
    }
}

// Keys of one input, if they are there.
fn alone_if<'p>(is_there: bool, first: CopiedKeys<'p>) -> Option<Keyed<'p>>
    ensures { keyed_in result ≡ if_so is_there (keyed_by (copied_keys first.entry ∷ []) ∷ []) }
{
    is_there.then_some(Keyed {
        first,
        second: None,
    })
}

// Keys of one input.
fn alone<'p>(first: CopiedKeys<'p>) -> [Option<Keyed<'p>>; 2]
    ensures { all_keyed_in result ≡ keyed_by (copied_keys first.entry ∷ []) ∷ [] }
{
    [alone_if(true, first), None]
}

// The keys that a relation declares.
fn declared(catalog: &Catalog, relation: usize) -> KeysSeen<'_>
    ensures { keys_seen result ≡ (relation_at catalog.now relation).keys }
{
    if relation < catalog.len() {
        KeysSeen::Declared(catalog.get(relation))
    } else {
        KeysSeen::Listed(&[])
    }
}

// The keys of an operator over one input with the keys `below`.
fn keyed_after<'p>(described: Described<'p>, below: &'p [Vec<usize>]) -> [Option<Keyed<'p>>; 2]
    ensures { all_keyed_in result ≡ keyed_after (described_of described.entry).keys (described_of described.entry).copying (map (λ k. k.items) below.now) }
{
    match described.keys {
        KeysAfter::Kept => {
            let copying = described.copying;
            let keys = KeysSeen::Listed(below);
            alone(CopiedKeys { copying, keys })
        }
        KeysAfter::First(count) => alone(whole(KeysSeen::First(count))),
        KeysAfter::NoKey => [None, None],
    }
}

// An input's keys where the rows of the other one meet one row each; else a key of each input together.
fn keyed_held<'p>(
    is_right_held: bool,
    is_left_held: bool,
    lefts: CopiedKeys<'p>,
    rights: CopiedKeys<'p>,
) -> [Option<Keyed<'p>>; 2]
    ensures { all_keyed_in result ≡ keyed_held is_right_held is_left_held (copied_keys lefts.entry) (copied_keys rights.entry) }
{
    match (is_right_held, is_left_held) {
        (false, false) => [
            Some(Keyed {
                first: lefts,
                second: Some(rights),
            }),
            None,
        ],
        _ => [
            alone_if(is_right_held, lefts),
            alone_if(is_left_held, rights),
        ],
    }
}

// The keys of rows that meet on these pairs, and make a row each two, over inputs with these keys.
fn keyed_met<'p>(
    on: &'p [(usize, usize)],
    described: DescribedBoth<'p>,
    lefts: &'p [Vec<usize>],
    rights: &'p [Vec<usize>],
) -> [Option<Keyed<'p>>; 2]
    ensures { all_keyed_in result ≡ keyed_over (paired_on on.now) (described_both_of described.entry) (map (λ k. k.items) lefts.now) (map (λ k. k.items) rights.now) }
{
    let is_right_held = are_covered(KeysSeen::Listed(rights), ColumnsSeen::Rights(on));
    let is_left_held = are_covered(KeysSeen::Listed(lefts), ColumnsSeen::Lefts(on));
    let behind = CopiedKeys {
        copying: described.right,
        keys: KeysSeen::Listed(rights),
    };
    keyed_held(
        is_right_held,
        is_left_held,
        whole(KeysSeen::Listed(lefts)),
        behind,
    )
}

// The keys of an operator over two inputs with these keys. There is none where rows stand side by side, and left rows that are
// kept have the left ones.
fn keyed_over<'p>(
    described: DescribedBoth<'p>,
    lefts: &'p [Vec<usize>],
    rights: &'p [Vec<usize>],
) -> [Option<Keyed<'p>>; 2]
    ensures { all_keyed_in result ≡ keyed_over (described_both_of described.entry).meeting (described_both_of described.entry) (map (λ k. k.items) lefts.now) (map (λ k. k.items) rights.now) }
{
    match described.meeting {
        Meeting::SideBySide => [None, None],
        Meeting::PairedOn(on) => keyed_met(on, described, lefts, rights),
        Meeting::MatchedOn(_) => alone(whole(KeysSeen::Listed(lefts))),
    }
}

/// The keys of a node whose inputs have these keys in place of those that they claim. A node with fewer inputs looks at
/// the first list alone, or at none.
pub fn keyed_from<'p>(
    catalog: &'p Catalog,
    node: &'p TypedNode,
    lefts: &'p [Vec<usize>],
    rights: &'p [Vec<usize>],
) -> [Option<Keyed<'p>>; 2]
    requires { HasOutputs (relation_at catalog.now) (outline_of node.now) }
    ensures { all_keyed_in result ≡ keyed_from (relation_at catalog.now) (plan_of node.now) (map (λ k. k.items) lefts.now) (map (λ k. k.items) rights.now) }
{
    match node {
        TypedNode::Scan(_, scan) => alone(whole(declared(catalog, scan.relation))),
        TypedNode::Unary(_, operator, _) => keyed_after(operator.described(), lefts),
        TypedNode::Binary(_, operator, input, _) => {
            keyed_over(operator.described(output_types(input)), lefts, rights)
        }
        TypedNode::Exchange(_, _, _) => alone(whole(KeysSeen::Listed(lefts))),
    }
}

/// The keys of a node.
pub fn node_keyed<'p>(catalog: &'p Catalog, node: &'p TypedNode) -> [Option<Keyed<'p>>; 2]
    requires { HasOutputs (relation_at catalog.now) (outline_of node.now) }
    ensures { all_keyed_in result ≡ (behaviour (relation_at catalog.now) (plan_of node.now)).keyed }
{
    match node {
        TypedNode::Scan(_, _) => keyed_from(catalog, node, &[], &[]),
        TypedNode::Unary(_, _, input) => keyed_from(catalog, node, claimed_keys(input), &[]),
        TypedNode::Binary(_, _, left, right) => {
            keyed_from(catalog, node, claimed_keys(left), claimed_keys(right))
        }
        TypedNode::Exchange(_, _, input) => { keyed_from(catalog, node, claimed_keys(input), &[]) }
    }
}

// Whether the keys are there and the output columns contain one of them.
fn is_given(keyed: Option<Keyed<'_>>, columns: &[usize]) -> bool
    ensures { result ≡ list_any (λ k. keys_give k columns.now) (keyed_in keyed.entry) }
{
    match keyed {
        Some(keyed) => keyed.give(ColumnsSeen::Listed(columns)),
        None => false,
    }
}

/// Whether the output columns contain one of these keys.
pub fn show_key(keyed: &[Option<Keyed<'_>>], columns: &[usize]) -> bool
    ensures { result ≡ list_any (λ k. keys_give k columns.now) (all_keyed_in keyed.now) }
{
    for each in keyed {
        if is_given(*each, columns) {
            return true;
        }
    }
    false
}
