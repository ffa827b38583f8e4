//! The ways of a node to a part, by what its operator does with columns and rows.

ghost use Rattle.std.specs.Prelude.{◌≡◌, ℕ, true, cond, ◌&&◌, ◌||◌, [], ◌∷◌, option_map, option_to_list};
ghost use Rattle.std.specs.List.{list_any};
ghost use Rattle.vx_catalog_relations.specs.Relation.{Relation};
ghost use Rattle.vx_plan_nodes.specs.Plan.{any, all, routed};
ghost use Rattle.vx_plan_nodes.specs.Parts.{kind_part};
ghost use Rattle.vx_plan_nodes.specs.Outline.{part_of, route_of, kind_of, outline_of, plan_of};
ghost use Rattle.vx_plan_nodes.specs.Outputs.{HasOutputs};
ghost use Rattle.vx_plan_nodes.specs.Describe.{whole_rows, paired_on, matched_on};
ghost use Rattle.vx_plan_nodes.specs.DescribeView.{copying_of, kept_columns, described_of, described_both_of};
ghost use Rattle.vx_check_rules.specs.Rules.{part_gives, if_some};
ghost use Rattle.vx_check_rules.specs.Behaviour.{sources, way, if_so, own, bare, input_has, meet, gives, common_part, ways_along, ways_over, ways_made, ways_from, both_if_fit, ways_if_fit, behaviour};
ghost use Rattle.vx_check_rules.specs.WayView.{part_seen, had_of, way_of, way_in, ways_in};

use crate::nodes::{claimed_part, has_one_worker};
use crate::parts::{PartSeen, are_seen_alike, seen};
use crate::sources::are_copies;
use vx_plan_nodes::{
    Copying, Described, DescribedBoth, ExchangeKind, KeptColumns, Meeting, Part, Route, TypedNode,
    output_types,
};

/// What an input has: whether it has one worker, and its part.
#[derive(Clone, Copy)]
pub struct Had<'p> {
    pub is_alone: bool,
    pub part: PartSeen<'p>,
}

/// A way to a part: each of one or two inputs has it, on the columns that are copied.
#[derive(Clone, Copy)]
pub struct Way<'p> {
    pub copying: Copying<'p>,
    pub first: Had<'p>,
    pub second: Option<Had<'p>>,
}

/// The part that an exchange of this kind makes.
pub(crate) fn made(kind: &ExchangeKind) -> PartSeen<'_>
    ensures { part_seen result ≡ kind_part (kind_of kind.now) }
{
    match kind {
        ExchangeKind::Route(_, route, columns) => PartSeen::Routed(route, columns.as_slice()),
        ExchangeKind::Round(_) => PartSeen::Any,
        ExchangeKind::Broadcast(_) => PartSeen::All,
        ExchangeKind::Gather | ExchangeKind::Concat => PartSeen::One,
    }
}

impl Had<'_> {
    /// Whether the input has the part.
    pub fn has(self, wanted: &Part) -> bool
        ensures { result ≡ input_has (had_of self.entry) (part_of wanted.now) }
    {
        self.is_alone || self.part.gives(wanted)
    }

    // Whether the input has the part that is routed by this route, on the input columns that these output columns are
    // copies of.
    fn has_copied(self, copying: Copying<'_>, route: &Route, columns: &[usize]) -> bool
        ensures { result ≡ if_some (sources (copying_of copying.entry) columns.now) (λ cs. self.entry.is_alone || part_gives (part_seen self.entry.part) (routed (route_of route.now) cs)) }
    {
        if self.is_alone {
            return are_copies(copying, columns);
        }
        self.part.gives_copied(copying, route, columns)
    }

    // Whether a way of this input alone gives the part; the part of one worker no way does.
    fn gives(self, copying: Copying<'_>, wanted: &Part) -> bool
        ensures { result ≡ gives (way (copying_of copying.entry) (had_of self.entry ∷ [])) (part_of wanted.now) }
    {
        match wanted {
            Part::One => false,
            Part::Any | Part::All => self.has(wanted),
            Part::Routed(route, columns) => self.has_copied(copying, route, columns.as_slice()),
        }
    }
}

impl<'p> Way<'p> {
    /// The first input's part if the second one has it too, else any.
    pub fn common_part(self) -> PartSeen<'p>
        ensures { part_seen result ≡ common_part (way_of self.entry).from }
    {
        match self.second {
            Some(second) if !second.part.gives_seen(self.first.part) => PartSeen::Any,
            _ => self.first.part,
        }
    }

    /// Whether the way gives the part.
    pub fn gives(self, wanted: &Part) -> bool
        ensures { result ≡ gives (way_of self.entry) (part_of wanted.now) }
    {
        if !self.first.gives(self.copying, wanted) {
            return false;
        }
        match self.second {
            Some(second) => second.gives(self.copying, wanted),
            None => true,
        }
    }
}

/// The input with the part that it claims.
pub(crate) fn claimed(input: &TypedNode) -> Had<'_>
    ensures { had_of result ≡ own (plan_of input.now) }
{
    Had {
        is_alone: has_one_worker(input),
        part: seen(claimed_part(input)),
    }
}

// A part, whatever the number of workers.
fn bare<'p>(part: PartSeen<'p>) -> Had<'p>
    ensures { had_of result ≡ bare (part_seen part.entry) }
{
    Had {
        is_alone: false,
        part,
    }
}

// The way of these inputs, if it is there.
fn way_if<'p>(
    is_there: bool,
    copying: Copying<'p>,
    first: Had<'p>,
    second: Option<Had<'p>>,
) -> Option<Way<'p>>
    ensures { way_in result ≡ if_so is_there (way (copying_of copying.entry) (had_of first.entry ∷ option_to_list (option_map had_of second.entry)) ∷ []) }
{
    is_there.then_some(Way {
        copying,
        first,
        second,
    })
}

// Whether rows of the input that agree in these columns are on one worker.
fn do_meet(meets: Option<KeptColumns<'_>>, input: Had<'_>) -> bool
    ensures { result ≡ meet (option_map kept_columns meets.entry) (had_of input.entry) }
{
    match meets {
        None => true,
        Some(kept) => { input.is_alone || input.has(&Part::All) || input.part.is_routed_on(kept) }
    }
}

// The ways of an operator over one input.
fn ways_along<'p>(described: Described<'p>, input: Had<'p>) -> [Option<Way<'p>>; 4]
    ensures { ways_in result ≡ ways_along (described_of described.entry) (had_of input.entry) }
{
    let way = way_if(
        do_meet(described.meets, input),
        described.copying,
        input,
        None,
    );
    [way, None, None, None]
}

// Whether rows of both inputs can stand side by side: each input has each row once, or each has all rows on each worker.
fn do_stand_beside(left: Had<'_>, right: Had<'_>) -> bool
    ensures { result ≡ ((had_of left.entry).0 || ((input_has (had_of left.entry) any && input_has (had_of right.entry) any) || (input_has (had_of left.entry) all && input_has (had_of right.entry) all))) }
{
    left.is_alone
        || (left.has(&Part::Any) && right.has(&Part::Any))
        || (left.has(&Part::All) && right.has(&Part::All))
}

// The ways of rows that meet on these pairs, and make a row each two.
fn ways_met<'p>(
    on: &'p [(usize, usize)],
    described: DescribedBoth<'p>,
    left: Had<'p>,
    right: Had<'p>,
) -> [Option<Way<'p>>; 4]
    ensures { ways_in result ≡ ways_over (paired_on on.now) (described_both_of described.entry) (had_of left.entry) (had_of right.entry) }
{
    let are_alike = are_seen_alike(on, left.part, right.part);
    [
        way_if(are_alike, Copying::WholeRows, bare(left.part), None),
        way_if(are_alike, described.right, bare(right.part), None),
        way_if(right.has(&Part::All), described.left, left, None),
        way_if(left.has(&Part::All), described.right, right, None),
    ]
}

// The ways of left rows that are kept as they meet right ones on these pairs.
fn ways_matched<'p>(
    on: &'p [(usize, usize)],
    described: DescribedBoth<'p>,
    left: Had<'p>,
    right: Had<'p>,
) -> [Option<Way<'p>>; 4]
    ensures { ways_in result ≡ ways_over (matched_on on.now) (described_both_of described.entry) (had_of left.entry) (had_of right.entry) }
{
    let are_alike = are_seen_alike(on, left.part, right.part);
    [
        way_if(are_alike, Copying::WholeRows, bare(left.part), None),
        way_if(right.has(&Part::All), described.left, left, None),
        None,
        None,
    ]
}

// The ways of an operator over two inputs.
fn ways_over<'p>(
    described: DescribedBoth<'p>,
    left: Had<'p>,
    right: Had<'p>,
) -> [Option<Way<'p>>; 4]
    ensures { ways_in result ≡ ways_over (described_both_of described.entry).meeting (described_both_of described.entry) (had_of left.entry) (had_of right.entry) }
{
    match described.meeting {
        Meeting::SideBySide => {
            let stand = do_stand_beside(left, right);
            let way = way_if(stand, described.left, left, Some(right));
            [way, None, None, None]
        }
        Meeting::PairedOn(on) => ways_met(on, described, left, right),
        Meeting::MatchedOn(on) => ways_matched(on, described, left, right),
    }
}

// The way to a part that is there without any input.
fn ways_made<'p>(part: PartSeen<'p>) -> [Option<Way<'p>>; 4]
    ensures { ways_in result ≡ ways_made (part_seen part.entry) }
{
    [
        way_if(true, Copying::WholeRows, bare(part), None),
        None,
        None,
        None,
    ]
}

// The part of a scan.
fn scanned<'p>(is_shared: bool) -> PartSeen<'p>
    ensures { part_seen result ≡ cond is_shared any all }
{
    if is_shared {
        PartSeen::Any
    } else {
        PartSeen::All
    }
}

/// The ways of a node whose inputs have these parts in place of those that they claim. A node with fewer inputs looks at
/// the first one alone, or at none.
pub fn ways_from<'p>(node: &'p TypedNode, left: Had<'p>, right: Had<'p>) -> [Option<Way<'p>>; 4]
    ensures { (catalog : ℕ → Relation) → HasOutputs catalog (outline_of node.now) → ways_in result ≡ ways_from catalog (plan_of node.now) (had_of left.entry) (had_of right.entry) }
{
    match node {
        TypedNode::Scan(_, scan) => ways_made(scanned(scan.shared)),
        TypedNode::Unary(_, operator, _) => ways_along(operator.described(), left),
        TypedNode::Binary(_, operator, input, _) => {
            ways_over(operator.described(output_types(input)), left, right)
        }
        TypedNode::Exchange(_, exchange, _) => ways_made(made(&exchange.kind)),
    }
}

/// The ways of a node to a part.
pub fn node_ways(node: &TypedNode) -> [Option<Way<'_>>; 4]
    ensures { (catalog : ℕ → Relation) → HasOutputs catalog (outline_of node.now) → ways_in result ≡ (behaviour catalog (plan_of node.now)).ways }
{
    match node {
        TypedNode::Scan(_, _) => ways_from(node, bare(PartSeen::Any), bare(PartSeen::Any)),
        TypedNode::Unary(_, _, input) => ways_from(node, claimed(input), bare(PartSeen::Any)),
        TypedNode::Binary(_, _, left, right) => ways_from(node, claimed(left), claimed(right)),
        TypedNode::Exchange(_, _, input) => { ways_from(node, claimed(input), bare(PartSeen::Any)) }
    }
}

// A way, and no other one.
fn one_way<'p>(
    copying: Copying<'p>,
    first: Had<'p>,
    second: Option<Had<'p>>,
) -> [Option<Way<'p>>; 4]
    ensures { ways_in result ≡ way (copying_of copying.entry) (had_of first.entry ∷ option_to_list (option_map had_of second.entry)) ∷ [] }
{
    [way_if(true, copying, first, second), None, None, None]
}

// The ways of an operator over two inputs, if rows that stand side by side may.
fn both_if_fit<'p>(
    described: DescribedBoth<'p>,
    left: Had<'p>,
    right: Had<'p>,
) -> [Option<Way<'p>>; 4]
    ensures { ways_in result ≡ both_if_fit (described_both_of described.entry).meeting (described_both_of described.entry) (had_of left.entry) (had_of right.entry) }
{
    match described.meeting {
        Meeting::SideBySide => one_way(described.left, left, Some(right)),
        Meeting::PairedOn(on) => ways_met(on, described, left, right),
        Meeting::MatchedOn(on) => ways_matched(on, described, left, right),
    }
}

/// The ways of a node to a part if its operator fits its inputs, which is not tested.
pub fn ways_if_fit(node: &TypedNode) -> [Option<Way<'_>>; 4]
    ensures { (catalog : ℕ → Relation) → HasOutputs catalog (outline_of node.now) → ways_in result ≡ ways_if_fit catalog (plan_of node.now) }
{
    match node {
        TypedNode::Scan(_, scan) => ways_made(scanned(scan.shared)),
        TypedNode::Unary(_, operator, input) => {
            one_way(operator.described().copying, claimed(input), None)
        }
        TypedNode::Binary(_, operator, left, right) => both_if_fit(
            operator.described(output_types(left)),
            claimed(left),
            claimed(right),
        ),
        TypedNode::Exchange(_, exchange, _) => ways_made(made(&exchange.kind)),
    }
}

// Whether the way is there and gives the part.
fn is_given(way: Option<Way<'_>>, wanted: &Part) -> bool
    ensures { result ≡ list_any (λ w. gives w (part_of wanted.now)) (way_in way.entry) }
{
    match way {
        Some(way) => way.gives(wanted),
        None => false,
    }
}

/// Whether one of the ways gives the part.
pub fn show_part(ways: &[Option<Way<'_>>], wanted: &Part) -> bool
    ensures { result ≡ list_any (λ w. gives w (part_of wanted.now)) (ways_in ways.now) }
{
    for way in ways {
        if is_given(*way, wanted) {
            return true;
        }
    }
    false
}

/// Whether there is a way.
pub fn has_way(ways: &[Option<Way<'_>>]) -> bool
    ensures { result ≡ list_any (λ w. true) (ways_in ways.now) }
{
    for way in ways {
        if way.is_some() {
            return true;
        }
    }
    false
}
