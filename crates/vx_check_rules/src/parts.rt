//! Parts: what a claimed one gives.

ghost use Rattle.std.specs.Prelude.{◌≡◌};
ghost use Rattle.vx_plan_nodes.specs.Plan.{routed};
ghost use Rattle.vx_plan_nodes.specs.Outline.{part_of, route_of, plan_of};
ghost use Rattle.vx_plan_nodes.specs.DescribeView.{copying_of, kept_columns};
ghost use Rattle.vx_check_rules.specs.Rules.{route_eq, part_gives, has, if_some, within, routed_within, routed_alike};
ghost use Rattle.vx_check_rules.specs.Behaviour.{sources};
ghost use Rattle.vx_check_rules.specs.WayView.{part_seen};

use crate::columns::are_same;
use crate::nodes::{claimed_part, has_one_worker};
use crate::pairs::are_pairs;
use crate::sources::are_copies_of;
use vx_plan_nodes::{Copying, KeptColumns, Part, Route, TypedNode};

/// A part that is borrowed.
#[derive(Clone, Copy)]
pub enum PartSeen<'p> {
    One,
    Any,
    All,
    Routed(&'p Route, &'p [usize]),
}

/// The part, borrowed.
pub fn seen(part: &Part) -> PartSeen<'_>
    ensures { part_seen result ≡ part_of part.now }
{
    match part {
        Part::One => PartSeen::One,
        Part::Any => PartSeen::Any,
        Part::All => PartSeen::All,
        Part::Routed(route, columns) => PartSeen::Routed(route, columns.as_slice()),
    }
}

/// Whether two routes are one: of the same kind, with the same name.
pub fn is_same_route(route: &Route, other: &Route) -> bool
    ensures { result ≡ route_eq (route_of route.now) (route_of other.now) }
{
    match (route, other) {
        (Route::Hash(name), Route::Hash(other)) => name.as_str() == other.as_str(),
        (Route::Range(range), Route::Range(other)) => *range == *other,
        _ => false,
    }
}

// Whether a part that is routed by this route on these columns gives the wanted one.
fn route_gives(route: &Route, columns: &[usize], wanted: PartSeen<'_>) -> bool
    ensures { result ≡ part_gives (routed (route_of route.now) columns.now) (part_seen wanted.entry) }
{
    match wanted {
        PartSeen::One | PartSeen::All => false,
        PartSeen::Any => true,
        PartSeen::Routed(other, others) => is_same_route(route, other) && are_same(columns, others),
    }
}

impl PartSeen<'_> {
    /// Whether the wanted part is this one, or any where this one is routed.
    pub fn gives_seen(self, wanted: PartSeen<'_>) -> bool
        ensures { result ≡ part_gives (part_seen self.entry) (part_seen wanted.entry) }
    {
        match (self, wanted) {
            (PartSeen::One, PartSeen::One)
            | (PartSeen::Any, PartSeen::Any)
            | (PartSeen::All, PartSeen::All) => true,
            (PartSeen::Routed(route, columns), _) => route_gives(route, columns, wanted),
            _ => false,
        }
    }

    /// The same of a part that owns its columns.
    pub fn gives(self, wanted: &Part) -> bool
        ensures { result ≡ part_gives (part_seen self.entry) (part_of wanted.now) }
    {
        self.gives_seen(seen(wanted))
    }

    /// Whether it is routed by this route, on the input columns that these output columns are copies of.
    pub fn gives_copied(self, copying: Copying<'_>, route: &Route, columns: &[usize]) -> bool
        ensures { result ≡ if_some (sources (copying_of copying.entry) columns.now) (λ cs. part_gives (part_seen self.entry) (routed (route_of route.now) cs)) }
    {
        match self {
            PartSeen::Routed(own, inputs) => {
                is_same_route(own, route) && are_copies_of(copying, columns, inputs)
            }
            _ => false,
        }
    }

    /// Whether it is routed on columns that are all kept.
    pub fn is_routed_on(self, kept: KeptColumns<'_>) -> bool
        ensures { result ≡ routed_within (part_seen self.entry) (kept_columns kept.entry) }
    {
        match self {
            PartSeen::Routed(_, columns) => are_kept(kept, columns),
            _ => false,
        }
    }
}

/// Whether the wanted part is the claimed one, or any where that is routed.
pub fn gives(claimed: &Part, wanted: &Part) -> bool
    ensures { result ≡ part_gives (part_of claimed.now) (part_of wanted.now) }
{
    seen(claimed).gives(wanted)
}

/// Whether the node has the part, by its claim or because it has one worker.
pub fn has_part(node: &TypedNode, wanted: &Part) -> bool
    ensures { result ≡ has (plan_of node.now) (part_of wanted.now) }
{
    has_one_worker(node) || gives(claimed_part(node), wanted)
}

/// Whether both parts are routed by one route, on columns that the pairs name.
pub fn are_seen_alike(on: &[(usize, usize)], left: PartSeen<'_>, right: PartSeen<'_>) -> bool
    ensures { result ≡ routed_alike on.now (part_seen left.entry) (part_seen right.entry) }
{
    match (left, right) {
        (PartSeen::Routed(route, lefts), PartSeen::Routed(other, rights)) => {
            is_same_route(route, other) && are_pairs(on, lefts, rights)
        }
        _ => false,
    }
}

// Whether each of the columns is kept.
fn are_kept(kept: KeptColumns<'_>, columns: &[usize]) -> bool
    ensures { result ≡ within columns.now (kept_columns kept.entry) }
{
    for column in columns {
        if !kept.contains(*column) {
            return false;
        }
    }
    true
}
