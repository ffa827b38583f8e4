//! The part and the order that the claims of a node's inputs carry up to the node.

ghost use Rattle.std.specs.Prelude.{◌≡◌, ℕ, option_map, IfOk};
ghost use Rattle.vx_catalog_relations.specs.Relation.{Relation};
ghost use Rattle.vx_catalog_relations.specs.Catalog.{relation_at};
ghost use Rattle.vx_plan_nodes.specs.Outline.{part_of, route_of, outline_of, plan_of};
ghost use Rattle.vx_plan_nodes.specs.Outputs.{HasOutputs};
ghost use Rattle.vx_plan_nodes.specs.DescribeView.{copying_of};
ghost use Rattle.vx_check_rules.specs.Behaviour.{places, routed_at, part_up, first_part, first_order, node_part, node_order};
ghost use Rattle.vx_check_rules.specs.WayView.{part_seen, ways_in};
ghost use Rattle.vx_check_rules.specs.Seen.{columns_seen};
ghost use Rattle.vx_check_rules.specs.SortedView.{sortings_in};

use crate::columns::ColumnsSeen;
use crate::nodes::has_one_worker;
use crate::parts::PartSeen;
use crate::places::{have_places, put_order, put_places};
use crate::sortings::{Sorted, node_sortings};
use crate::ways::{Way, node_ways};
use std::alloc::{AllocError, Global};
use vx_catalog_relations::Catalog;
use vx_plan_nodes::{Copying, Part, Route, TypedNode, routed_part};
use vx_rows_values::OrderEntry;

// A part that is routed on the places of these columns, if each has one; else each row is somewhere.
fn routed_at(
    alloc: Global,
    route: &Route,
    copying: Copying<'_>,
    columns: ColumnsSeen<'_>,
) -> Result<Part, AllocError>
    ensures { IfOk result (λ p. part_of p ≡ routed_at (route_of route.now) (places (copying_of copying.entry) (columns_seen columns.entry))) }
{
    if !have_places(copying, columns) {
        return Ok(Part::Any);
    }
    let mut found = Vec::new(alloc);
    put_places(&mut found, copying, columns)?;
    routed_part(alloc, route, found)
}

// What an output has of an input's part.
fn part_up(
    alloc: Global,
    copying: Copying<'_>,
    part: PartSeen<'_>,
) -> Result<Option<Part>, AllocError>
    ensures { IfOk result (λ o. option_map part_of o ≡ part_up (copying_of copying.entry) (part_seen part.entry)) }
{
    match part {
        PartSeen::One => Ok(None),
        PartSeen::Any => Ok(Some(Part::Any)),
        PartSeen::All => Ok(Some(Part::All)),
        PartSeen::Routed(route, columns) => {
            let part = routed_at(alloc, route, copying, ColumnsSeen::Listed(columns))?;
            Ok(Some(part))
        }
    }
}

// The part that the first way that is there carries up.
fn first_part(alloc: Global, ways: &[Option<Way<'_>>]) -> Result<Option<Part>, AllocError>
    ensures { IfOk result (λ o. option_map part_of o ≡ first_part (ways_in ways.now)) }
{
    for way in ways {
        if let Some(way) = *way {
            return part_up(alloc, way.copying, way.common_part());
        }
    }
    Ok(None)
}

/// The part that is carried up to a node, if one is: that of one worker, or what its first way carries up.
pub fn node_part(alloc: Global, node: &TypedNode) -> Result<Option<Part>, AllocError>
    ensures { (catalog : ℕ → Relation) → HasOutputs catalog (outline_of node.now) → IfOk result (λ o. option_map part_of o ≡ node_part catalog (plan_of node.now)) }
{
    if has_one_worker(node) {
        Ok(Some(Part::One))
    } else {
        first_part(alloc, &node_ways(node))
    }
}

// The order that the first of these that is there carries up.
fn first_order(
    alloc: Global,
    sortings: &[Option<Sorted<'_>>],
) -> Result<Vec<OrderEntry>, AllocError>
    ensures { IfOk result (λ v. v.items ≡ first_order (sortings_in sortings.now)) }
{
    for sorting in sortings {
        if let Some(sorted) = *sorting {
            let mut found = Vec::new(alloc);
            put_order(&mut found, sorted.copying, sorted.order)?;
            return Ok(found);
        }
    }
    Ok(Vec::new(alloc))
}

/// The order that is carried up to a node.
pub fn node_order(
    alloc: Global,
    catalog: &Catalog,
    node: &TypedNode,
) -> Result<Vec<OrderEntry>, AllocError>
    ensures { IfOk result (λ v. v.items ≡ node_order (relation_at catalog.now) (plan_of node.now)) }
{
    first_order(alloc, &node_sortings(catalog, node))
}
