//! Plans from JSON values and texts.

ghost use Rattle.std.specs.Prelude.{◌≡◌, ◌<◌, ◌≤◌, ◌+◌, ◌++◌, string_bytes, IfOk};
ghost use Rattle.serde_json.specs.View.{view};
ghost use Rattle.vx_catalog_json.specs.Look.{Parses};
ghost use Rattle.vx_plan_json.specs.Fault.{Gives};
ghost use Rattle.vx_plan_json.specs.Document.{tree_of};
ghost use Rattle.vx_rows_values.specs.Ranges.{RangeForm, range_form};
ghost use Rattle.vx_plan_json.specs.Reading.{node_in, declared_in, head_in, head_form, document_in, document_of_text};
ghost use Rattle.vx_plan_json.specs.PlanView.{document_of};
ghost use Rattle.vx_plan_json.specs.Formed.{levels_left};
ghost use Rattle.vx_rows_values.specs.Limits.{max_levels};

use crate::document::Plan;
use crate::fault::PlanFault;
use crate::look::{ValueReader, read_name_at};
use crate::operators::{Own, read_own};
use crate::plan::Node;
use serde_json::Value as Json;
use std::alloc::{AllocError, Global};
use vx_catalog_json::{
    Misread, NameReader, Reader, get_member, read_flag, read_list, read_list_or_empty, test_members,
};
use vx_rows_values::NamedRange;
use vx_rows_values::limits::{MAX_LEVELS, MAX_NODES};

// Reads declared ranges.
struct RangeReader;

impl Reader for RangeReader {
    type Item = NamedRange;

    ghost Form = { RangeForm };

    ghost look = { range_form };

    ghost form = { declared_in };

    #[tactic(auto, unfolding(crate::specs::Reading::declared_in))]
    fn read(alloc: Global, value: &Json) -> Result<NamedRange, Misread> {
        test_members(value, &["name", "bounds"])?;
        let name = read_name_at(alloc, value, "name")?;
        let bounds = read_list::<ValueReader>(alloc, get_member(value, "bounds")?)?;
        Ok(NamedRange { name, bounds })
    }
}

// The path of an input.
fn path_of(alloc: Global, path: &str, step: &str) -> Result<String, AllocError>
    ensures { IfOk result (λ s. string_bytes s ≡ path.now ++ step.now) }
{
    let mut below = String::from_str(alloc, path)?;
    below.push_str(step)?;
    Ok(below)
}

// How many levels of JSON the operands of a node may have below which so many levels of nodes may stand. A text has 127, of
// which the document has one and each node one; 60 are left below the lowest node, its list and an object in that.
fn levels_left(below: u32) -> u32
    requires { below < max_levels }
    ensures { result ≡ levels_left below }
{
    below + 60
}

// The tree of an input, which is a step below the operator with this path.
#[cycle(nodes)]
fn read_input(
    alloc: Global,
    derives: bool,
    levels: u32,
    seen: u32,
    path: &str,
    step: &str,
    value: &Json,
) -> Result<(Box<Node>, u32), PlanFault>
    requires { levels ≤ max_levels }
    ensures { Gives (λ r. (tree_of r.0.value, r.1)) result (node_in derives levels seen (path.now ++ step.now) (view value.now)) }
{
    let below = path_of(alloc, path, step)?;
    let (node, after) = read_node(alloc, derives, levels, seen, below.as_str(), value)?;
    Ok((Box::new(alloc, node)?, after))
}

/// The tree of a value, and how many nodes have been seen after it.
#[cycle(nodes)]
#[tactic(auto, unfolding(crate::specs::Reading::node_in))]
pub fn read_node(
    alloc: Global,
    derives: bool,
    levels: u32,
    seen: u32,
    path: &str,
    value: &Json,
) -> Result<(Node, u32), PlanFault>
    requires { levels ≤ max_levels }
    ensures { Gives (λ r. (tree_of r.0, r.1)) result (node_in derives levels seen path.now (view value.now)) }
{
    if levels == 0 || seen >= MAX_NODES {
        return Err(PlanFault::TooDeep);
    }
    let below = levels - 1;
    let own = match read_own(alloc, derives, levels_left(below), value) {
        Ok(own) => own,
        Err(Misread::NoMemory) => return Err(PlanFault::NoMemory),
        Err(Misread::NotOfForm) => {
            let path = String::from_str(alloc, path)?;
            return Err(PlanFault::BadNode { path });
        }
    };
    match own {
        Own::Scan(claim, scan) => Ok((Node::Scan(claim, scan), seen + 1)),
        Own::Unary(claim, unary, input) => {
            let (node, after) = read_input(alloc, derives, below, seen + 1, path, ".input", input)?;
            Ok((Node::Unary(claim, unary, node), after))
        }
        Own::Binary(claim, binary, left, right) => {
            let (first, seen) = read_input(alloc, derives, below, seen + 1, path, ".left", left)?;
            let (second, after) = read_input(alloc, derives, below, seen, path, ".right", right)?;
            Ok((Node::Binary(claim, binary, first, second), after))
        }
        Own::Exchange(claim, kind, merge, input) => {
            let (node, after) = read_input(alloc, derives, below, seen + 1, path, ".input", input)?;
            Ok((Node::Exchange(claim, kind, merge, node), after))
        }
    }
}

/// The members of a document but the root, and the root's value.
#[derive(Drop)]
pub struct Header<'v> {
    sizes: Vec<String>,
    ranges: Vec<NamedRange>,
    total: bool,
    derives: bool,
    root: &'v Json,
}

// A document's own members, and the value of its root.
#[tactic(auto, unfolding(crate::specs::Reading::head_in, crate::specs::Form::names_in))]
fn read_header<'v>(alloc: Global, value: &'v Json) -> Result<Header<'v>, Misread>
    ensures { Parses head_form result (head_in (view value.now)) }
{
    test_members(value, &["sizes", "ranges", "total", "derive", "root"])?;
    let sizes = read_list_or_empty::<NameReader>(alloc, value, "sizes")?;
    let ranges = read_list_or_empty::<RangeReader>(alloc, value, "ranges")?;
    let total = read_flag(value, "total")?;
    let derives = read_flag(value, "derive")?;
    let root = get_member(value, "root")?;
    Ok(Header {
        sizes,
        ranges,
        total,
        derives,
        root,
    })
}

/// The plan of a JSON value.
#[tactic(auto, unfolding(crate::specs::Reading::document_in))]
pub fn read_document(alloc: Global, value: &Json) -> Result<Plan, PlanFault>
    ensures { Gives document_of result (document_in (view value.now)) }
{
    let header = match read_header(alloc, value) {
        Ok(header) => header,
        Err(Misread::NoMemory) => return Err(PlanFault::NoMemory),
        Err(Misread::NotOfForm) => {
            let path = String::from_str(alloc, "document")?;
            return Err(PlanFault::BadNode { path });
        }
    };
    let (root, _) = read_node(alloc, header.derives, MAX_LEVELS, 0, "root", header.root)?;
    Ok(Plan::new(
        header.sizes,
        header.ranges,
        header.total,
        header.derives,
        root,
    ))
}

/// The plan of a JSON text.
#[tactic(auto, unfolding(crate::specs::Reading::document_of_text))]
pub fn read_text(alloc: Global, bytes: &[u8]) -> Result<Plan, PlanFault>
    ensures { Gives document_of result (document_of_text bytes.now) }
{
    match Json::from_slice(alloc, bytes) {
        Ok(value) => read_document(alloc, &value),
        Err(error) if error.is_memory() => Err(PlanFault::NoMemory),
        Err(_) => Err(PlanFault::NotJson),
    }
}
