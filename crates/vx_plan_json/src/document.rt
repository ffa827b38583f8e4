//! A plan as it was read.

ghost use Rattle.std.specs.Prelude.{◌≡◌, ◌≤◌, true, map, string_bytes};
ghost use Rattle.vx_plan_json.specs.Formed.{is_tree_form, is_head_form, are_keys_few, are_operands_low};
ghost use Rattle.vx_plan_json.specs.Document.{tree_of, tree_nodes, tree_levels};
ghost use Rattle.vx_rows_values.specs.Ranges.{range_form};
ghost use Rattle.vx_rows_values.specs.Limits.{max_levels, max_nodes};

use crate::fault::PlanFault;
use crate::plan::Node;
use crate::reading::{read_document, read_text};
use serde_json::Value as Json;
use std::alloc::Global;
use vx_rows_values::NamedRange;

/// A plan that was read, with names in place of positions. It has at most 1,000 nodes, 64 below one another, and no name in
/// it is empty. Where it asks for what is known of its columns, a claim has at most 16 keys. Its JSON nests no deeper than a
/// text may.
pub struct Plan {
    sizes: Vec<String>,
    ranges: Vec<NamedRange>,
    total: bool,
    derives: bool,
    root: Node,
    ghost few_nodes: { tree_nodes (tree_of root) ≤ max_nodes },
    ghost few_levels: { tree_levels (tree_of root) ≤ max_levels },
    ghost declared: { is_head_form (map string_bytes sizes.items) (map range_form ranges.items) ≡ true },
    ghost formed: { is_tree_form (tree_of root) ≡ true },
    ghost low_operands: { are_operands_low max_levels (tree_of root) ≡ true },
    ghost few_keys: { are_keys_few derives (tree_of root) ≡ true },
}

// By hand, so that the drops of its parts are made and proved here once, and not again in each crate that drops one.
impl Drop for Plan {
    fn drop(self) {
        let Plan {
            sizes: _,
            ranges: _,
            total: _,
            derives: _,
            root: _,
        } = self;
    }
}

impl Plan {
    ghost use Rattle.vx_plan_json.specs.Fault.{Gives};
    ghost use Rattle.vx_plan_json.specs.Reading.{document_in, document_of_text};
    ghost use Rattle.vx_plan_json.specs.PlanView.{document_of};
    ghost use Rattle.serde_json.specs.View.{view};

    /// The parts of a plan, as a document has them.
    pub fn new(
        sizes: Vec<String>,
        ranges: Vec<NamedRange>,
        total: bool,
        derives: bool,
        root: Node,
    ) -> Plan
        requires few { tree_nodes (tree_of root) ≤ max_nodes }
        requires low { tree_levels (tree_of root) ≤ max_levels }
        requires declared { is_head_form (map string_bytes sizes.items) (map range_form ranges.items) ≡ true }
        requires formed { is_tree_form (tree_of root) ≡ true }
        requires low_operands { are_operands_low max_levels (tree_of root) ≡ true }
        requires few_keys { are_keys_few derives (tree_of root) ≡ true }
        ensures sizes { (document_of result).sizes ≡ map string_bytes sizes.items }
        ensures ranges { (document_of result).ranges ≡ map range_form ranges.items }
        ensures total { (document_of result).total ≡ total }
        ensures derives { (document_of result).derives ≡ derives }
        ensures root { (document_of result).root ≡ tree_of root }
    {
        Plan {
            sizes,
            ranges,
            total,
            derives,
            root,
        }
    }

    /// The plan of a JSON value. Refusals are `BadNode` and `TooDeep`: the document's own members come first, then its
    /// nodes in preorder.
    pub fn of_value(alloc: Global, value: &Json) -> Result<Plan, PlanFault>
        ensures { Gives document_of result (document_in (view value.now)) }
    {
        read_document(alloc, value)
    }

    /// The plan of a JSON text in UTF-8. Refusals are `NotJson` and those of `of_value`.
    pub fn read(alloc: Global, bytes: &[u8]) -> Result<Plan, PlanFault>
        ensures { Gives document_of result (document_of_text bytes.now) }
    {
        read_text(alloc, bytes)
    }

    /// The declared size names, in order.
    pub fn sizes(&self) -> &[String]
        ensures { map string_bytes result.now ≡ (document_of self.now).sizes }
    {
        self.sizes.as_slice()
    }

    /// The declared ranges, in order.
    pub fn ranges(&self) -> &[NamedRange]
        ensures { map range_form result.now ≡ (document_of self.now).ranges }
    {
        self.ranges.as_slice()
    }

    /// Whether the plan says that its root's list is in a total order.
    pub fn is_total(&self) -> bool
        ensures { result ≡ (document_of self.now).total }
    {
        self.total
    }

    /// Whether the plan asks that the checker use what is known of its columns: equal ones, fixed ones and what keys
    /// determine.
    pub fn derives(&self) -> bool
        ensures { result ≡ (document_of self.now).derives }
    {
        self.derives
    }

    /// The node at the top.
    pub fn root(&self) -> &Node
        ensures root { tree_of result.now ≡ (document_of self.now).root }
        ensures few { tree_nodes (tree_of result.now) ≤ max_nodes }
        ensures low { tree_levels (tree_of result.now) ≤ max_levels }
        ensures declared { is_head_form (document_of self.now).sizes (document_of self.now).ranges ≡ true }
        ensures formed { is_tree_form (tree_of result.now) ≡ true }
        ensures low_operands { are_operands_low max_levels (tree_of result.now) ≡ true }
        ensures few_keys { are_keys_few (document_of self.now).derives (tree_of result.now) ≡ true }
    {
        &self.root
    }

    /// The declared size names, the declared ranges, and the node at the top.
    pub fn into_parts(self) -> (Vec<String>, Vec<NamedRange>, Node)
        ensures sizes { map string_bytes result.0.items ≡ (document_of self).sizes }
        ensures ranges { map range_form result.1.items ≡ (document_of self).ranges }
        ensures root { tree_of result.2 ≡ (document_of self).root }
        ensures few { tree_nodes (tree_of result.2) ≤ max_nodes }
        ensures low { tree_levels (tree_of result.2) ≤ max_levels }
        ensures declared { is_head_form (document_of self).sizes (document_of self).ranges ≡ true }
        ensures formed { is_tree_form (tree_of result.2) ≡ true }
        ensures low_operands { are_operands_low max_levels (tree_of result.2) ≡ true }
        ensures few_keys { are_keys_few (document_of self).derives (tree_of result.2) ≡ true }
    {
        let Plan {
            sizes,
            ranges,
            total: _,
            derives: _,
            root,
        } = self;
        (sizes, ranges, root)
    }
}
