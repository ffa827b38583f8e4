//! A plan over a catalog that was resolved.

ghost use Rattle.std.specs.Prelude.{◌≡◌, ◌≤◌, true, false, nat_le, map, length, string_bytes};
ghost use Rattle.std.specs.List.{list_all};
ghost use Rattle.vx_rows_values.specs.Ranges.{range_form};
ghost use Rattle.vx_catalog_relations.specs.Catalog.{relation_at};
ghost use Rattle.vx_plan_nodes.specs.Names.{scope_of};
ghost use Rattle.vx_plan_nodes.specs.Numbering.{nodes, is_numbered};
ghost use Rattle.vx_plan_nodes.specs.Outline.{outline_of, plan_of};
ghost use Rattle.vx_plan_nodes.specs.Phases.{is_open};
ghost use Rattle.vx_plan_nodes.specs.Typed.{is_range, typed, IsTyped};
ghost use Rattle.vx_plan_nodes.specs.Outputs.{HasOutputs};
ghost use Rattle.vx_plan_nodes.specs.OutputProps.{outputs-prop};
ghost use Rattle.vx_rows_values.specs.Limits.{max_nodes, max_size_names};

use crate::typed::TypedNode;
use vx_catalog_relations::Catalog;
use vx_rows_values::NamedRange;

/// A plan with its catalog. Every node names what there is, has the types that it needs, says which types its output
/// has, and is numbered in preorder from 0. Each grouping in two steps has both of them. There are at most 1,000 nodes.
pub struct TypedPlan {
    catalog: Catalog,
    sizes: Vec<String>,
    ranges: Vec<NamedRange>,
    total: bool,
    derives: bool,
    root: TypedNode,
    ghost ranges_are: { list_all is_range (map (λ r. r.bounds) (map range_form ranges.items)) ≡ true },
    ghost few_sizes: { nat_le (length (map string_bytes sizes.items)) max_size_names ≡ true },
    ghost typed_nodes: { typed (scope_of (record { catalog = catalog; ranges = map range_form ranges.items; sizes = map string_bytes sizes.items })) (plan_of root) ≡ true },
    ghost outputs: { HasOutputs (relation_at catalog) (outline_of root) } by { outputs-prop (relation_at catalog) (outline_of root) },
    ghost numbered: { is_numbered 0 (plan_of root) ≡ true },
    ghost closed: { is_open (plan_of root) ≡ false },
    ghost few_nodes: { nodes (plan_of root) ≤ max_nodes },
}

// By hand, so that the drops of its parts are made and proved here once, and not again in each crate that drops one.
impl Drop for TypedPlan {
    fn drop(self) {
        let TypedPlan {
            catalog: _,
            sizes: _,
            ranges: _,
            total: _,
            derives: _,
            root: _,
        } = self;
    }
}

/// The parts of a typed plan.
#[derive(Drop)]
pub struct TypedParts {
    pub catalog: Catalog,
    pub sizes: Vec<String>,
    pub ranges: Vec<NamedRange>,
    pub total: bool,
    pub derives: bool,
    pub root: TypedNode,
}

impl TypedPlan {
    ghost use Rattle.vx_plan_nodes.specs.TypedView.{names_in, scope, plan, resolved_of};

    /// A typed plan of its parts.
    pub fn new(
        catalog: Catalog,
        sizes: Vec<String>,
        ranges: Vec<NamedRange>,
        total: bool,
        derives: bool,
        root: TypedNode,
    ) -> TypedPlan
        requires typed { IsTyped (scope_of (record { catalog = catalog; ranges = map range_form ranges.items; sizes = map string_bytes sizes.items })) (plan_of root) }
        requires outputs { HasOutputs (relation_at catalog) (outline_of root) }
        requires few { nodes (plan_of root) ≤ max_nodes }
        ensures names { names_in result ≡ record { catalog = catalog; ranges = map range_form ranges.items; sizes = map string_bytes sizes.items } }
        ensures total { (resolved_of result).total ≡ total }
        ensures derives { (resolved_of result).derives ≡ derives }
        ensures root { (resolved_of result).root ≡ outline_of root }
    {
        TypedPlan {
            catalog,
            sizes,
            ranges,
            total,
            derives,
            root,
        }
    }

    /// Its parts, of which a plan can be made again once its nodes were changed.
    pub fn into_parts(self) -> TypedParts
        ensures names { record { catalog = result.catalog; ranges = map range_form result.ranges.items; sizes = map string_bytes result.sizes.items } ≡ names_in self }
        ensures total { result.total ≡ (resolved_of self).total }
        ensures derives { result.derives ≡ (resolved_of self).derives }
        ensures root { outline_of result.root ≡ (resolved_of self).root }
        ensures typed { IsTyped (scope self) (plan_of result.root) }
        ensures outputs { HasOutputs (relation_at (scope self).catalog) (outline_of result.root) }
        ensures few { nodes (plan_of result.root) ≤ max_nodes }
    {
        let TypedPlan {
            catalog,
            sizes,
            ranges,
            total,
            derives,
            root,
        } = self;
        TypedParts {
            catalog,
            sizes,
            ranges,
            total,
            derives,
            root,
        }
    }

    /// The catalog whose relations the plan scans.
    pub fn catalog(&self) -> &Catalog
        ensures { result.now ≡ (scope self.now).catalog }
    {
        &self.catalog
    }

    /// The declared size names, in order.
    pub fn sizes(&self) -> &[String]
        ensures names { map string_bytes result.now ≡ (names_in self.now).sizes }
        ensures count { length result.now ≡ (scope self.now).sizes }
    {
        self.sizes.as_slice()
    }

    /// The declared ranges, in order.
    pub fn ranges(&self) -> &[NamedRange]
        ensures { map range_form result.now ≡ (names_in self.now).ranges }
    {
        self.ranges.as_slice()
    }

    /// Whether the plan says that its root's list is in a total order.
    pub fn is_total(&self) -> bool
        ensures { result ≡ (resolved_of self.now).total }
    {
        self.total
    }

    /// Whether the checker may use what is known of columns: equal ones, fixed ones and what keys determine.
    pub fn derives(&self) -> bool
        ensures { result ≡ (resolved_of self.now).derives }
    {
        self.derives
    }

    /// The node at the top.
    pub fn root(&self) -> &TypedNode
        ensures root { outline_of result.now ≡ (resolved_of self.now).root }
        ensures plan { plan_of result.now ≡ plan self.now }
        ensures typed { IsTyped (scope self.now) (plan_of result.now) }
        ensures outputs { HasOutputs (relation_at (scope self.now).catalog) (outline_of result.now) }
        ensures few { nodes (plan_of result.now) ≤ max_nodes }
    {
        &self.root
    }
}
