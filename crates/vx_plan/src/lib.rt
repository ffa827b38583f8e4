//! Plans, resolved over a catalog.
#![tactic(auto)]

mod binary_nodes;
mod claims;
mod columns;
mod conditions;
mod entries;
mod erasing;
mod exchange_nodes;
mod fits;
mod lookup;
mod naming;
mod nodes;
mod phases;
mod resolving;
mod unary_nodes;

pub use erasing::erase;
pub use naming::named_claim;
pub use phases::first_columns;
pub use resolving::{plans_are_resolved_exactly, resolve};
pub use vx_plan_json::{Plan, PlanFault, to_json};
pub use vx_plan_nodes::{
    Aggregate, Binary, Claim, Columns, Condition, Entry, Exchange, ExchangeKind, Expression,
    Filter, Head, Name, Part, Phase, Projected, Route, Router, ScanNode, Side, Size, TypedNode,
    TypedPlan, Unary, copied_conditions, copied_entries, copied_filters, name_texts,
};
pub use vx_rows_values::Test;
