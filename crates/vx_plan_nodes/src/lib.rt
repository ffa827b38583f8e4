//! Plans over a catalog: their nodes, what they mean in series and by their workers, and plans that have the types that they need.
#![tactic(auto)]

mod conditions;
mod describe;
mod functions;
mod halves;
mod known;
mod laws;
mod name;
mod outputs;
mod parts;
mod router;
mod typed;
mod typed_plan;

pub use conditions::{copied_conditions, copied_entries, copied_filters};
pub use describe::{
    Copying, Described, DescribedBoth, KeptColumns, KeysAfter, Meeting, OrderAfter,
};
pub use functions::{PlanFunctions, StandardFunctions};
pub use known::first_unknown;
pub use laws::{
    descriptions_stay, functions_go_along, last_functions_stand, nodes_stay, phases_stay,
    types_stay,
};
pub use name::{Name, find_output_name, name_texts, share_names};
pub use outputs::output_types;
pub use parts::{copied_part, kind_part, routed_part};
pub use router::Router;
pub use typed::{
    Aggregate, Binary, Claim, Columns, Condition, Entry, Exchange, ExchangeKind, Expression,
    Filter, Head, Part, Phase, Projected, Route, ScanNode, Side, Size, SortPhase, TypedNode, Unary,
};
pub use typed_plan::{TypedParts, TypedPlan};
