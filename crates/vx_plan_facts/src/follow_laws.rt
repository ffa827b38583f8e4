//! What follows from facts of columns: each law is the contract of a function with an empty body.

ghost use Rattle.vx_plan_facts.specs.FollowLaws.{OrderFollows, KeyFollows, TotalFollows};

/// Sorted on an order, rows are sorted on each that follows from it.
pub fn orders_follow()
    ensures { OrderFollows }
{}

/// Columns that determine all of a key are one.
pub fn keys_follow()
    ensures { KeyFollows }
{}

/// Rows that agree on an order that determines a key, or all columns, are one row.
pub fn totals_follow()
    ensures { TotalFollows }
{}
