//! The order that a node shows tells the most.

ghost use Rattle.vx_check_shown.specs.OrderLaws.{ShownOrderTellsTheMost};

/// The order that a node shows is one by the table, each other one by the table follows from it, and none of its columns can be left out.
pub fn shown_order_tells_the_most()
    ensures { ShownOrderTellsTheMost }
{}
