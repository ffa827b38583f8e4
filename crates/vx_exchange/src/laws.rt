//! What a consumer end owes that takes its producers in order, and what a round robin sends, by the definitions alone.

ghost use Rattle.vx_exchange.specs.InOrder.{InOrderLaw};
ghost use Rattle.vx_exchange.specs.RoundRobin.{RoundRobinLaw};

/// A consumer end that asks its producers one after the other gives, at any moment, what it is to make of what came.
pub fn in_order_receiver_stands()
    ensures { InOrderLaw }
{}

/// A sending end that deals its rows in turn has put at each port, once it is done, the rows whose numbers leave the consumer's number as
/// their remainder.
pub fn round_robins_take_turns()
    ensures { RoundRobinLaw }
{}
