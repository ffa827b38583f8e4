//! Sending and receiving ends of exchanges.
#![tactic(auto)]

mod byte_router;
mod collector;
mod deal;
mod lane;
mod lanes;
pub mod laws;
mod places;
mod ranges;
mod receiver;
mod remainder;
mod routes;
mod scratch;
mod sender;

pub use byte_router::ByteRouter;
pub use collector::Collector;
pub use deal::Deal;
pub use ranges::Ranges;
pub use receiver::Receiver;
pub use routes::KeyRoute;
pub use sender::Sender;
pub use vx_exchange_ends::Sends;
pub use vx_plan_nodes::Router;
