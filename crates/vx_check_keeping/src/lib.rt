//! Claims that tell what others tell: a test of two plans, and laws. Claims that tell the most keep what an accepted plan claims.
#![tactic(auto)]

mod telling;

ghost use Rattle.vx_check_keeping.specs.Laws.{EqualIsEquivalence, SameFacts, MoreDetermined, OrdersFollow, KeepsTold};
ghost use Rattle.vx_check_keeping.specs.Telling.{TellsItself};

pub use telling::does_tell;

/// Equal columns are equal to themselves, either way, and to what is equal to an equal one.
pub fn equal_is_equivalence()
    ensures { EqualIsEquivalence }
{}

/// What is equal and fixed in each row does not depend on claims.
pub fn same_facts()
    ensures { SameFacts }
{}

/// Under keys that say more the same columns determine more.
pub fn more_determined()
    ensures { MoreDetermined }
{}

/// Under keys that say more, orders follow that followed; and they follow along.
pub fn orders_follow()
    ensures { OrdersFollow }
{}

/// Where a plan is accepted, so is one of the same operators whose claims are shown and tell the most; and these tell what the first one claims.
pub fn keeps_told()
    ensures { KeepsTold }
{}

/// The claims of each plan tell what they say themselves.
pub fn tells_itself()
    ensures { TellsItself }
{}
