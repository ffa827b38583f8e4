//! The rule table, once more, by what the description of each operator says.

ghost use Rattle.vx_check_rules.specs.Exactly.{FitsExactly, PartsExactly, OrdersExactly, KeysExactly, VerdictsExactly};
ghost use Rattle.vx_check_rules.specs.Tables.{TablesDecide};
ghost use Rattle.vx_check_rules.specs.Carried.{CopiesBack, OrdersCarried, KeysCarried, PartsCarried, CarriedIsShown};
ghost use Rattle.vx_check_rules.specs.Unasked.{FunctionsAreNotAsked};

/// An operator fits its inputs exactly where there is a way.
pub fn fits_exactly()
    ensures { FitsExactly }
{}

/// A part is shown exactly where a way gives it.
pub fn parts_exactly()
    ensures { PartsExactly }
{}

/// An order is shown exactly where one that is there gives it.
pub fn orders_exactly()
    ensures { OrdersExactly }
{}

/// A key is shown exactly where keys that are there give it.
pub fn keys_exactly()
    ensures { KeysExactly }
{}

/// The first test that fails at a node is the same by its behaviour.
pub fn verdicts_exactly()
    ensures { VerdictsExactly }
{}

/// At the place of an input column stands its copy.
pub fn copies_back()
    ensures { CopiesBack }
{}

/// The order that is carried up is shown.
pub fn orders_carried()
    ensures { OrdersCarried }
{}

/// The keys that are carried up are shown.
pub fn keys_carried()
    ensures { KeysCarried }
{}

/// The part that is carried up is shown.
pub fn parts_carried()
    ensures { PartsCarried }
{}

/// What is carried up to a node passes all of its tests, where its operator fits its inputs.
pub fn carried_is_shown()
    ensures { CarriedIsShown }
{}

/// By either table nothing is refused of exactly the plans that it allows.
pub fn tables_decide()
    ensures { TablesDecide }
{}

/// Whatever functions a plan has, both tables allow it or do not, and the same node is refused by the same rule.
pub fn functions_are_not_asked()
    ensures { FunctionsAreNotAsked }
{}
