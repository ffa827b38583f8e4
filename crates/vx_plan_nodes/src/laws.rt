//! The laws of plans under other functions: what a plan's functions do not decide. Each is the contract of a function with an empty body.

ghost use Rattle.vx_plan_nodes.specs.UnderLaws.{NodesStay, DescriptionsStay, PhasesStay, TypesStay, FunctionsGoAlong, LastFunctionsStand};

/// Whatever functions a plan has, its nodes have the same numbers, claims and sizes.
pub fn nodes_stay()
    ensures { NodesStay }
{}

/// Whatever functions an operator has, it copies columns and keeps orders and keys in the same way.
pub fn descriptions_stay()
    ensures { DescriptionsStay }
{}

/// Whatever functions a plan has, its final groupings stand over the same partials.
pub fn phases_stay()
    ensures { PhasesStay }
{}

/// Whatever functions a plan has, its columns have the same types, and it is typed or is not.
pub fn types_stay()
    ensures { TypesStay }
{}

/// A plan under other functions has them too when its exchanges are left out.
pub fn functions_go_along()
    ensures { FunctionsGoAlong }
{}

/// The functions that are given last stand, and a plan of the program has the program's functions.
pub fn last_functions_stand()
    ensures { LastFunctionsStand }
{}
