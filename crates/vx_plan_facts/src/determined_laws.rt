//! What a set of columns determines at a node: which set it is, and what it says of rows.

ghost use Rattle.vx_plan_facts.specs.DeterminedFacts.{FactsOfSerial, LeastSets, MoreFromMore, MoreFromKeys, DeterminedHolds, KeysOfSerial, DeterminedInListed};

/// A set of columns determines the least set that holds it and to which no step adds a column.
pub fn least_sets()
    ensures { LeastSets }
{}

/// More columns determine more.
pub fn more_from_more()
    ensures { MoreFromMore }
{}

/// With more keys the same columns determine more.
pub fn more_from_keys()
    ensures { MoreFromKeys }
{}

/// Two rows of a node's serial list that have the same values in some columns have them in all columns that these determine.
pub fn determined_holds()
    ensures { DeterminedHolds }
{}

/// Keys that hold of the lists of which they are claimed hold of the serial lists.
pub fn keys_of_serial()
    ensures { KeysOfSerial }
{}

/// The same of two rows of the list of which a node's keys are claimed: at an open node the keys of its groups.
pub fn determined_in_listed()
    ensures { DeterminedInListed }
{}

/// Each row of each serial list has the facts of its node.
pub fn facts_of_serial()
    ensures { FactsOfSerial }
{}
