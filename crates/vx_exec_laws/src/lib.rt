//! The laws that stand on the definitions alone: each is the contract of a function with an empty body.
#![tactic(auto)]

pub mod cut_rows;
pub mod derived;
pub mod derived_faults;
pub mod runs;
pub mod worked;

ghost use Rattle.vx_exec_laws.specs.Forms.{ErasedIsTyped, FormsAgree, PhasesAgree, RefusalDecides, SameRowsIs, TypedIsWellFormed};
ghost use Rattle.vx_exec_laws.specs.Sound.{NoOverflow, Sound, SoundAtRoot, SoundThroughout};

/// In every run of an allowed plan each claim holds, and the plan has serial rows.
pub fn rule_table_is_sound()
    ensures { Sound }
{}

/// The root delivers the serial rows, and their list where a total order is claimed.
pub fn rule_table_is_sound_at_root()
    ensures { SoundAtRoot }
{}

/// Equal totals, equal counts and a permutation are one.
pub fn same_rows_is_a_permutation()
    ensures { SameRowsIs }
{}

/// Nothing is refused of exactly those plans that are allowed.
pub fn refusal_decides()
    ensures { RefusalDecides }
{}

/// A key by a test is a key, and the ranges keep the router's law and rise with the value.
pub fn forms_agree()
    ensures { FormsAgree }
{}

/// No worker's operator overflows where the serial plan does not overflow there, but a partial grouping: there some rows of one key
/// of its serial input have a sum outside 64 bits, or that input is too long.
pub fn overflow_is_real()
    ensures { NoOverflow }
{}

/// In every run of an allowed plan the claim of every node holds.
pub fn every_claim_holds()
    ensures { SoundThroughout }
{}

/// What is typed is well formed.
pub fn typed_plan_is_well_formed()
    ensures { TypedIsWellFormed }
{}

/// The plan without exchanges is typed, of the same types, and numbered in preorder.
pub fn erased_plan_is_typed()
    ensures { ErasedIsTyped }
{}

/// The phases of a plan fit, seen from below, where each node sees that its own does.
pub fn phases_agree()
    ensures { PhasesAgree }
{}
