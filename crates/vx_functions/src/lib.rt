//! Functions of values, by which plans are to compute columns and conditions: a function depends on its name and its values alone.
#![tactic(auto)]

mod numbers;
mod patterns;
mod standard;
mod texts;

ghost use Rattle.vx_functions.specs.Laws.{AnswersHaveTheirType};

pub use standard::StandardFunction;

/// A function that takes values of some types answers a value of the type that its signature has for them, if it answers one.
pub fn answers_have_their_type()
    ensures { AnswersHaveTheirType }
{}
