//! The commands of the program.

/// What to do with a plan.
#[derive(Clone, Copy, PartialEq, Eq)]
pub enum Command {
    /// Run it by its exchanges.
    Run,
    /// Evaluate it without its exchanges.
    Serial,
    /// Say whether its claims are shown.
    Check,
    /// Describe its nodes.
    Explain,
}
