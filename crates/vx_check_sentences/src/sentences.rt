//! The sentences of a refusal.

/// What a refusal of the checker says to people.
#[derive(Drop)]
pub struct Explanation {
    /// What the node claims or does.
    pub claimed: String,
    /// What is there instead.
    pub shown: String,
    /// What would help.
    pub help: String,
}
