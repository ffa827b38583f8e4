//! How a run ends.

use vx_rows_views::Rows;

/// How a run ended without a fault.
#[derive(Drop)]
pub enum RunOutcome {
    /// Every worker has ended well: the rows that the root's worker collected. None was copied.
    Done(Rows),
    /// The rounds or steps were over, and some worker had not ended. By `Runs` this comes only in the mode `rounds`, of a plan that may need
    /// more than `MAX_ROUNDS` rounds; a schedule may have too few steps.
    Unfinished,
}
