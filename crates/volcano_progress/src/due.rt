//! When a line is due.

ghost use Rattle.std.specs.Prelude.{◌≡◌};
ghost use Rattle.volcano_progress.specs.Due.{first_due, next_due};

// How long a command runs before a line is shown, in milliseconds.
const BEFORE: u64 = 1_000;

// How long a line is shown before the next one, in milliseconds.
const BETWEEN: u64 = 100;

/// When the first line of some work is due, where the command and that work began at these times, in milliseconds.
pub fn first_due(command: u64, work: u64) -> u64
    ensures { result ≡ first_due command work }
{
    command
        .saturating_add(BEFORE)
        .max(work.saturating_add(BETWEEN))
}

/// When the next line is due.
pub fn next_due(now: u64) -> u64
    ensures { result ≡ next_due now }
{
    now.saturating_add(BETWEEN)
}
