//! What an operator counts of its own turns.

ghost use Rattle.std.specs.Prelude.{◌≡◌};
ghost use Rattle.vx_ops.specs.Turn.{rows_in};
ghost use Rattle.vx_exec_operators.specs.Counts.{with_morsel, with_got, with_given};

use vx_exec_setup::OperatorCounts;
use vx_ops::{Got, Polled, Want};

// How many rows come.
fn row_count(polled: &Polled) -> u64
    ensures { result ≡ rows_in polled.now }
{
    match polled {
        Polled::Gave(rows) => rows.len() as u64,
        Polled::Waiting | Polled::End | Polled::Fault(_) => 0,
    }
}

/// Counts what an operator got for a turn.
pub fn count_got(counts: &mut OperatorCounts, want: Want, got: &Got)
    ensures { counts.new ≡ with_got counts.old want got.now }
{
    match (want, got) {
        (Want::Morsel, Got::Input(polled)) => count_morsel(counts, polled),
        (Want::Left, Got::Input(polled)) => {
            counts.left = counts.left.saturating_add(row_count(polled));
        }
        (Want::Right, Got::Input(polled)) => {
            counts.right = counts.right.saturating_add(row_count(polled));
        }
        (Want::Packet(_), Got::Packet(Some(_))) => {
            counts.packets = counts.packets.saturating_add(1);
        }
        (Want::Packet(_), Got::Packet(None)) => {
            counts.waits = counts.waits.saturating_add(1);
        }
        _ => {}
    }
}

// Counts the rows of a morsel.
fn count_morsel(counts: &mut OperatorCounts, polled: &Polled)
    ensures { counts.new ≡ with_morsel counts.old polled.now }
{
    if let Polled::Gave(rows) = polled {
        counts.left = counts.left.saturating_add(rows.len() as u64);
        counts.morsels = counts.morsels.saturating_add(1);
    }
}

/// Counts what an operator gave for a turn.
pub fn count_given(counts: &mut OperatorCounts, polled: &Polled)
    ensures { counts.new ≡ with_given counts.old polled.now }
{
    counts.gave = counts.gave.saturating_add(row_count(polled));
}
