//! Scans: the rows of the morsels that a worker drew.

use crate::fault::StreamState;
use crate::source::Source;
use crate::turn::{Got, Polled, Want};
use vx_rows_values::ColType;

/// Calls: `new (wants turn)*`.
///
/// Returns the rows of the morsels that it gets.
///
/// It shares no machine with the operators over an input: it computes nothing, so nothing of its own can fail, and it has no node number.
pub struct Scan {
    types: Vec<ColType>,
    over: StreamState,
}

impl Drop for Scan {
    fn drop(self) {
        let Scan { types: _, over: _ } = self;
    }
}

impl Scan {
    ghost use Rattle.std.specs.Prelude.{◌≡◌};
    ghost use Rattle.vx_ops.specs.Turn.{fresh_ledger};
    ghost use Rattle.vx_ops.specs.Scan.{ScanStands, scan_types, scan_meaning};
    ghost use Rattle.vx_ops.specs.Starts.{Starts};

    /// A scan of a relation with these types, to which nothing came.
    pub fn new(types: Vec<ColType>) -> Scan
        ensures stands { ScanStands result fresh_ledger }
        ensures types { scan_types result ≡ record { left = types.items; right = types.items; out = types.items } }
        ensures starts { Starts (scan_meaning result) }
    {
        Scan {
            types,
            over: StreamState::Running,
        }
    }
}

impl Source for Scan {
    ghost use Rattle.vx_ops.specs.Ledger.{scan_op};
    ghost use Rattle.vx_ops.specs.Turn.{while_running};
    ghost use Rattle.vx_ops.specs.Scan.{ScanStands, scan_types};
    ghost use Rattle.vx_ops.specs.Scan.{scan_abides};
    ghost use Rattle.std.proofs.Common.{le_refl};
    ghost use Rattle.vx_ops.specs.declared.turn.Want.TheVariants as want_of;

    ghost Stands = { ScanStands };

    ghost op = { λ _. scan_op };

    ghost types = { scan_types };

    ghost want = { λ s. while_running want_of.Morsel s.over };

    // A row for each row of its morsels.
    ghost most = { λ s c. c.left };

    // It always wants a morsel.
    ghost idle = { λ s c. 0 };

    ghost abides = { scan_abides };

    ghost most_grows = { λ s a b h. h.left };

    ghost idle_grows = { λ s a b h. le_refl 0 };

    fn wants(&self) -> Want {
        match self.over {
            StreamState::Running => Want::Morsel,
            _ => Want::Nothing,
        }
    }

    fn turn(&mut self, got: Got) -> Polled {
        match self.over {
            StreamState::Ended => Polled::End,
            StreamState::Failed(f) => Polled::Fault(f),
            StreamState::Running => match got {
                Got::Input(Polled::End) => {
                    self.over = StreamState::Ended;
                    Polled::End
                }
                Got::Input(Polled::Fault(f)) => {
                    self.over = StreamState::Failed(f);
                    Polled::Fault(f)
                }
                Got::Input(p) => p,
                _ => Polled::Waiting,
            },
        }
    }
}
