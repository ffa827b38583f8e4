//! Union: the rows of two inputs, with all their copies.

use crate::fault::StreamState;
use crate::source::Source;
use crate::turn::{Got, Polled, Want};
use vx_rows_values::ColType;

/// Calls: `new (wants turn)*`.
///
/// Returns the rows of its left input and, once that has ended, those of its right one.
///
/// It hands batches on as they come, so nothing of its own can fail.
pub struct Union {
    node: u32,
    types: Vec<ColType>,
    left_ended: bool,
    over: StreamState,
}

impl Drop for Union {
    fn drop(self) {
        let Union {
            node: _,
            types: _,
            left_ended: _,
            over: _,
        } = self;
    }
}

impl Union {
    ghost use Rattle.std.specs.Prelude.{◌≡◌};
    ghost use Rattle.vx_plan_nodes.specs.Plan.{union};
    ghost use Rattle.vx_ops.specs.Ledger.{Ledger, two_op};
    ghost use Rattle.vx_ops.specs.Turn.{fresh_ledger, after, GivesRows, Coming, Pays};
    ghost use Rattle.vx_ops.specs.Union.{UnionStands, union_op, union_types, union_want, union_most, union_idle, union_meaning};
    ghost use Rattle.vx_ops.specs.Starts.{Starts};
    ghost use Rattle.vx_ops.specs.declared.fault.StreamState.TheVariants.{Running};
    ghost use Rattle.vx_ops.specs.declared.turn.Polled.TheVariants as polled;
    ghost use Rattle.vx_ops.specs.declared.turn.Got.TheVariants as got_of;

    /// A union of rows of these types at the node with this number, to which nothing came.
    pub fn new(node: u32, types: Vec<ColType>) -> Union
        ensures stands { UnionStands result fresh_ledger }
        ensures op { union_op result ≡ two_op node union }
        ensures types { union_types result ≡ record { left = types.items; right = types.items; out = types.items } }
        ensures starts { Starts (union_meaning result) }
    {
        Union {
            node,
            types,
            left_ended: false,
            over: StreamState::Running,
        }
    }

    // What is returned where the input that it reads has ended: the right one comes after the left one.
    fn end_input(&mut self) -> Polled
        requires { self.old.over ≡ Running }
        ensures stands { (l : Ledger) → UnionStands self.old l
            → UnionStands self.new (after l (union_want self.old) (got_of.Input polled.End) result) }
        ensures gives { GivesRows self.old.types.items result }
        ensures pays { (c : Coming) → Pays 1 (union_most c) (union_idle self.old.left_ended) (union_most c) (union_idle self.new.left_ended) result }
        ensures op { union_op self.new ≡ union_op self.old }
        ensures types { union_types self.new ≡ union_types self.old }
    {
        if !self.left_ended {
            self.left_ended = true;
            return Polled::Waiting;
        }
        self.over = StreamState::Ended;
        Polled::End
    }
}

impl Source for Union {
    ghost use Rattle.std.proofs.Common.{le_refl};
    ghost use Rattle.vx_ops.specs.Union.{UnionStands, union_op, union_types, union_want, union_most, union_idle, union_abides, union-grows};

    ghost Stands = { UnionStands };

    ghost op = { union_op };

    ghost types = { union_types };

    ghost want = { union_want };

    ghost most = { λ s. union_most };

    ghost idle = { λ s c. union_idle s.left_ended };

    ghost abides = { union_abides };

    ghost most_grows = { λ s. union-grows };

    ghost idle_grows = { λ s a b h. le_refl (union_idle s.left_ended) };

    fn wants(&self) -> Want {
        match self.over {
            StreamState::Running => {
                if self.left_ended {
                    return Want::Right;
                }
                Want::Left
            }
            _ => Want::Nothing,
        }
    }

    fn turn(&mut self, got: Got) -> Polled {
        match self.over {
            StreamState::Ended => Polled::End,
            StreamState::Failed(f) => Polled::Fault(f),
            StreamState::Running => match got {
                Got::Input(Polled::Gave(batch)) => Polled::Gave(batch),
                Got::Input(Polled::End) => self.end_input(),
                Got::Input(Polled::Fault(f)) => {
                    self.over = StreamState::Failed(f);
                    Polled::Fault(f)
                }
                _ => Polled::Waiting,
            },
        }
    }
}
