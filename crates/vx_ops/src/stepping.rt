//! The source that is made of a kernel which returns rows for each batch.

use crate::fault::{Code, Fault, StreamState};
use crate::source::Source;
use crate::step_kernel::{StepFault, StepKernel};
use crate::turn::{Got, Polled, Want};
use vx_rows_views::Rows;

/// Calls: `with_kernel (wants turn)*`.
///
/// An operator of one input: it returns what its kernel makes of each batch, as the batches come. Once its kernel overflows it returns nothing
/// more, takes its input to its end, and reports the overflow then.
#[derive(Drop)]
pub struct Stepping<K> {
    node: u32,
    kernel: K,
    overflowed: bool,
    over: StreamState,
}

impl<K: StepKernel> Stepping<K> {
    ghost use Rattle.std.specs.Prelude.{◌≡◌, ◌+◌, [], length};
    ghost use Rattle.vx_ops.specs.Ledger.{Ledger, one_op};
    ghost use Rattle.vx_ops.specs.Turn.{fresh_ledger, after, GivesRows, Coming, Pays};
    ghost use Rattle.vx_ops.specs.Stepping.{SteppingStands, stepping_op, stepping_types};
    ghost use Rattle.vx_ops.specs.declared.fault.StreamState.TheVariants.{Running};
    ghost use Rattle.vx_ops.specs.declared.turn.Polled.TheVariants as polled;
    ghost use Rattle.vx_ops.specs.declared.turn.Got.TheVariants as got_of;
    ghost use Rattle.vx_ops.specs.declared.turn.Want.TheVariants as want_of;

    /// The operator at the node with this number, whose kernel has read nothing yet.
    pub fn with_kernel(node: u32, kernel: K) -> Stepping<K>
        requires { K.HasMade kernel [] [] }
        ensures stands { SteppingStands K.unary K.HasMade result fresh_ledger }
        ensures op { stepping_op K.unary result ≡ one_op node (K.unary kernel) }
        ensures types { stepping_types K.types result ≡ K.types kernel }
    {
        Stepping {
            node,
            kernel,
            overflowed: false,
            over: StreamState::Running,
        }
    }

    // What is returned for a batch.
    fn step(&mut self, batch: Rows) -> Polled
        requires running { self.old.over ≡ Running }
        requires typed { batch.types ≡ (K.types self.old.kernel).left }
        ensures stands { (l : Ledger) → SteppingStands K.unary K.HasMade self.old l
            → SteppingStands K.unary K.HasMade self.new (after l want_of.Left (got_of.Input (polled.Gave batch)) result) }
        ensures gives { GivesRows (K.types self.old.kernel).out result }
        ensures pays { (c : Coming) → Pays 0 (c.left + length batch.rows) 0 c.left 0 result }
        ensures op { stepping_op K.unary self.new ≡ stepping_op K.unary self.old }
        ensures types { stepping_types K.types self.new ≡ stepping_types K.types self.old }
    {
        if self.overflowed {
            return Polled::Waiting;
        }
        match self.kernel.step(batch) {
            Ok(made) => {
                if made.len() == 0 {
                    return Polled::Waiting;
                }
                Polled::Gave(made)
            }
            Err(StepFault::Overflow) => {
                self.overflowed = true;
                Polled::Waiting
            }
            Err(StepFault::NoMemory) => {
                let fault = Fault::Own {
                    code: Code::NoMemory,
                    node: self.node,
                };
                self.over = StreamState::Failed(fault);
                Polled::Fault(fault)
            }
        }
    }

    // What is returned at the end of the input.
    fn conclude(&mut self) -> Polled
        requires running { self.old.over ≡ Running }
        ensures stands { (l : Ledger) → SteppingStands K.unary K.HasMade self.old l
            → SteppingStands K.unary K.HasMade self.new (after l want_of.Left (got_of.Input polled.End) result) }
        ensures gives { GivesRows (K.types self.old.kernel).out result }
        ensures pays { (c : Coming) → Pays 1 c.left 0 c.left 0 result }
        ensures op { stepping_op K.unary self.new ≡ stepping_op K.unary self.old }
        ensures types { stepping_types K.types self.new ≡ stepping_types K.types self.old }
    {
        if !self.overflowed {
            self.over = StreamState::Ended;
            return Polled::End;
        }
        let fault = Fault::Own {
            code: Code::Overflow,
            node: self.node,
        };
        self.over = StreamState::Failed(fault);
        Polled::Fault(fault)
    }
}

impl<K: StepKernel> Source for Stepping<K> {
    ghost use Rattle.std.proofs.Common.{le_refl};
    ghost use Rattle.vx_ops.specs.Turn.{while_running};
    ghost use Rattle.vx_ops.specs.Stepping.{SteppingStands, stepping_op, stepping_types, stepping_abides};
    ghost use Rattle.vx_ops.specs.declared.turn.Want.TheVariants as want_of;

    ghost Stands = { SteppingStands K.unary K.HasMade };

    ghost op = { stepping_op K.unary };

    ghost types = { stepping_types K.types };

    ghost want = { λ s. while_running want_of.Left s.over };

    // At most a row for each row of its input.
    ghost most = { λ s c. c.left };

    // It always wants its input.
    ghost idle = { λ s c. 0 };

    ghost abides = { stepping_abides K.unary K.HasMade };

    ghost most_grows = { λ s a b h. h.left };

    ghost idle_grows = { λ s a b h. le_refl 0 };

    fn wants(&self) -> Want {
        match self.over {
            StreamState::Running => Want::Left,
            _ => Want::Nothing,
        }
    }

    fn turn(&mut self, got: Got) -> Polled {
        match self.over {
            StreamState::Ended => Polled::End,
            StreamState::Failed(f) => Polled::Fault(f),
            StreamState::Running => match got {
                Got::Input(Polled::Gave(batch)) => self.step(batch),
                Got::Input(Polled::End) => self.conclude(),
                Got::Input(Polled::Fault(f)) => {
                    self.over = StreamState::Failed(f);
                    Polled::Fault(f)
                }
                _ => Polled::Waiting,
            },
        }
    }
}
