//! The source that is made of a kernel which reads all of its input first.

use crate::collecting_kernel::{CollectingKernel, FinishFault};
use crate::fault::{Code, Fault, StreamState};
use crate::source::Source;
use crate::turn::{Got, Polled, Want};
use vx_rows_views::Rows;

/// Calls: `with_kernel (wants turn)*`.
///
/// An operator of one input: once its input has ended, it returns what its kernel makes of all of it, in one batch.
#[derive(Drop)]
pub struct Collecting<K> {
    node: u32,
    kernel: K,
    finished: bool,
    over: StreamState,
}

impl<K: CollectingKernel> Collecting<K> {
    ghost use Rattle.std.specs.Prelude.{◌≡◌, ◌+◌, [], false};
    ghost use Rattle.vx_ops.specs.Ledger.{Ledger, one_op};
    ghost use Rattle.vx_ops.specs.Turn.{fresh_ledger, after, GivesRows, Coming, with_rows, Pays};
    ghost use Rattle.vx_ops.specs.Collecting.{CollectingStands, collecting_op, collecting_types, collecting_most};
    ghost use Rattle.vx_ops.specs.declared.fault.StreamState.TheVariants.{Running};
    ghost use Rattle.vx_ops.specs.declared.turn.Polled.TheVariants as polled;
    ghost use Rattle.vx_ops.specs.declared.turn.Got.TheVariants as got_of;
    ghost use Rattle.vx_ops.specs.declared.turn.Want.TheVariants as want_of;

    /// The operator at the node with this number, whose kernel has read nothing yet.
    pub fn with_kernel(node: u32, kernel: K) -> Collecting<K>
        requires { K.HasRead kernel [] }
        ensures stands { CollectingStands K.unary K.HasRead result fresh_ledger }
        ensures op { collecting_op K.unary result ≡ one_op node (K.unary kernel) }
        ensures types { collecting_types K.types result ≡ K.types kernel }
        ensures most { (c : Coming) → collecting_most K.held result c ≡ K.held kernel + c.left }
    {
        Collecting {
            node,
            kernel,
            finished: false,
            over: StreamState::Running,
        }
    }

    // What is returned for a batch.
    fn collect(&mut self, batch: Rows) -> Polled
        requires running { self.old.over ≡ Running }
        requires reading { self.old.finished ≡ false }
        requires typed { batch.types ≡ (K.types self.old.kernel).left }
        ensures stands { (l : Ledger) → CollectingStands K.unary K.HasRead self.old l
            → CollectingStands K.unary K.HasRead self.new (after l want_of.Left (got_of.Input (polled.Gave batch)) result) }
        ensures gives { GivesRows (K.types self.old.kernel).out result }
        ensures pays { (c : Coming) → Pays 0 (collecting_most K.held self.old (with_rows want_of.Left (got_of.Input (polled.Gave batch)) c)) 0 (collecting_most K.held self.new c) 0 result }
        ensures op { collecting_op K.unary self.new ≡ collecting_op K.unary self.old }
        ensures types { collecting_types K.types self.new ≡ collecting_types K.types self.old }
    {
        match self.kernel.take(batch) {
            Ok(()) => Polled::Waiting,
            Err(_) => {
                let fault = Fault::Own {
                    code: Code::NoMemory,
                    node: self.node,
                };
                self.over = StreamState::Failed(fault);
                Polled::Fault(fault)
            }
        }
    }

    // What is returned at the end of the input.
    fn conclude(&mut self) -> Polled
        requires running { self.old.over ≡ Running }
        requires reading { self.old.finished ≡ false }
        ensures stands { (l : Ledger) → CollectingStands K.unary K.HasRead self.old l
            → CollectingStands K.unary K.HasRead self.new (after l want_of.Left (got_of.Input polled.End) result) }
        ensures gives { GivesRows (K.types self.old.kernel).out result }
        ensures pays { (c : Coming) → Pays 1 (collecting_most K.held self.old c) 0 (collecting_most K.held self.new c) 0 result }
        ensures op { collecting_op K.unary self.new ≡ collecting_op K.unary self.old }
        ensures types { collecting_types K.types self.new ≡ collecting_types K.types self.old }
    {
        match self.kernel.finish() {
            Ok(made) => {
                if made.len() == 0 {
                    self.over = StreamState::Ended;
                    return Polled::End;
                }
                self.finished = true;
                Polled::Gave(made)
            }
            Err(FinishFault::Overflow) => {
                let fault = Fault::Own {
                    code: Code::Overflow,
                    node: self.node,
                };
                self.over = StreamState::Failed(fault);
                Polled::Fault(fault)
            }
            Err(FinishFault::NoMemory) => {
                let fault = Fault::Own {
                    code: Code::NoMemory,
                    node: self.node,
                };
                self.over = StreamState::Failed(fault);
                Polled::Fault(fault)
            }
        }
    }
}

impl<K: CollectingKernel> Source for Collecting<K> {
    ghost use Rattle.std.proofs.Common.{le_refl};
    ghost use Rattle.vx_ops.specs.Collecting.{CollectingStands, collecting_op, collecting_types, collecting_want, collecting_most, collecting_abides, collecting-grows};

    ghost Stands = { CollectingStands K.unary K.HasRead };

    ghost op = { collecting_op K.unary };

    ghost types = { collecting_types K.types };

    ghost want = { λ s. collecting_want s.finished s.over };

    ghost most = { collecting_most K.held };

    // At the end of its input it returns all rows, or that it is over.
    ghost idle = { λ s c. 0 };

    ghost abides = { collecting_abides K.unary K.HasRead };

    ghost most_grows = { collecting-grows K.held };

    ghost idle_grows = { λ s a b h. le_refl 0 };

    fn wants(&self) -> Want {
        if self.finished {
            return Want::Nothing;
        }
        match self.over {
            StreamState::Running => Want::Left,
            _ => Want::Nothing,
        }
    }

    fn turn(&mut self, got: Got) -> Polled {
        match self.over {
            StreamState::Ended => Polled::End,
            StreamState::Failed(f) => Polled::Fault(f),
            StreamState::Running => {
                if self.finished {
                    self.over = StreamState::Ended;
                    return Polled::End;
                }
                match got {
                    Got::Input(Polled::Gave(batch)) => self.collect(batch),
                    Got::Input(Polled::End) => self.conclude(),
                    Got::Input(Polled::Fault(f)) => {
                        self.over = StreamState::Failed(f);
                        Polled::Fault(f)
                    }
                    _ => Polled::Waiting,
                }
            }
        }
    }
}
