//! The source that is made of a kernel which reads its right input before its left one.

ghost use Rattle.std.specs.Prelude.{◌≡◌, ◌<◌, ◌+◌, ◌*◌, ◌++◌, [], Some, length};
ghost use Rattle.vx_ops.specs.Ledger.{Stream, Ledger, two_op};
ghost use Rattle.vx_ops.specs.Turn.{Fits, GotTyped, GivesRows, heard, gives, after, fresh_ledger, Coming, with_rows, own_turn, rows_in, idle_turn, Pays};
ghost use Rattle.vx_ops.specs.Probing.{ProbingStands, probing_op, probing_types, probing_most, probing_idle, reads_next, rest_rows, RestTyped, HoldsSome};
ghost use Rattle.vx_ops.specs.declared.fault.Code.TheVariants.{NoMemory};
ghost use Rattle.vx_ops.specs.declared.fault.Fault.TheVariants.{Own};
ghost use Rattle.vx_ops.specs.declared.fault.StreamState.TheVariants.{Running, Failed};
ghost use Rattle.vx_ops.specs.declared.turn.Polled.TheVariants as polled;
ghost use Rattle.vx_ops.specs.declared.turn.Got.TheVariants as got_of;
ghost use Rattle.vx_ops.specs.declared.turn.Want.TheVariants as want_of;

use crate::fault::{Code, Fault, StreamState};
use crate::probe_kernel::ProbeKernel;
use crate::source::Source;
use crate::turn::{Got, Polled, Want};
use std::marker::Model;
use vx_rows_views::Rows;

/// Calls: `with_kernel (wants turn)*`.
///
/// An operator of two inputs: once its right input has ended, it returns what its kernel joins of each batch of its left
/// one, as the batches come. A batch that makes many joined rows is joined in several turns. Its left input is read to its end
/// where the right one has no rows, too.
#[derive(Drop)]
pub struct Probing<K: ProbeKernel> {
    node: u32,
    kernel: K,
    ready: bool,
    rest: Option<Rows>,
    over: StreamState,
}

impl<K: ProbeKernel> Model for Probing<K> {
    ghost use Rattle.vx_ops.specs.Probing.{ProbingView, RestTyped, HoldsSome};

    ghost Value = { ProbingView K };

    ghost view = { λ s. record { node = s.node; kernel = s.kernel; ready = s.ready; rest = s.rest; over = s.over } };

    ghost invariant = { λ s. RestTyped (K.types s.kernel).left s.rest × HoldsSome s.rest };
}

// The rows, where there are any.
fn held(rows: Rows) -> Option<Rows>
    ensures rows { rest_rows result ≡ rows.rows }
    ensures types { RestTyped rows.types result }
    ensures some { HoldsSome result }
{
    if rows.is_empty() {
        return None;
    }
    Some(rows)
}

// What is returned for rows: nothing yet where there are none.
fn returned(rows: Rows) -> Polled
    ensures heard { (s : Stream) → heard s result ≡ record { rows = s.rows ++ rows.rows; over = s.over } }
    ensures gives { GivesRows rows.types result }
    ensures rows { rows_in result ≡ length rows.rows }
{
    if rows.len() == 0 {
        return Polled::Waiting;
    }
    Polled::Gave(rows)
}

impl<K: ProbeKernel> Probing<K> {
    /// The operator at the node with this number, whose kernel has read nothing yet.
    pub fn with_kernel(node: u32, kernel: K) -> Probing<K>
        requires { K.HasRead kernel [] }
        ensures stands { ProbingStands K.binary K.HasRead K.HasBuilt result fresh_ledger }
        ensures op { probing_op K.binary result ≡ two_op node (K.binary kernel) }
        ensures types { probing_types K.types result ≡ K.types kernel }
        ensures most { (c : Coming) → probing_most K.each result c ≡ c.left * K.each kernel c.right }
        ensures idle { (c : Coming) → probing_idle result c ≡ c.left + 1 }
    {
        Probing {
            node,
            kernel,
            ready: false,
            rest: None,
            over: StreamState::Running,
        }
    }

    // What is returned where memory ran out.
    fn out_of_memory(&mut self) -> Polled
        ensures over { self.new ≡ record self.old { over = Failed (Own NoMemory self.old.node) } }
        ensures fault { result ≡ polled.Fault (Own NoMemory self.old.node) }
    {
        let fault = Fault::Own {
            code: Code::NoMemory,
            node: self.node,
        };
        self.over = StreamState::Failed(fault);
        Polled::Fault(fault)
    }

    // What is returned for a batch of the right input.
    fn build(&mut self, batch: Rows) -> Polled
        requires running { self.old.over ≡ Running }
        requires building { reads_next self.old.ready self.old.rest ≡ want_of.Right }
        requires typed { batch.types ≡ (K.types self.old.kernel).right }
        ensures stands { (l : Ledger) → ProbingStands K.binary K.HasRead K.HasBuilt self.old l
            → ProbingStands K.binary K.HasRead K.HasBuilt self.new (after l want_of.Right (got_of.Input (polled.Gave batch)) result) }
        ensures gives { GivesRows (K.types self.old.kernel).out result }
        ensures pays { (c : Coming) → Pays 0 (probing_most K.each self.old (with_rows want_of.Right (got_of.Input (polled.Gave batch)) c)) (probing_idle self.old c) (probing_most K.each self.new c) (probing_idle self.new c) result }
        ensures op { probing_op K.binary self.new ≡ probing_op K.binary self.old }
        ensures types { probing_types K.types self.new ≡ probing_types K.types self.old }
    {
        match self.kernel.build(batch) {
            Ok(()) => Polled::Waiting,
            Err(_) => self.out_of_memory(),
        }
    }

    // What is returned at the end of the right input.
    fn finish_build(&mut self) -> Polled
        requires running { self.old.over ≡ Running }
        requires building { reads_next self.old.ready self.old.rest ≡ want_of.Right }
        ensures stands { (l : Ledger) → ProbingStands K.binary K.HasRead K.HasBuilt self.old l
            → ProbingStands K.binary K.HasRead K.HasBuilt self.new (after l want_of.Right (got_of.Input polled.End) result) }
        ensures gives { GivesRows (K.types self.old.kernel).out result }
        ensures pays { (c : Coming) → Pays 1 (probing_most K.each self.old c) (probing_idle self.old c) (probing_most K.each self.new c) (probing_idle self.new c) result }
        ensures op { probing_op K.binary self.new ≡ probing_op K.binary self.old }
        ensures types { probing_types K.types self.new ≡ probing_types K.types self.old }
    {
        match self.kernel.finish_build() {
            Ok(()) => {
                self.ready = true;
                Polled::Waiting
            }
            Err(_) => self.out_of_memory(),
        }
    }

    // What is returned for rows of the left input, of which some are held after this.
    fn probe(&mut self, batch: Rows) -> Polled
        requires running { self.old.over ≡ Running }
        requires typed { batch.types ≡ (K.types self.old.kernel).left }
        requires some { 0 < length batch.rows }
        ensures stands { (l : Ledger) → ProbingStands K.binary K.HasRead K.HasBuilt (record self.old { rest = Some batch }) l
            → ProbingStands K.binary K.HasRead K.HasBuilt self.new (gives l result) }
        ensures gives { GivesRows (K.types self.old.kernel).out result }
        ensures pays { (c : Coming) → Pays 1 (probing_most K.each (record self.old { rest = Some batch }) c) (probing_idle (record self.old { rest = Some batch }) c) (probing_most K.each self.new c) (probing_idle self.new c) result }
        ensures op { probing_op K.binary self.new ≡ probing_op K.binary self.old }
        ensures types { probing_types K.types self.new ≡ probing_types K.types self.old }
    {
        match self.kernel.probe(batch) {
            Ok((joined, rest)) => {
                self.rest = held(rest);
                returned(joined)
            }
            Err(_) => self.out_of_memory(),
        }
    }

    // A turn while it reads its right input.
    fn read_right(&mut self, got: Got) -> Polled
        requires running { self.old.over ≡ Running }
        requires building { reads_next self.old.ready self.old.rest ≡ want_of.Right }
        requires fits { Fits want_of.Right got }
        requires typed { GotTyped (K.types self.old.kernel) want_of.Right got }
        ensures stands { (l : Ledger) → ProbingStands K.binary K.HasRead K.HasBuilt self.old l
            → ProbingStands K.binary K.HasRead K.HasBuilt self.new (after l want_of.Right got result) }
        ensures gives { GivesRows (K.types self.old.kernel).out result }
        ensures pays { (c : Coming) → Pays (own_turn got) (probing_most K.each self.old (with_rows want_of.Right got c)) (probing_idle self.old (with_rows want_of.Right got c)) (probing_most K.each self.new c) (probing_idle self.new c) result }
        ensures op { probing_op K.binary self.new ≡ probing_op K.binary self.old }
        ensures types { probing_types K.types self.new ≡ probing_types K.types self.old }
    {
        match got {
            Got::Input(Polled::Gave(batch)) => self.build(batch),
            Got::Input(Polled::End) => self.finish_build(),
            Got::Input(Polled::Fault(f)) => {
                self.over = StreamState::Failed(f);
                Polled::Fault(f)
            }
            _ => Polled::Waiting,
        }
    }

    // A turn while it reads its left input.
    fn read_left(&mut self, got: Got) -> Polled
        requires running { self.old.over ≡ Running }
        requires probing { reads_next self.old.ready self.old.rest ≡ want_of.Left }
        requires fits { Fits want_of.Left got }
        requires typed { GotTyped (K.types self.old.kernel) want_of.Left got }
        ensures stands { (l : Ledger) → ProbingStands K.binary K.HasRead K.HasBuilt self.old l
            → ProbingStands K.binary K.HasRead K.HasBuilt self.new (after l want_of.Left got result) }
        ensures gives { GivesRows (K.types self.old.kernel).out result }
        ensures pays { (c : Coming) → Pays (own_turn got) (probing_most K.each self.old (with_rows want_of.Left got c)) (probing_idle self.old (with_rows want_of.Left got c)) (probing_most K.each self.new c) (probing_idle self.new c) result }
        ensures op { probing_op K.binary self.new ≡ probing_op K.binary self.old }
        ensures types { probing_types K.types self.new ≡ probing_types K.types self.old }
    {
        match got {
            Got::Input(Polled::Gave(batch)) => self.probe(batch),
            Got::Input(Polled::End) => {
                self.over = StreamState::Ended;
                Polled::End
            }
            Got::Input(Polled::Fault(f)) => {
                self.over = StreamState::Failed(f);
                Polled::Fault(f)
            }
            _ => Polled::Waiting,
        }
    }
}

impl<K: ProbeKernel> Source for Probing<K> {
    ghost use Rattle.vx_ops.specs.Probing.{ProbingStands, probing_op, probing_types, probing_want, probing_most, probing_idle, probing_abides, probing-grows, probing-idle-grows};

    ghost Stands = { ProbingStands K.binary K.HasRead K.HasBuilt };

    ghost op = { probing_op K.binary };

    ghost types = { probing_types K.types };

    ghost want = { probing_want };

    ghost most = { probing_most K.each };

    ghost idle = { probing_idle };

    ghost abides = { probing_abides K.binary K.HasRead K.HasBuilt };

    ghost most_grows = { λ s. probing-grows K.each s (K.each_grows s.kernel) };

    ghost idle_grows = { probing-idle-grows };

    fn wants(&self) -> Want {
        match self.over {
            StreamState::Running => {
                if self.rest.is_some() {
                    return Want::Nothing;
                }
                if self.ready {
                    return Want::Left;
                }
                Want::Right
            }
            _ => Want::Nothing,
        }
    }

    fn turn(&mut self, got: Got) -> Polled {
        match self.over {
            StreamState::Ended => Polled::End,
            StreamState::Failed(f) => Polled::Fault(f),
            StreamState::Running => {
                if let Some(rest) = self.rest.take() {
                    return self.probe(rest);
                }
                if self.ready {
                    return self.read_left(got);
                }
                self.read_right(got)
            }
        }
    }
}
