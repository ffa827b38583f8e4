//! The merge join, a batch at a time (Blasgen and Eswaran, 1977).

ghost use Rattle.std.specs.Prelude.{◌≡◌, IfOk};
ghost use Rattle.vx_plan_nodes.specs.Plan.{left_order, right_order};
ghost use Rattle.vx_match.specs.MergeJoin.{fault_of};

use std::alloc::{AllocError, Global};
use vx_match_merging::{MergeFault, MergeNeed, MergeRows};
use vx_ops::{Code, Fault, Got, Polled, Source, StreamState, Want};
use vx_ops_kernels::{left_columns, right_columns};
use vx_rows_values::{ColType, OrderEntry, in_directions};
use vx_rows_views::Rows;

// A batch of joined rows is cut once it has `MOST` rows.
const MOST: usize = 65_536;

/// Calls: `new (wants turn)*`.
///
/// Returns each row of its left input joined with the rows of its right input that agree with it on pairs of columns. Both
/// inputs must be in order on these, each pair rising or falling in both, and are read to their end: it fails where one of them
/// is not in order.
///
/// It never hashes. It keeps the batch at hand of each input, and of the right rows before that only those with the key of
/// the left row at hand.
pub struct MergeJoin {
    node: u32,
    on: Vec<(usize, usize)>,
    falls: Vec<bool>,
    kernel: MergeRows,
    over: StreamState,
}

impl Drop for MergeJoin {
    fn drop(self) {
        let MergeJoin {
            node: _,
            on: _,
            falls: _,
            kernel: _,
            over: _,
        } = self;
    }
}

impl MergeJoin {
    ghost use Rattle.std.specs.Prelude.{◌≡◌, ◌++◌, length, map, IfOk};
    ghost use Rattle.vx_rows.specs.View.{AreColumns};
    ghost use Rattle.vx_plan_nodes.specs.Plan.{join, by_merging};
    ghost use Rattle.vx_match_merging.specs.Merged.{merge_need};
    ghost use Rattle.vx_match_merging.specs.declared.merging.MergeNeed.TheVariants as need;
    ghost use Rattle.vx_ops.specs.Ledger.{Ledger, two_op};
    ghost use Rattle.vx_ops.specs.Turn.{fresh_ledger, after, gives, GivesRows, GotTyped, Fits, Coming, with_rows, own_turn, Pays};
    ghost use Rattle.vx_ops.specs.declared.fault.StreamState.TheVariants.{Running};
    ghost use Rattle.vx_ops.specs.declared.turn.Polled.TheVariants as polled;
    ghost use Rattle.vx_ops.specs.declared.turn.Got.TheVariants as got_of;
    ghost use Rattle.vx_ops.specs.declared.turn.Want.TheVariants as want_of;
    ghost use Rattle.vx_ops.specs.Starts.{Starts};
    ghost use Rattle.vx_match.specs.MergeJoin.{MergeJoinStands, merge_join_op, merge_join_types, merge_join_most, merge_join_idle, own_where, merge_join_meaning};

    /// A merge join on these pairs of a left and a right column, of which these say whether they fall, over rows of these types,
    /// at the node with this number, to which nothing came.
    pub fn new(
        alloc: Global,
        node: u32,
        on: &[(usize, usize)],
        falls: &[bool],
        left: &[ColType],
        right: &[ColType],
    ) -> Result<MergeJoin, AllocError>
        requires left { AreColumns (length left.now) (map (λ p. p.0) on.now) }
        requires right { AreColumns (length right.now) (map (λ p. p.1) on.now) }
        requires falls { length falls.now ≡ length on.now }
        ensures stands { IfOk result (λ s. MergeJoinStands s fresh_ledger) }
        ensures op { IfOk result (λ s. merge_join_op s ≡ two_op node (join (by_merging falls.now) on.now)) }
        ensures types { IfOk result (λ s. merge_join_types s ≡ record { left = left.now; right = right.now; out = left.now ++ right.now }) }
        ensures starts { IfOk result (λ s. Starts (merge_join_meaning s)) }
    {
        let lefts = left_order(alloc, on, falls)?;
        let rights = right_order(alloc, on, falls)?;
        let kernel = MergeRows::new(alloc, lefts, left, rights, right)?;
        let on = Vec::from_slice(alloc, on)?;
        let falls = Vec::from_slice(alloc, falls)?;
        Ok(MergeJoin {
            node,
            on,
            falls,
            kernel,
            over: StreamState::Running,
        })
    }

    // What is returned for what the left input returned.
    fn read_left(&mut self, got: Got) -> Polled
        requires running { self.old.over ≡ Running }
        requires need { merge_need self.old.kernel ≡ need.Left }
        requires fits { Fits want_of.Left got }
        requires typed { GotTyped (merge_join_types self.old) want_of.Left got }
        ensures stands { (l : Ledger) → MergeJoinStands self.old l → MergeJoinStands self.new (after l want_of.Left got result) }
        ensures gives { GivesRows (merge_join_types self.old).out result }
        ensures pays { (c : Coming) → Pays (own_turn got) (merge_join_most self.old (with_rows want_of.Left got c)) (merge_join_idle self.old (with_rows want_of.Left got c)) (merge_join_most self.new c) (merge_join_idle self.new c) result }
        ensures op { merge_join_op self.new ≡ merge_join_op self.old }
        ensures types { merge_join_types self.new ≡ merge_join_types self.old }
    {
        match got {
            Got::Input(Polled::Gave(batch)) => self.take_left(batch),
            Got::Input(Polled::End) => {
                self.kernel.end_left();
                self.go_on()
            }
            Got::Input(Polled::Fault(f)) => {
                self.over = StreamState::Failed(f);
                Polled::Fault(f)
            }
            _ => Polled::Waiting,
        }
    }

    // What is returned for a batch of the left input.
    fn take_left(&mut self, batch: Rows) -> Polled
        requires running { self.old.over ≡ Running }
        requires need { merge_need self.old.kernel ≡ need.Left }
        requires typed { batch.types ≡ (merge_join_types self.old).left }
        ensures stands { (l : Ledger) → MergeJoinStands self.old l → MergeJoinStands self.new (after l want_of.Left (got_of.Input (polled.Gave batch)) result) }
        ensures gives { GivesRows (merge_join_types self.old).out result }
        ensures pays { (c : Coming) → Pays 0 (merge_join_most self.old (with_rows want_of.Left (got_of.Input (polled.Gave batch)) c)) (merge_join_idle self.old (with_rows want_of.Left (got_of.Input (polled.Gave batch)) c)) (merge_join_most self.new c) (merge_join_idle self.new c) result }
        ensures op { merge_join_op self.new ≡ merge_join_op self.old }
        ensures types { merge_join_types self.new ≡ merge_join_types self.old }
    {
        match self.kernel.take_left(batch) {
            Ok(()) => self.go_on(),
            Err(e) => {
                let fault = own_fault(e, self.node);
                self.over = StreamState::Failed(fault);
                Polled::Fault(fault)
            }
        }
    }

    // What is returned for what the right input returned.
    fn read_right(&mut self, got: Got) -> Polled
        requires running { self.old.over ≡ Running }
        requires need { merge_need self.old.kernel ≡ need.Right }
        requires fits { Fits want_of.Right got }
        requires typed { GotTyped (merge_join_types self.old) want_of.Right got }
        ensures stands { (l : Ledger) → MergeJoinStands self.old l → MergeJoinStands self.new (after l want_of.Right got result) }
        ensures gives { GivesRows (merge_join_types self.old).out result }
        ensures pays { (c : Coming) → Pays (own_turn got) (merge_join_most self.old (with_rows want_of.Right got c)) (merge_join_idle self.old (with_rows want_of.Right got c)) (merge_join_most self.new c) (merge_join_idle self.new c) result }
        ensures op { merge_join_op self.new ≡ merge_join_op self.old }
        ensures types { merge_join_types self.new ≡ merge_join_types self.old }
    {
        match got {
            Got::Input(Polled::Gave(batch)) => self.take_right(batch),
            Got::Input(Polled::End) => {
                self.kernel.end_right();
                self.go_on()
            }
            Got::Input(Polled::Fault(f)) => {
                self.over = StreamState::Failed(f);
                Polled::Fault(f)
            }
            _ => Polled::Waiting,
        }
    }

    // What is returned for a batch of the right input.
    fn take_right(&mut self, batch: Rows) -> Polled
        requires running { self.old.over ≡ Running }
        requires need { merge_need self.old.kernel ≡ need.Right }
        requires typed { batch.types ≡ (merge_join_types self.old).right }
        ensures stands { (l : Ledger) → MergeJoinStands self.old l → MergeJoinStands self.new (after l want_of.Right (got_of.Input (polled.Gave batch)) result) }
        ensures gives { GivesRows (merge_join_types self.old).out result }
        ensures pays { (c : Coming) → Pays 0 (merge_join_most self.old (with_rows want_of.Right (got_of.Input (polled.Gave batch)) c)) (merge_join_idle self.old (with_rows want_of.Right (got_of.Input (polled.Gave batch)) c)) (merge_join_most self.new c) (merge_join_idle self.new c) result }
        ensures op { merge_join_op self.new ≡ merge_join_op self.old }
        ensures types { merge_join_types self.new ≡ merge_join_types self.old }
    {
        match self.kernel.take_right(batch) {
            Ok(()) => self.go_on(),
            Err(e) => {
                let fault = own_fault(e, self.node);
                self.over = StreamState::Failed(fault);
                Polled::Fault(fault)
            }
        }
    }

    // Joins rows that are at hand.
    fn go_on(&mut self) -> Polled
        requires running { self.old.over ≡ Running }
        ensures stands { (l : Ledger) → MergeJoinStands self.old l → MergeJoinStands self.new (gives l result) }
        ensures gives { GivesRows (merge_join_types self.old).out result }
        ensures pays { (c : Coming) → Pays (own_where (merge_need self.old.kernel)) (merge_join_most self.old c) (merge_join_idle self.old c) (merge_join_most self.new c) (merge_join_idle self.new c) result }
        ensures op { merge_join_op self.new ≡ merge_join_op self.old }
        ensures types { merge_join_types self.new ≡ merge_join_types self.old }
    {
        match self.kernel.join_some(MOST) {
            Ok(joined) => {
                if joined.len() == 0 {
                    return self.conclude();
                }
                Polled::Gave(joined)
            }
            Err(e) => {
                let fault = own_fault(e, self.node);
                self.over = StreamState::Failed(fault);
                Polled::Fault(fault)
            }
        }
    }

    // What is returned where no row was joined.
    fn conclude(&mut self) -> Polled
        requires running { self.old.over ≡ Running }
        ensures stands { (l : Ledger) → MergeJoinStands self.old l → MergeJoinStands self.new (gives l result) }
        ensures gives { GivesRows (merge_join_types self.old).out result }
        ensures pays { (c : Coming) → Pays 0 (merge_join_most self.old c) (merge_join_idle self.old c) (merge_join_most self.new c) (merge_join_idle self.new c) result }
        ensures ends { merge_need self.old.kernel ≡ need.End → result ≡ polled.End }
        ensures op { merge_join_op self.new ≡ merge_join_op self.old }
        ensures types { merge_join_types self.new ≡ merge_join_types self.old }
    {
        match self.kernel.needs() {
            MergeNeed::End => {
                self.over = StreamState::Ended;
                Polled::End
            }
            _ => Polled::Waiting,
        }
    }
}

impl Source for MergeJoin {
    ghost use Rattle.vx_match.specs.MergeJoin.{MergeJoinStands, merge_join_op, merge_join_types, merge_join_want, merge_join_most, merge_join_idle, merge_join_abides, merge_join-most-grows, merge_join-idle-grows};

    ghost Stands = { MergeJoinStands };

    ghost op = { merge_join_op };

    ghost types = { merge_join_types };

    ghost want = { merge_join_want };

    ghost most = { merge_join_most };

    ghost idle = { merge_join_idle };

    ghost abides = { merge_join_abides };

    ghost most_grows = { merge_join-most-grows };

    ghost idle_grows = { merge_join-idle-grows };

    fn wants(&self) -> Want {
        match self.over {
            StreamState::Running => match self.kernel.needs() {
                MergeNeed::Left => Want::Left,
                MergeNeed::Right => Want::Right,
                _ => Want::Nothing,
            },
            _ => Want::Nothing,
        }
    }

    fn turn(&mut self, got: Got) -> Polled {
        match self.over {
            StreamState::Ended => Polled::End,
            StreamState::Failed(f) => Polled::Fault(f),
            StreamState::Running => match self.kernel.needs() {
                MergeNeed::Left => self.read_left(got),
                MergeNeed::Right => self.read_right(got),
                MergeNeed::Nothing => self.go_on(),
                MergeNeed::End => self.go_on(),
            },
        }
    }
}

// The order in which a merge join has to have its left input.
fn left_order(
    alloc: Global,
    on: &[(usize, usize)],
    falls: &[bool],
) -> Result<Vec<OrderEntry>, AllocError>
    ensures { IfOk result (λ v. v.items ≡ left_order falls.now on.now) }
{
    let columns = left_columns(alloc, on)?;
    in_directions(alloc, columns.as_slice(), falls)
}

// The order in which a merge join has to have its right input.
fn right_order(
    alloc: Global,
    on: &[(usize, usize)],
    falls: &[bool],
) -> Result<Vec<OrderEntry>, AllocError>
    ensures { IfOk result (λ v. v.items ≡ right_order falls.now on.now) }
{
    let columns = right_columns(alloc, on)?;
    in_directions(alloc, columns.as_slice(), falls)
}

// The fault of a merge join at a node.
fn own_fault(e: MergeFault, node: u32) -> Fault
    ensures { result ≡ fault_of e node }
{
    match e {
        MergeFault::Falls => Fault::Own {
            code: Code::Unsorted,
            node,
        },
        MergeFault::NoMemory => Fault::Own {
            code: Code::NoMemory,
            node,
        },
    }
}
