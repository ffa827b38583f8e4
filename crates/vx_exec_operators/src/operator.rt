//! The operators of a fragment.

use crate::counting::{count_given, count_got};
use crate::kind::OperatorKind;
use vx_exec_setup::OperatorCounts;
use vx_exec_watch::CountsRows;
use vx_ops::{Got, Polled, Source, Want};
use vx_plan_nodes::PlanFunctions;

/// One operator of a fragment, and what it counted of its turns.
pub struct Operator<F: PlanFunctions + Copy> {
    // The number of its node.
    node: u32,
    kind: OperatorKind<F>,
    counts: OperatorCounts,
}

// By hand, as that of the kinds is.
impl<F: PlanFunctions + Copy> Drop for Operator<F> {
    fn drop(self) {
        let Operator {
            node: _,
            kind: _,
            counts: _,
        } = self;
    }
}

impl<F: PlanFunctions + Copy> Operator<F> {
    ghost use Rattle.std.specs.Prelude.{◌≡◌};
    ghost use Rattle.vx_ops.specs.Turn.{fresh_ledger};
    ghost use Rattle.vx_ops.specs.Starts.{Starts, StartsWithin};
    ghost use Rattle.vx_exec_operators.specs.Kind.{KindStands, kind_meaning};
    ghost use Rattle.vx_exec_operators.specs.Operator.{OperatorStands, operator_op, operator_most, operator_idle, node_in, counts_in};
    ghost use Rattle.vx_exec_setup.specs.Counts.{no_turns};

    /// The operator at the node with this number, to which nothing came.
    pub fn of(node: u32, kind: OperatorKind<F>) -> Operator<F>
        requires { KindStands F.PlanFunctions kind fresh_ledger }
        ensures node { node_in result ≡ node }
        ensures kind { result.kind ≡ kind }
        ensures counts { counts_in result ≡ no_turns }
        ensures stands { OperatorStands F.PlanFunctions result fresh_ledger }
        ensures starts { Starts (kind_meaning F.PlanFunctions kind) → StartsWithin (operator_op F.PlanFunctions result) (operator_most F.PlanFunctions result) (operator_idle F.PlanFunctions result) }
    {
        Operator {
            node,
            kind,
            counts: OperatorCounts::new(),
        }
    }

    /// The number of its node.
    pub fn node(&self) -> u32
        ensures { result ≡ node_in self.now }
    {
        self.node
    }

    /// What it counted so far.
    pub fn counts(&self) -> OperatorCounts
        ensures { result ≡ counts_in self.now }
    {
        self.counts
    }
}

impl<F: PlanFunctions + Copy> Source for Operator<F> {
    ghost use Rattle.vx_exec_operators.specs.Operator.{OperatorStands, operator_op, operator_types, operator_want, operator_most, operator_idle, operator_abides, operator-most-grows, operator-idle-grows};

    ghost Stands = { OperatorStands F.PlanFunctions };

    ghost op = { operator_op F.PlanFunctions };

    ghost types = { operator_types F.PlanFunctions };

    ghost want = { operator_want F.PlanFunctions };

    ghost most = { operator_most F.PlanFunctions };

    ghost idle = { operator_idle F.PlanFunctions };

    ghost abides = { operator_abides };

    ghost most_grows = { operator-most-grows };

    ghost idle_grows = { operator-idle-grows };

    fn wants(&self) -> Want {
        self.kind.wants()
    }

    fn turn(&mut self, got: Got) -> Polled {
        let want = self.kind.wants();
        count_got(&mut self.counts, want, &got);
        let polled = self.kind.turn(got);
        count_given(&mut self.counts, &polled);
        polled
    }
}

impl<F: PlanFunctions + Copy> CountsRows for Operator<F> {
    ghost use Rattle.vx_exec_operators.specs.Operator.{rows_given};

    ghost given = { rows_given F.PlanFunctions };

    fn rows_given(&self) -> u64 {
        self.counts.gave
    }
}
