//! The kinds of operators of a fragment.

use vx_exchange::Receiver;
use vx_exchange_receivers::{InOrderReceiver, MergeReceiver};
use vx_match::{Distinct, Group, HashJoin, MergeJoin, SemiJoin};
use vx_ops::{Got, Limit, Polled, Project, Scan, Select, Sort, Source, Union, Want};
use vx_plan_nodes::PlanFunctions;

/// An operator of a fragment, by its kind: each is a source of its own crate. Selections and projections compute by these functions.
pub enum OperatorKind<F: PlanFunctions + Copy> {
    Scan(Scan),
    Select(Select<F>),
    Project(Project<F>),
    Distinct(Distinct),
    Sort(Sort),
    Group(Group),
    Limit(Limit),
    Union(Union),
    HashJoin(HashJoin),
    MergeJoin(MergeJoin),
    SemiJoin(SemiJoin),
    Receiver(Receiver),
    InOrder(InOrderReceiver),
    Merge(MergeReceiver),
}

// Written out and not derived: so it is proved here once, and what holds operators calls it. A derived one is proved again, with those of all
// that the operators hold, by each crate that lets an operator go.
impl<F: PlanFunctions + Copy> Drop for OperatorKind<F> {
    fn drop(self) {
        match self {
            OperatorKind::Scan(scan) => drop(scan),
            OperatorKind::Select(select) => drop(select),
            OperatorKind::Project(project) => drop(project),
            OperatorKind::Distinct(distinct) => drop(distinct),
            OperatorKind::Sort(sort) => drop(sort),
            OperatorKind::Group(group) => drop(group),
            OperatorKind::Limit(limit) => drop(limit),
            OperatorKind::Union(union) => drop(union),
            OperatorKind::HashJoin(join) => drop(join),
            OperatorKind::MergeJoin(join) => drop(join),
            OperatorKind::SemiJoin(join) => drop(join),
            OperatorKind::Receiver(receiver) => drop(receiver),
            OperatorKind::InOrder(receiver) => drop(receiver),
            OperatorKind::Merge(receiver) => drop(receiver),
        }
    }
}

impl<F: PlanFunctions + Copy> Source for OperatorKind<F> {
    ghost use Rattle.vx_exec_operators.specs.Kind.{KindStands, kind_op, kind_types, kind_want, kind_most, kind_idle, kind_abides, kind-most-grows, kind-idle-grows};

    ghost Stands = { KindStands F.PlanFunctions };

    ghost op = { kind_op F.PlanFunctions };

    ghost types = { kind_types F.PlanFunctions };

    ghost want = { kind_want F.PlanFunctions };

    ghost most = { kind_most F.PlanFunctions };

    ghost idle = { kind_idle F.PlanFunctions };

    ghost abides = { kind_abides };

    ghost most_grows = { kind-most-grows };

    ghost idle_grows = { kind-idle-grows };

    fn wants(&self) -> Want {
        match self {
            OperatorKind::Scan(scan) => scan.wants(),
            OperatorKind::Select(select) => select.wants(),
            OperatorKind::Project(project) => project.wants(),
            OperatorKind::Distinct(distinct) => distinct.wants(),
            OperatorKind::Sort(sort) => sort.wants(),
            OperatorKind::Group(group) => group.wants(),
            OperatorKind::Limit(limit) => limit.wants(),
            OperatorKind::Union(union) => union.wants(),
            OperatorKind::HashJoin(join) => join.wants(),
            OperatorKind::MergeJoin(join) => join.wants(),
            OperatorKind::SemiJoin(join) => join.wants(),
            OperatorKind::Receiver(receiver) => receiver.wants(),
            OperatorKind::InOrder(receiver) => receiver.wants(),
            OperatorKind::Merge(receiver) => receiver.wants(),
        }
    }

    fn turn(&mut self, got: Got) -> Polled {
        match self {
            OperatorKind::Scan(scan) => scan.turn(got),
            OperatorKind::Select(select) => select.turn(got),
            OperatorKind::Project(project) => project.turn(got),
            OperatorKind::Distinct(distinct) => distinct.turn(got),
            OperatorKind::Sort(sort) => sort.turn(got),
            OperatorKind::Group(group) => group.turn(got),
            OperatorKind::Limit(limit) => limit.turn(got),
            OperatorKind::Union(union) => union.turn(got),
            OperatorKind::HashJoin(join) => join.turn(got),
            OperatorKind::MergeJoin(join) => join.turn(got),
            OperatorKind::SemiJoin(join) => join.turn(got),
            OperatorKind::Receiver(receiver) => receiver.turn(got),
            OperatorKind::InOrder(receiver) => receiver.turn(got),
            OperatorKind::Merge(receiver) => receiver.turn(got),
        }
    }
}
