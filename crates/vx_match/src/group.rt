//! Grouping, in one step or in two.

use std::alloc::{AllocError, Global};
use std::marker::Model;
use vx_match_grouping::{GroupFault, Grouping};
use vx_ops::{Collecting, CollectingKernel, FinishFault};
use vx_plan_nodes::{Aggregate, Phase};
use vx_rows_values::{ColType, KeySeed};
use vx_rows_views::Rows;

/// Calls: `KeyedGroups::source (wants turn)*`.
///
/// Returns each key of its input with the aggregates of the key's rows, in order of first occurrence, once the input has ended. The three
/// phases compute the same of their inputs (Graefe's local and global aggregation).
pub type Group = Collecting<KeyedGroups>;

/// The kernel of a group: the aggregates by key.
pub struct KeyedGroups {
    alloc: Global,
    phase: Phase,
    grouping: Grouping,
    failed: Option<FinishFault>,
}

impl Drop for KeyedGroups {
    fn drop(self) {
        let KeyedGroups {
            alloc: _,
            phase: _,
            grouping: _,
            failed: _,
        } = self;
    }
}

impl Model for KeyedGroups {
    ghost use Rattle.std.specs.Prelude.{◌≡◌, None};
    ghost use Rattle.vx_plan_nodes.specs.Outline.{phase_of};
    ghost use Rattle.vx_match_grouping.specs.Groups.{HasTakenSome};
    ghost use Rattle.vx_match.specs.KeyedGroups.{KeyedGroupsView};

    ghost Value = { KeyedGroupsView };

    ghost view = { λ k. record { phase = phase_of k.phase; groups = k.grouping; failed = k.failed } };

    ghost invariant = { λ k. k.failed ≡ None → HasTakenSome k.grouping };
}

impl KeyedGroups {
    ghost use Rattle.std.specs.Prelude.{◌≡◌, length, map, IfOk};
    ghost use Rattle.vx_rows.specs.View.{AreColumns};
    ghost use Rattle.vx_plan_nodes.specs.Outline.{aggregate_of, phase_of};
    ghost use Rattle.vx_plan_nodes.specs.Plan.{group};
    ghost use Rattle.vx_plan_nodes.specs.Types.{unary_types};
    ghost use Rattle.vx_ops.specs.Ledger.{one_op};
    ghost use Rattle.vx_ops.specs.Turn.{fresh_ledger};
    ghost use Rattle.vx_ops.specs.Starts.{Starts};
    ghost use Rattle.vx_match.specs.Group.{GroupStands, group_op, group_types, group_meaning};

    /// The group by these columns with these aggregates over rows of these types, at the node with this number, to which nothing came.
    /// Keys are hashed by the seed.
    pub fn source(
        alloc: Global,
        seed: KeySeed,
        node: u32,
        phase: Phase,
        by: &[usize],
        aggregates: &[Aggregate],
        types: &[ColType],
    ) -> Result<Group, AllocError>
        requires { AreColumns (length types.now) by.now }
        ensures stands { IfOk result (λ s. GroupStands s fresh_ledger) }
        ensures op { IfOk result (λ s. group_op s ≡ one_op node (group (phase_of phase) by.now (map aggregate_of aggregates.now))) }
        ensures types { IfOk result (λ s. group_types s ≡ record { left = types.now; right = types.now; out = unary_types (group (phase_of phase) by.now (map aggregate_of aggregates.now)) types.now }) }
        ensures starts { IfOk result (λ s. Starts (group_meaning s)) }
    {
        let grouping = Grouping::new(alloc, seed, types, by, aggregates)?;
        let kernel = KeyedGroups {
            alloc,
            phase,
            grouping,
            failed: None,
        };
        Ok(Collecting::with_kernel(node, kernel))
    }
}

impl CollectingKernel for KeyedGroups {
    ghost use Rattle.std.specs.Prelude.{refl};
    ghost use Rattle.vx_match.specs.KeyedGroups.{keyed_group, keyed_types, KeyedHasRead, keyed_held};

    ghost unary = { keyed_group };

    ghost types = { keyed_types };

    ghost HasRead = { KeyedHasRead };

    ghost held = { keyed_held };

    ghost empty = { λ s. refl };

    // Too many rows are an overflow, which is reported once the input has ended.
    fn take(&mut self, batch: Rows) -> Result<(), AllocError> {
        if self.failed.is_some() {
            return Ok(());
        }
        match self.grouping.add_rows(&batch) {
            Ok(()) => Ok(()),
            Err(GroupFault::NoMemory) => {
                self.failed = Some(FinishFault::NoMemory);
                Err(AllocError)
            }
            Err(GroupFault::TooMany | GroupFault::Overflow) => {
                self.failed = Some(FinishFault::Overflow);
                Ok(())
            }
        }
    }

    fn finish(&mut self) -> Result<Rows, FinishFault> {
        if let Some(fault) = self.failed {
            return Err(fault);
        }
        match self.grouping.finish() {
            Ok(groups) => match Rows::of_table(self.alloc, groups) {
                Ok(rows) => Ok(rows),
                Err(_) => Err(FinishFault::NoMemory),
            },
            Err(GroupFault::NoMemory) => Err(FinishFault::NoMemory),
            Err(GroupFault::TooMany | GroupFault::Overflow) => Err(FinishFault::Overflow),
        }
    }
}
