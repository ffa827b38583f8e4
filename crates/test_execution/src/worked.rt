//! Worked plans: serially, by rounds of teams of any size, by schedules that are drawn, and by threads, they come to the rows that were worked
//! out by hand, or to the fault of the one group that overflows.

use crate::ways::{try_plan, try_plans};
use std::test::Fail;
use test_runs::{
    FUNCTION_PLANS, JOIN_PLANS, OPERATOR_JOINS, OPERATOR_PLANS, SUM_PLANS, WORKED_PLANS,
};
use test_tables::ToFirst;
use vx_exchange::ByteRouter;

// The turns at the end of each schedule are more than a run needs.
const WAYS: &str = "serial | 1 | | 1 1 1 | rows in order
rounds | 1 | many=1 | 1 1 4 | rows
rounds | 1 | many=2 | 1 1 4 | rows
rounds | 1 | many=3 | 1 1 4 | rows
rounds | 1 | many=5 | 1 1 4 | rows
rounds | 1 | many=64 | 1 1 4 | rows
drawn 3 50 | 1000 | many=3 | 1 1 4 | rows
drawn 64 500 | 1 | many=64 | 1 1 4 | rows
threads | 5 | many=3 | 1 1 4 | rows
threads | 5 | many=3 | 1 1 1 | rows
threads | 5 | many=1 | 1 1 1 | rows
threads | 5 | many=2 | 2 1 1 | rows
threads | 5 | many=5 | 4096 2 2 | rows
threads | 5 | many=8 | 1 1 1024 | rows";

#[test]
fn worked_plans_come_to_their_rows(rt: HostRuntime) -> Result<(), Fail> {
    try_plans(&rt, &ByteRouter, 0, WORKED_PLANS, WAYS)?;
    try_plans(&rt, &ByteRouter, 0, JOIN_PLANS, WAYS)?;
    try_plans(&rt, &ByteRouter, 0, SUM_PLANS, WAYS)
}

#[test]
fn operators_come_to_their_serial_rows(rt: HostRuntime) -> Result<(), Fail> {
    try_plans(&rt, &ByteRouter, 0, OPERATOR_PLANS, WAYS)?;
    try_plans(&rt, &ByteRouter, 0, OPERATOR_JOINS, WAYS)
}

// The turns at the end of each schedule are more than a run needs.
const FEWER_WAYS: &str = "serial | 1 | | 1 1 1 | rows in order
rounds | 1 | many=1 | 1 1 4 | rows
rounds | 1 | many=3 | 1 1 4 | rows
drawn 3 50 | 20 | many=3 | 1 1 4 | rows
threads | 2 | many=3 | 1 1 1 | rows
threads | 1 | many=2 | 4096 2 2 | rows";

#[test]
fn functions_come_to_their_rows(rt: HostRuntime) -> Result<(), Fail> {
    try_plans(&rt, &ByteRouter, 0, FUNCTION_PLANS, FEWER_WAYS)
}

// Sums by a key, where all keys are sent to one worker.
const SUMS: &str = "sums by a key | GROUPED | T | D | 2 | 'a' 3;'b' 7;'c' 7;";

// There are 129 workers: that of the root, 64 that group and 64 that scan.
const WAYS_OF_129: &str = "rounds | 1 | many=64 | 1 1 4 | rows
drawn 64 300 | 1000 | many=64 | 1 1 4 | rows
threads | 1 | many=64 | 1 1 1 | rows
threads | 1 | many=64 | 1 1 4 | rows";

#[test]
fn of_129_workers_one_has_every_key(rt: HostRuntime) -> Result<(), Fail> {
    try_plan(&rt, &ToFirst, 0, SUMS, WAYS_OF_129)
}
