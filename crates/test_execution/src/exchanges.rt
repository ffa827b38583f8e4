//! Exchanges: of whatever kind they are, however many workers send and read, and whatever sizes packets and morsels have, a run in turns or by threads
//! comes to just the rows that were sent, in their order where the plan is total; and it ends where a worker fails.

use crate::ways::{try_plan, try_plans};
use std::test::Fail;
use test_runs::{EXCHANGE_PLANS, IN_A_ROW};
use vx_exchange::ByteRouter;

// Ways to send 130 rows.
const WAYS_OF_130: &str = "rounds | 1 | many=1 readers=1 | 1 1 4 | rows
threads | 2 | many=1 readers=1 | 1 1 4 | rows
rounds | 1 | many=1 readers=64 | 4096 1 4 | rows
threads | 2 | many=1 readers=64 | 4096 1 4 | rows
rounds | 1 | many=2 readers=5 | 1 1 4 | rows
threads | 2 | many=2 readers=5 | 1 1 4 | rows
rounds | 1 | many=5 readers=2 | 4096 1 4 | rows
threads | 2 | many=5 readers=2 | 4096 1 4 | rows
rounds | 1 | many=64 readers=1 | 1 1 4 | rows
threads | 2 | many=64 readers=1 | 1 1 4 | rows
rounds | 1 | many=64 readers=64 | 1 1 4 | rows
threads | 2 | many=64 readers=64 | 1 1 4 | rows
rounds | 1 | many=1 readers=1 | 1 1 1 | rows
threads | 2 | many=1 readers=1 | 1 1 1 | rows
rounds | 1 | many=2 readers=5 | 1 1 1 | rows
threads | 2 | many=2 readers=5 | 1 1 1 | rows
rounds | 1 | many=5 readers=2 | 3 1 2 | rows
threads | 2 | many=5 readers=2 | 3 1 2 | rows
rounds | 1 | many=9 readers=1 | 1 1 1024 | rows
threads | 2 | many=9 readers=1 | 1 1 1024 | rows";

// Ways to send 30 rows.
const WAYS_OF_30: &str = "rounds | 1 | many=9 readers=9 | 1 1 1 | rows
threads | 2 | many=9 readers=9 | 1 1 1 | rows";

// Ways to send one row.
const WAYS_OF_ONE: &str = "rounds | 1 | many=1 readers=2 | 4096 1 4 | rows
threads | 2 | many=1 readers=2 | 4096 1 4 | rows
rounds | 1 | many=5 readers=5 | 1 1 4 | rows
threads | 2 | many=5 readers=5 | 1 1 4 | rows
rounds | 1 | many=64 readers=5 | 4096 1 4 | rows
threads | 2 | many=64 readers=5 | 4096 1 4 | rows";

// Ways to send none.
const WAYS_OF_NONE: &str = "rounds | 1 | many=2 readers=2 | 4096 1 4 | rows
threads | 2 | many=2 readers=2 | 4096 1 4 | rows
rounds | 1 | many=5 readers=64 | 1 1 4 | rows
threads | 2 | many=5 readers=64 | 1 1 4 | rows
rounds | 1 | many=64 readers=64 | 4096 1 4 | rows
threads | 2 | many=64 readers=64 | 4096 1 4 | rows
rounds | 1 | many=2 readers=2 | 4096 1 1 | rows
threads | 2 | many=2 readers=2 | 4096 1 1 | rows";

#[test]
fn exchanges_keep_the_rows_and_their_order(rt: HostRuntime) -> Result<(), Fail> {
    try_plans(&rt, &ByteRouter, 130, EXCHANGE_PLANS, WAYS_OF_130)?;
    try_plans(&rt, &ByteRouter, 30, EXCHANGE_PLANS, WAYS_OF_30)?;
    try_plans(&rt, &ByteRouter, 1, EXCHANGE_PLANS, WAYS_OF_ONE)?;
    try_plans(&rt, &ByteRouter, 0, EXCHANGE_PLANS, WAYS_OF_NONE)
}

// With the root's worker there are three times as many workers as `many`, as many as `few`, and one. The slack and the size of a group are
// tested before the number of workers.
const CROWDS: &str = "rounds | 1 | many=1 few=1 | 1 1 1 | rows
threads | 1 | many=1 few=1 | 1 1 1 | rows
rounds | 1 | many=1 few=1 | 1 1 4 | rows
threads | 1 | many=1 few=1 | 1 1 4 | rows
rounds | 1 | many=64 few=62 | 1 1 4 | rows
threads | 1 | many=64 few=62 | 1 1 4 | rows
rounds | 1 | many=64 few=63 | 1 1 1 | rows
threads | 1 | many=64 few=63 | 1 1 1 | rows
rounds | 1 | many=64 few=63 | 1 1 4 | rows
threads | 1 | many=64 few=63 | 1 1 4 | rows
rounds | 1 | many=64 few=64 | 1 1 4 | X12 TooManyWorkers number=257
limit 1 | 1 | many=64 few=64 | 1 1 4 | X12 TooManyWorkers number=257
threads | 1 | many=64 few=64 | 1 1 4 | X12 TooManyWorkers number=257
rounds | 1 | many=64 few=64 | 1 1 0 | X14 BadSlack
limit 1 | 1 | many=64 few=64 | 1 1 0 | X14 BadSlack
threads | 1 | many=64 few=64 | 1 1 0 | X14 BadSlack
rounds | 1 | many=64 few=65 | 1 1 4 | X2 SizeOutOfRange name=few
limit 1 | 1 | many=64 few=65 | 1 1 4 | X2 SizeOutOfRange name=few
threads | 1 | many=64 few=65 | 1 1 4 | X2 SizeOutOfRange name=few";

// Every second row has the number 7.
const SELECTED: &str = "every second row | SELECTED | SEVENS | - | 1 | SELECTED_SEVENS";

const SIZES: &str = "rounds | 1 | many=1 | 1 1 8 | rows
rounds | 1 | many=1 | 1 1000000 8 | rows
rounds | 1 | many=1 | 256 1 8 | rows
rounds | 1 | many=1 | 256 1000000 8 | rows
rounds | 1 | many=1 | 4096 1 8 | rows
rounds | 1 | many=1 | 4096 1000000 8 | rows
rounds | 1 | many=64 | 1 1 8 | rows
rounds | 1 | many=64 | 1 1000000 8 | rows
rounds | 1 | many=64 | 256 1 8 | rows
rounds | 1 | many=64 | 256 1000000 8 | rows
rounds | 1 | many=64 | 4096 1 8 | rows
rounds | 1 | many=64 | 4096 1000000 8 | rows";

#[test]
fn crowds_and_sizes_change_no_row(rt: HostRuntime) -> Result<(), Fail> {
    try_plan(&rt, &ByteRouter, 0, IN_A_ROW, CROWDS)?;
    try_plan(&rt, &ByteRouter, 5000, SELECTED, SIZES)
}

// The run ends with the fault of the worker while the others still send, and none waits for ever.
const FAILING: &str =
    r#"a worker fails at the root, while those that scan have sent all | {"sizes":["many"],"root":{"op":"group","by":["k"],"aggregates":[{"fn":"sum","column":"v","as":"s"}],"input":{"op":"exchange","kind":"gather","input":T_PLAIN}}} | LARGE_FIRST | SIXTY | - | X7 Overflow node=0
a worker fails between those that scan and the one at the root | {"sizes":["many"],"root":{"op":"exchange","kind":"gather","input":{"op":"group","by":["k"],"aggregates":[{"fn":"sum","column":"v","as":"s"}],"claim":{"part":{"hash":"h","columns":["k"]}},"input":{"op":"exchange","kind":"hash","route":"h","columns":["k"],"size":"many","claim":{"part":{"hash":"h","columns":["k"]}},"input":T_PLAIN}}}} | LARGE_FIRST | SIXTY | - | X7 Overflow node=1
a worker fails that scans, since it has both rows in one morsel | {"sizes":["many"],"root":{"op":"exchange","kind":"gather","input":{"op":"group","phase":"final","claim":{"part":{"hash":"h","columns":["k"]}},"input":{"op":"exchange","kind":"hash","route":"h","columns":["k"],"size":"many","claim":{"part":{"hash":"h","columns":["k"]}},"input":{"op":"group","phase":"partial","by":["k"],"aggregates":[{"fn":"sum","column":"v","as":"s"}],"input":T_PLAIN}}}}} | LARGE_FIRST | SIXTY | - | X7 Overflow node=3
a worker fails that sends to the left side of a join, while others send to its right side | {"sizes":["many"],"root":{"op":"exchange","kind":"gather","input":{"op":"join","method":"hash","on":[["k","d.k"]],"left":{"op":"exchange","kind":"round","size":"many","input":{"op":"group","by":["k"],"aggregates":[{"fn":"sum","column":"v","as":"s"}],"input":T_WHOLE}},"right":{"op":"exchange","kind":"broadcast","size":"many","claim":{"part":"all"},"input":D_SHARED}}}} | LARGE_FIRST | SIXTY | - | X7 Overflow node=3
a worker fails that sends to the right side of a join, while others send to its left side | {"sizes":["many"],"root":{"op":"exchange","kind":"gather","input":{"op":"join","method":"hash","on":[["d.k","k"]],"left":{"op":"exchange","kind":"round","size":"many","input":D_SHARED},"right":{"op":"exchange","kind":"broadcast","size":"many","claim":{"part":"all"},"input":{"op":"group","by":["k"],"aggregates":[{"fn":"sum","column":"v","as":"s"}],"input":T_WHOLE}}}}} | LARGE_FIRST | SIXTY | - | X7 Overflow node=5"#;

const TEAMS: &str = "threads | 8 | many=1 | 1 2 1 | rows
threads | 8 | many=2 | 1 2 1 | rows
threads | 8 | many=3 | 1 2 2 | rows
threads | 8 | many=8 | 1 2 1 | rows";

#[test]
fn no_worker_waits_for_one_that_failed(rt: HostRuntime) -> Result<(), Fail> {
    try_plans(&rt, &ByteRouter, 0, FAILING, TEAMS)
}
