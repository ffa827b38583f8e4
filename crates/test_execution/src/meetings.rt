//! Threads: workers are at work at the same time, also those of different fragments, they share the morsels of a scan, the gate is called after each
//! draw of a shared scan and after no other, and no one draws where there are fewer threads than workers.

use crate::ways::try_cases;
use std::test::Fail;
use vx_exchange::ByteRouter;

// Each morsel is drawn once, and each worker finds once that nothing is left, whether it also has a whole scan or not. The scan of the query is in the last of its
// fragments, and has ten morsels. Three workers of each group of the sums are seven: three that group, three that scan, and the one at the root. A
// setup is tested before the threads are counted.
const CASES: &str =
    r#"one worker draws while another is held up | SELECTED | T | D | 1 | 1 'b' 7;3 'c' 7;
by held 1.0 1.1 | 1 | many=2 | 1 1 4 | rows | 4 2 1 0
two workers wait for each other | SELECTED | T | D | 1 | 1 'b' 7;3 'c' 7;
by both 1.0 1.1 | 1 | many=2 | 1 1 4 | rows | 4 2 2 0
workers of a query wait for each other | QUERY 10 | - | - | - | serial 100
by held 2.0 2.1 | 1 | many=4 | 256 1024 8 | rows | 10 4 1 0
by both 2.0 2.1 | 1 | many=4 | 256 1024 8 | rows | 10 4 2 0
workers of two fragments wait for each other | SENT_TO_MEET | T | D | 3 | 0 'a' 5 'a' 10;1 'b' 7 'b' 20;2 'a' -2 'a' 10;
by both 2.0 3.0 | 1 | many=2 | 1 1 1 | rows | 6 4 2 0
a worker takes what is left of a scan | MERGED | EIGHT | D | 1 | 0 'a' 7;1 'b' 7;2 'c' 7;3 'd' 7;4 'e' 7;5 'f' 7;6 'g' 7;7 'h' 7;
by until 1.0 1.1 | 1 | many=2 | 1 1 8 | rows | 8 2 1 0
the gate is called after each draw of a shared scan | SELECTED | T | D | 1 | 1 'b' 7;3 'c' 7;
by watched | 1 | many=3 | 1 1 4 | rows | 4 3 0 0
the gate is called after no draw of a whole scan | JOINED_EVERYWHERE | T | D | 1 | 0 'a' 5 'a' 10;1 'b' 7 'b' 20;2 'a' -2 'a' 10;
by watched | 1 | many=3 | 1 1 4 | rows | 4 3 0 0
no worker draws where there are fewer threads than workers | GROUPED | T | D | 2 | 'a' 3;'b' 7;'c' 7;
by within 0 | 1 | many=65 | 1 1 4 | X2 SizeOutOfRange name=many | 0 0 0 0
by within 0 | 1 | many=3 | 0 1 4 | X3 BadPacket | 0 0 0 0
by within 0 | 1 | many=3 | 1 0 4 | X4 BadMorsel | 0 0 0 0
by within 0 | 1 | many=3 | 1 1 0 | X14 BadSlack | 0 0 0 0
by within 0 | 1 | many=3 | 1 1 4 | X9 NoThread | 0 0 0 0
by within 1 | 1 | many=3 | 1 1 4 | X9 NoThread | 0 0 0 0
by within 2 | 1 | many=3 | 1 1 4 | X9 NoThread | 0 0 0 0
by within 3 | 1 | many=3 | 1 1 4 | X9 NoThread | 0 0 0 0
by within 4 | 1 | many=3 | 1 1 4 | X9 NoThread | 0 0 0 0
by within 5 | 1 | many=3 | 1 1 4 | X9 NoThread | 0 0 0 0
by within 6 | 1 | many=3 | 1 1 4 | X9 NoThread | 0 0 0 0
by within 7 | 1 | many=3 | 1 1 4 | rows | 4 3 0 0"#;

#[test]
fn workers_are_at_work_at_the_same_time(rt: HostRuntime) -> Result<(), Fail> {
    try_cases(&rt, &ByteRouter, 10_000, CASES)
}
