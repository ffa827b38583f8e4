//! Schedules, counts and setups: one worker can do all the work, a group overflows only after its input, a part of a sum overflows where one worker has it; each
//! row, morsel and packet of a run is counted once, under the node and the worker that it passed; the rounds that a run needs; and setups that are not right
//! are refused with their lines, as are faults of all kinds.

use crate::ways::try_cases;
use std::test::Fail;
use vx_exchange::ByteRouter;

// Schedules of three workers that scan and the one at the root, number 0. Where worker 2 draws every morsel before another makes a step, the rows come in the order
// of the relation, and the root waits for what worker 3 sends; of a merge, the other workers send that they have no rows. In the first case of a large sum worker 2 sends both rows, and
// worker 3 has not yet sent that it has none. Where the answer is one of two, by some schedules one worker has a part of the sum that is too large, and by others none has.
// In the last plans each of two workers has a function that overflows, in nodes 2 and 6.
const CHOSEN: &str = r#"one worker takes all | SELECTED | T | D | 1 | 1 'b' 7;3 'c' 7;
by steps 1000 2 1 3 0 | 1 | many=3 | 1 1 4 | rows in order
the last worker comes first | SELECTED | T | D | 1 | 1 'b' 7;3 'c' 7;
by steps 40 3 2 1 0 | 1 | many=3 | 1 1 4 | rows in order
a worker makes no step | SELECTED | T | D | 1 | 1 'b' 7;3 'c' 7;
by steps 1000 2 1 0 | 1 | many=3 | 1 1 4 | unfinished
the root's worker makes no step | SELECTED | T | D | 1 | 1 'b' 7;3 'c' 7;
by steps 1000 2 1 3 | 1 | many=3 | 1 1 4 | unfinished
no step | SELECTED | T | D | 1 | 1 'b' 7;3 'c' 7;
by steps 0 | 1 | many=3 | 1 1 4 | unfinished
a step names no worker | SELECTED | T | D | 1 | 1 'b' 7;3 'c' 7;
by steps 1 1 4 0 | 1 | many=3 | 1 1 4 | X5 BadStep index=1
one worker takes all and merges with none | MERGED | T | D | 1 | 1 'b' 7;3 'c' 7;
by steps 1000 1 2 3 0 | 1 | many=3 | 1 1 4 | rows in order
the second takes all and merges with none | MERGED | T | D | 1 | 1 'b' 7;3 'c' 7;
by steps 1000 2 1 3 0 | 1 | many=3 | 1 1 4 | rows in order
the third takes all and merges with none | MERGED | T | D | 1 | 1 'b' 7;3 'c' 7;
by steps 1000 3 2 1 0 | 1 | many=3 | 1 1 4 | rows in order
one worker takes all, sorts what falls and merges with none | MERGED_FALLING | T | D | 1 | 3 'c' 7;1 'b' 7;
by steps 1000 2 1 3 0 | 1 | many=3 | 1 1 4 | rows in order
a group has not overflowed before the end of its input | GATHERED_SUMS | TOO_LARGE | D | 1 | X7 Overflow node=0
by steps 1000 2 1 0 0 0 | 1 | many=3 | 1 1 4 | unfinished
a group overflows only after its input | GATHERED_SUMS | TOO_LARGE | D | 1 | X7 Overflow node=0
by steps 1000 2 1 0 3 0 | 1 | many=3 | 1 1 4 | X7 Overflow node=0
a group overflows at the end of its input | GATHERED_SUMS | TOO_LARGE | D | 1 | X7 Overflow node=0
by steps 1000 3 2 1 0 0 | 1 | many=3 | 1 1 4 | X7 Overflow node=0
a whole sum of one worker that takes all | GATHERED_SUMS | LARGE | D | 1 | 'a' 9223372036854775807;
by steps 1000 2 1 3 0 | 1 | many=3 | 1 1 4 | rows in order
a partial group has a whole sum | GATHERED_SUMS_IN_TWO_PHASES | LARGE | D | 1 | 'a' 9223372036854775807;
by steps 1000 2 1 3 0 | 1 | many=3 | 1 1 4 | rows in order
a partial group overflows by itself | GATHERED_SUMS_IN_TWO_PHASES | TOO_LARGE | D | 1 | X7 Overflow node=2
by steps 1000 2 1 3 0 | 1 | many=3 | 1 1 4 | X7 Overflow node=2
a part of a sum overflows by some schedules | SUMS_IN_TWO_PHASES | LARGE | D | 2 | 'a' 9223372036854775807;
by drawn 3 100 | 1000 | many=3 | 1 1 4 | X7 Overflow node=4 or rows
a worker that goes on leaves a run unfinished where another overflowed | {"sizes":["many"],"root":{"op":"exchange","kind":"gather","input":{"op":"union","left":{"op":"project","columns":[{"fn":"add","of":["v",{"value":1}],"type":"int","as":"w"}],"input":{"op":"select","where":[{"column":"k","op":"=","value":"a"}],"input":{"op":"exchange","kind":"hash","route":"h","columns":["k"],"size":"many","input":T_PLAIN}}},"right":{"op":"project","columns":[{"fn":"add","of":["v",{"value":1}],"type":"int","as":"w"}],"input":{"op":"select","where":[{"column":"k","op":"=","value":"b"}],"input":{"op":"exchange","kind":"hash","route":"h","columns":["k"],"size":"many","input":T_PLAIN}}}}}} | BOTH_TOO_LARGE | D | 3 | X7 Overflow node=2
by steps 1000 3 4 5 6 2 0 | 1 | many=2 | 1 1 4 | unfinished
of two workers that overflow the lower one is told | {"sizes":["many"],"root":{"op":"exchange","kind":"gather","input":{"op":"union","left":{"op":"project","columns":[{"fn":"add","of":["v",{"value":1}],"type":"int","as":"w"}],"input":{"op":"select","where":[{"column":"k","op":"=","value":"a"}],"input":{"op":"exchange","kind":"hash","route":"h","columns":["k"],"size":"many","input":T_PLAIN}}},"right":{"op":"project","columns":[{"fn":"add","of":["v",{"value":1}],"type":"int","as":"w"}],"input":{"op":"select","where":[{"column":"k","op":"=","value":"b"}],"input":{"op":"exchange","kind":"hash","route":"h","columns":["k"],"size":"many","input":T_PLAIN}}}}}} | BOTH_TOO_LARGE | D | 3 | X7 Overflow node=2
by steps 1000 3 4 5 6 2 1 0 | 1 | many=2 | 1 1 4 | rows
by steps 1000 3 4 5 6 1 2 0 | 1 | many=2 | 1 1 4 | rows"#;

#[test]
fn chosen_schedules_have_their_lines(rt: HostRuntime) -> Result<(), Fail> {
    try_cases(&rt, &ByteRouter, 0, CHOSEN)
}

// Counts are of nodes 2, 1, 0 and 3, in this order. Four rows are scanned in morsels of one row, and two of them are selected. Each comes in a packet of its own, and each producer
// sends Last. In the first round each producer draws a morsel, and the root's worker finds no packet; one round is too few.
//
// The rounds of the second plan: three workers scan four rows, and one gathers them. The root's worker has 3 * 4 rows, takes 3 * (4 + 1) packets, and needs 4
// steps more: 31. Each of the others has 4 rows, draws 4 morsels, and puts 4 packets; with 2 to close its consumer and 4 more it needs 18 steps. So there are
// 31 + 3 * 18.
const COUNTED: &str = "each row is counted once | SELECTED | T | D | 1 | 1 'b' 7;3 'c' 7;
by counts 1000 2 1 0 3 puts waited workers | 1 | many=3 | 1 1 4 | done;4 4 4 0 by 3;4 2 0 0 by 3;0 2 0 5 by 1;0 0 0 0 by 0;5;1;4;
by counts 1 2 0 puts waits workers | 1 | many=3 | 1 1 4 | unfinished;3 3 3 0 by 3;0 0 0 0 by 1;0;1;4;
by counts threads 2 1 0 3 puts workers | 1 | many=2 | 1 1 4 | done;4 4 4 0 by 2;4 2 0 0 by 2;0 2 0 4 by 1;0 0 0 0 by 0;4;3;
rounds were worked out by hand | GATHERED | T | D | 1 | 0 'a' 5;1 'b' 7;2 'a' -2;3 'c' 7;
by rounds | 1 | many=3 | 1 1 4 | rows | 85
by limit 2 | 1 | many=3 | 1 1 4 | unfinished";

// The first plan has two size names and uses one. A name without a number comes before an earlier one whose number is wrong, the first entry of a name
// counts, and names that the plan does not declare are ignored. Of the next plan, where several numbers are wrong, the first in the order of these
// refusals is answered. Another catalog comes before all of them. The last lines have faults.
const SETUPS: &str =
    r#"two size names | {"sizes":["few","many"],"root":{"op":"exchange","kind":"gather","claim":{"part":"one"},"input":T_PLAIN}} | - | - | 1 |
by limit 1000 | 1 | | 1 1 1 | X1 SizeMissing name=few
by limit 1000 | 1 | many=1 | 1 1 1 | X1 SizeMissing name=few
by limit 1000 | 1 | few=1 | 1 1 1 | X1 SizeMissing name=many
by limit 1000 | 1 | few=0 | 1 1 1 | X1 SizeMissing name=many
by limit 1000 | 1 | many=0 few=65 | 1 1 1 | X2 SizeOutOfRange name=few
by limit 1000 | 1 | few=1 many=0 many=1 | 1 1 1 | X2 SizeOutOfRange name=many
by limit 1000 | 1 | few=1 many=1 many=0 | 1 1 1 | rows
by limit 1000 | 1 | many=64 few=1 | 1 1 1 | rows
by limit 1000 | 1 | none=0 few=64 many=1 | 1 1 1 | rows
one size name | GATHERED | - | - | 1 |
by limit 1000 | 1 | many=1 | 1 1 1 | rows
by limit 1000 | 1 | many=64 | 4096 1000000 1024 | rows
by limit 1000 | 1 | many=0 | 1 1 1 | X2 SizeOutOfRange name=many
by limit 1000 | 1 | many=65 | 1 1 1 | X2 SizeOutOfRange name=many
by limit 1000 | 1 | many=1 | 0 1 1 | X3 BadPacket
by limit 1000 | 1 | many=1 | 4097 1 1 | X3 BadPacket
by limit 1000 | 1 | many=1 | 1 0 1 | X4 BadMorsel
by limit 1000 | 1 | many=1 | 1 1000001 1 | X4 BadMorsel
by limit 1000 | 1 | many=1 | 1 1 0 | X14 BadSlack
by limit 1000 | 1 | many=1 | 1 1 1025 | X14 BadSlack
by limit 1000 | 1 | many=0 | 0 0 0 | X2 SizeOutOfRange name=many
by limit 1000 | 1 | many=1 | 0 0 0 | X3 BadPacket
by limit 1000 | 1 | many=1 | 1 0 0 | X4 BadMorsel
by limit 1000 | 1 | many=65 | 1 1 0 | X2 SizeOutOfRange name=many
another catalog | GATHERED | OTHER | - | 1 |
by limit 1000 | 1 | many=1 | 1 1 1 | X6 OtherCatalog
by limit 1000 | 1 | | 0 0 0 | X6 OtherCatalog
a function that is not there | {"sizes":["many"],"root":{"op":"exchange","kind":"gather","input":{"op":"project","columns":[{"fn":"nosuch","of":["v"],"type":"int","as":"w"}],"input":T_PLAIN}}} | T | D | 1 | X15 BadFunction node=1
by limit 1000 | 1 | many=1 | 1 1 1 | rows
by limit 0 | 1 | many=1 | 1 1 1 | rows
by limit 1000 | 1 | many=1 | 1 1 0 | X14 BadSlack
by limit 1000 | 1 | many=0 | 1 1 1 | X2 SizeOutOfRange name=many
by steps 1 1 9 0 | 1 | many=1 | 1 1 4 | X5 BadStep index=1
by steps 1 1 0 | 1 | many=1 | 1 1 4 | rows
a function that is not there, over another catalog | {"sizes":["many"],"root":{"op":"exchange","kind":"gather","input":{"op":"project","columns":[{"fn":"nosuch","of":["v"],"type":"int","as":"w"}],"input":T_PLAIN}}} | OTHER | - | 1 |
by limit 1000 | 1 | many=1 | 1 1 1 | X6 OtherCatalog
faults | COUNTED_BY_ONE | T | D | 0 | 4;
by fault BadStep | 1 | | 1 1 1 | X5 BadStep index=3
by fault Overflow | 1 | | 1 1 1 | X7 Overflow node=2
by fault NoMemory | 1 | | 1 1 1 | X8 NoMemory
by fault NoThread | 1 | | 1 1 1 | X9 NoThread
by fault Unsorted | 1 | | 1 1 1 | X10 Unsorted node=1
by fault Stranger | 1 | | 1 1 1 | X11 Stranger exchange=4
by fault TooManyWorkers | 1 | | 1 1 1 | X12 TooManyWorkers number=257
by fault BadFunction | 1 | | 1 1 1 | X15 BadFunction node=5"#;

#[test]
fn setups_and_counts_have_their_lines(rt: HostRuntime) -> Result<(), Fail> {
    try_cases(&rt, &ByteRouter, 0, COUNTED)?;
    try_cases(&rt, &ByteRouter, 0, SETUPS)
}
