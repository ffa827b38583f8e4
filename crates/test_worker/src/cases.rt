//! The cases, and what reads them.

use crate::senders::{routed, sent_by};
use crate::sources::{received, sorted};
use crate::workers::worked;
use std::alloc::Global;
use std::test::Fail;
use test_tables::{parts, three_numbers};

// Of each case: what it shows; what is made, and what comes to it, a word for each step; and what is answered, a word for each step.
//
// `receive 3 4 2` is the consumer end at place 4 of the exchange at node 3, with two producers, and `sort` is a sort; the
// numbers of `falling` fall. What is given is a packet
// (its exchange, producer and consumer, and its numbers or its end), or numbers, or `-` for nothing; what is answered stands behind what was
// wanted: a packet of a producer, the left input, or `-` for nothing.
//
// `round 3 5 1` is the sending end of a round robin at node 3, to five consumers, in packets of up to one row, which gets numbers and then its
// end; `next` asks it for a packet. What is sent stands behind consumer and size: `0/2:0-3` is two packets of two rows to consumer 0. The
// numbers of `last` and `fault` are consumers.
//
// `route` asks for the consumer of each word among three. `work 7 4 9` is a worker that scans at node 7, four morsels of the same numbers, and
// memory is refused for morsel 9; it answers how it ended, how many morsels it drew, and which rows it kept.
const CASES: &str =
    "names its own exchange for a stranger of another one, and again | receive 3 0 1: 5/0/0/0-1 - | 0:stranger(3) -:stranger(3)
names its own exchange for a stranger of another producer | receive 3 0 1: 3/1/0/0-1 - | 0:stranger(3) -:stranger(3)
names its own exchange for a stranger to another consumer | receive 3 0 1: 3/0/1/0-1 - | 0:stranger(3) -:stranger(3)
ends after both producers | receive 3 4 2: 3/0/4/0-1 3/1/4/last - 3/0/4/last - | 0:0;1; 1:waiting 0:waiting 0:end -:end
passes on the fault of a producer | receive 3 4 2: 3/0/4/0-1 3/1/4/fault - | 0:0;1; 1:passed -:passed
returns rows in order after the end | sort 3,1 - 2,1 end - - | left:waiting left:waiting left:waiting left:1;1;2;3; -:end -:end
returns rows that fall after the end | falling 1,3 - 2,3 end - | left:waiting left:waiting left:waiting left:3;3;2;1; -:end
ends at once where no rows came | sort end - | left:end -:end
passes a fault on and no rows | sort 3,1 fault - | left:waiting left:passed -:passed
scans to the end | work 7 4 9: 0-2 | well 4 0;1;2;0;1;2;0;1;2;0;1;2;
fails where memory is refused | work 7 4 2: 0-2 | memory(7) 3 0;1;2;0;1;2;
the byte router sends three keys apart | route a b c | 0 1 2
cuts rows into packets | gather 3 1 2: 0-4 end | 0/2:0-3 0/1:4 last:0
gives fault in place of last | gather 3 1 2: 0-4 next fault | 0/2:0-1 fault:0
a bound is the first value of its range, for two | range 3 2 4096: 0-3,10 end | 0/2:0-1 1/3:2-3,10 last:0-1
a bound is the first value of its range, for three | range 3 3 4096: 1-2,9-10 end | 0/1:1 1/2:2,9 2/1:10 last:0-2
no row in turn of one, by 1 | round 3 1 1: end | last:0
no row to all of one, by 1 | broadcast 3 1 1: end | last:0
no row to the one, by 1 | gather 3 1 1: end | last:0
no row to the one, in order, by 1 | concat 3 1 1: end | last:0
no row by hash of one, by 1 | hash 3 1 1: end | last:0
no row by range of one, by 1 | range 3 1 1: end | last:0
5 rows in turn of one, by 4096 | round 3 1 4096: 0-1 2-4 end | 0/5:0-4 last:0
5 rows to all of one, by 4096 | broadcast 3 1 4096: 0-1 2-4 end | 0/5:0-4 last:0
5 rows to the one, by 4096 | gather 3 1 4096: 0-1 2-4 end | 0/5:0-4 last:0
5 rows to the one, in order, by 4096 | concat 3 1 4096: 0-1 2-4 end | 0/5:0-4 last:0
5 rows by hash of one, by 4096 | hash 3 1 4096: 0-1 2-4 end | 0/5:0-4 last:0
5 rows by range of one, by 4096 | range 3 1 4096: 0-1 2-4 end | 0/5:0-4 last:0
one row in turn of 2, by 1 | round 3 2 1: 0 end | 0/1:0 last:0-1
one row to all of 2, by 1 | broadcast 3 2 1: 0 end | 0/1:0 1/1:0 last:0-1
one row to the one, by 1 | gather 3 1 1: 0 end | 0/1:0 last:0
one row to the one, in order, by 1 | concat 3 1 1: 0 end | 0/1:0 last:0
one row by hash of 2, by 1 | hash 3 2 1: 0 end | 0/1:0 last:0-1
one row by range of 2, by 1 | range 3 2 1: 0 end | 0/1:0 last:0-1
130 rows in turn of 2, by 4096 | round 3 2 4096: 0-64 65-129 end | 0/65:0,2,4,6,8,10,12,14,16,18,20,22,24,26,28,30,32,34,36,38,40,42,44,46,48,50,52,54,56,58,60,62,64,66,68,70,72,74,76,78,80,82,84,86,88,90,92,94,96,98,100,102,104,106,108,110,112,114,116,118,120,122,124,126,128 1/65:1,3,5,7,9,11,13,15,17,19,21,23,25,27,29,31,33,35,37,39,41,43,45,47,49,51,53,55,57,59,61,63,65,67,69,71,73,75,77,79,81,83,85,87,89,91,93,95,97,99,101,103,105,107,109,111,113,115,117,119,121,123,125,127,129 last:0-1
130 rows to all of 2, by 4096 | broadcast 3 2 4096: 0-64 65-129 end | 0/130:0-129 1/130:0-129 last:0-1
130 rows to the one, by 4096 | gather 3 1 4096: 0-64 65-129 end | 0/130:0-129 last:0
130 rows to the one, in order, by 4096 | concat 3 1 4096: 0-64 65-129 end | 0/130:0-129 last:0
130 rows by hash of 2, by 4096 | hash 3 2 4096: 0-64 65-129 end | 0/65:0,2,4,6,8,10,12,14,16,18,20,22,24,26,28,30,32,34,36,38,40,42,44,46,48,50,52,54,56,58,60,62,64,66,68,70,72,74,76,78,80,82,84,86,88,90,92,94,96,98,100,102,104,106,108,110,112,114,116,118,120,122,124,126,128 1/65:1,3,5,7,9,11,13,15,17,19,21,23,25,27,29,31,33,35,37,39,41,43,45,47,49,51,53,55,57,59,61,63,65,67,69,71,73,75,77,79,81,83,85,87,89,91,93,95,97,99,101,103,105,107,109,111,113,115,117,119,121,123,125,127,129 last:0-1
130 rows by range of 2, by 4096 | range 3 2 4096: 0-64 65-129 end | 0/2:0-1 1/128:2-129 last:0-1
130 rows in turn of 5, by 1 | round 3 5 1: 0-64 65-129 end | 0/1:0,5,10,15,20,25,30,35,40,45,50,55,60,65,70,75,80,85,90,95,100,105,110,115,120,125 1/1:1,6,11,16,21,26,31,36,41,46,51,56,61,66,71,76,81,86,91,96,101,106,111,116,121,126 2/1:2,7,12,17,22,27,32,37,42,47,52,57,62,67,72,77,82,87,92,97,102,107,112,117,122,127 3/1:3,8,13,18,23,28,33,38,43,48,53,58,63,68,73,78,83,88,93,98,103,108,113,118,123,128 4/1:4,9,14,19,24,29,34,39,44,49,54,59,64,69,74,79,84,89,94,99,104,109,114,119,124,129 last:0-4
130 rows to all of 5, by 1 | broadcast 3 5 1: 0-64 65-129 end | 0/1:0-129 1/1:0-129 2/1:0-129 3/1:0-129 4/1:0-129 last:0-4
130 rows to the one, by 1 | gather 3 1 1: 0-64 65-129 end | 0/1:0-129 last:0
130 rows to the one, in order, by 1 | concat 3 1 1: 0-64 65-129 end | 0/1:0-129 last:0
130 rows by hash of 5, by 1 | hash 3 5 1: 0-64 65-129 end | 0/1:2,7,12,17,22,27,32,37,42,47,52,57,62,67,72,77,82,87,92,97,102,107,112,117,122,127 1/1:3,8,13,18,23,28,33,38,43,48,53,58,63,68,73,78,83,88,93,98,103,108,113,118,123,128 2/1:4,9,14,19,24,29,34,39,44,49,54,59,64,69,74,79,84,89,94,99,104,109,114,119,124,129 3/1:0,5,10,15,20,25,30,35,40,45,50,55,60,65,70,75,80,85,90,95,100,105,110,115,120,125 4/1:1,6,11,16,21,26,31,36,41,46,51,56,61,66,71,76,81,86,91,96,101,106,111,116,121,126 last:0-4
130 rows by range of 5, by 1 | range 3 5 1: 0-64 65-129 end | 0/1:0-1 1/1:2-9 2/1:10-19 3/1:20-29 4/1:30-129 last:0-4
no row in turn of 5, by 4096 | round 3 5 4096: end | last:0-4
no row to all of 5, by 4096 | broadcast 3 5 4096: end | last:0-4
no row to the one, by 4096 | gather 3 1 4096: end | last:0
no row to the one, in order, by 4096 | concat 3 1 4096: end | last:0
no row by hash of 5, by 4096 | hash 3 5 4096: end | last:0-4
no row by range of 5, by 4096 | range 3 5 4096: end | last:0-4
130 rows in turn of 64, by 1 | round 3 64 1: 0-64 65-129 end | 0/1:0,64,128 1/1:1,65,129 2/1:2,66 3/1:3,67 4/1:4,68 5/1:5,69 6/1:6,70 7/1:7,71 8/1:8,72 9/1:9,73 10/1:10,74 11/1:11,75 12/1:12,76 13/1:13,77 14/1:14,78 15/1:15,79 16/1:16,80 17/1:17,81 18/1:18,82 19/1:19,83 20/1:20,84 21/1:21,85 22/1:22,86 23/1:23,87 24/1:24,88 25/1:25,89 26/1:26,90 27/1:27,91 28/1:28,92 29/1:29,93 30/1:30,94 31/1:31,95 32/1:32,96 33/1:33,97 34/1:34,98 35/1:35,99 36/1:36,100 37/1:37,101 38/1:38,102 39/1:39,103 40/1:40,104 41/1:41,105 42/1:42,106 43/1:43,107 44/1:44,108 45/1:45,109 46/1:46,110 47/1:47,111 48/1:48,112 49/1:49,113 50/1:50,114 51/1:51,115 52/1:52,116 53/1:53,117 54/1:54,118 55/1:55,119 56/1:56,120 57/1:57,121 58/1:58,122 59/1:59,123 60/1:60,124 61/1:61,125 62/1:62,126 63/1:63,127 last:0-63
130 rows to all of 64, by 1 | broadcast 3 64 1: 0-64 65-129 end | 0/1:0-129 1/1:0-129 2/1:0-129 3/1:0-129 4/1:0-129 5/1:0-129 6/1:0-129 7/1:0-129 8/1:0-129 9/1:0-129 10/1:0-129 11/1:0-129 12/1:0-129 13/1:0-129 14/1:0-129 15/1:0-129 16/1:0-129 17/1:0-129 18/1:0-129 19/1:0-129 20/1:0-129 21/1:0-129 22/1:0-129 23/1:0-129 24/1:0-129 25/1:0-129 26/1:0-129 27/1:0-129 28/1:0-129 29/1:0-129 30/1:0-129 31/1:0-129 32/1:0-129 33/1:0-129 34/1:0-129 35/1:0-129 36/1:0-129 37/1:0-129 38/1:0-129 39/1:0-129 40/1:0-129 41/1:0-129 42/1:0-129 43/1:0-129 44/1:0-129 45/1:0-129 46/1:0-129 47/1:0-129 48/1:0-129 49/1:0-129 50/1:0-129 51/1:0-129 52/1:0-129 53/1:0-129 54/1:0-129 55/1:0-129 56/1:0-129 57/1:0-129 58/1:0-129 59/1:0-129 60/1:0-129 61/1:0-129 62/1:0-129 63/1:0-129 last:0-63
130 rows by hash of 64, by 1 | hash 3 64 1: 0-64 65-129 end | 0/1:62,126 1/1:63,127 2/1:0,64,128 3/1:1,65,129 4/1:2,66 5/1:3,67 6/1:4,68 7/1:5,69 8/1:6,70 9/1:7,71 10/1:8,72 11/1:9,73 12/1:10,74 13/1:11,75 14/1:12,76 15/1:13,77 16/1:14,78 17/1:15,79 18/1:16,80 19/1:17,81 20/1:18,82 21/1:19,83 22/1:20,84 23/1:21,85 24/1:22,86 25/1:23,87 26/1:24,88 27/1:25,89 28/1:26,90 29/1:27,91 30/1:28,92 31/1:29,93 32/1:30,94 33/1:31,95 34/1:32,96 35/1:33,97 36/1:34,98 37/1:35,99 38/1:36,100 39/1:37,101 40/1:38,102 41/1:39,103 42/1:40,104 43/1:41,105 44/1:42,106 45/1:43,107 46/1:44,108 47/1:45,109 48/1:46,110 49/1:47,111 50/1:48,112 51/1:49,113 52/1:50,114 53/1:51,115 54/1:52,116 55/1:53,117 56/1:54,118 57/1:55,119 58/1:56,120 59/1:57,121 60/1:58,122 61/1:59,123 62/1:60,124 63/1:61,125 last:0-63
130 rows by range of 64, by 1 | range 3 64 1: 0-64 65-129 end | 0/1:0-1 1/1:2-9 2/1:10-19 3/1:20-29 4/1:30-129 last:0-63
one row in turn of 64, by 4096 | round 3 64 4096: 0 end | 0/1:0 last:0-63
one row to all of 64, by 4096 | broadcast 3 64 4096: 0 end | 0/1:0 1/1:0 2/1:0 3/1:0 4/1:0 5/1:0 6/1:0 7/1:0 8/1:0 9/1:0 10/1:0 11/1:0 12/1:0 13/1:0 14/1:0 15/1:0 16/1:0 17/1:0 18/1:0 19/1:0 20/1:0 21/1:0 22/1:0 23/1:0 24/1:0 25/1:0 26/1:0 27/1:0 28/1:0 29/1:0 30/1:0 31/1:0 32/1:0 33/1:0 34/1:0 35/1:0 36/1:0 37/1:0 38/1:0 39/1:0 40/1:0 41/1:0 42/1:0 43/1:0 44/1:0 45/1:0 46/1:0 47/1:0 48/1:0 49/1:0 50/1:0 51/1:0 52/1:0 53/1:0 54/1:0 55/1:0 56/1:0 57/1:0 58/1:0 59/1:0 60/1:0 61/1:0 62/1:0 63/1:0 last:0-63
one row to the one, by 4096 | gather 3 1 4096: 0 end | 0/1:0 last:0
one row to the one, in order, by 4096 | concat 3 1 4096: 0 end | 0/1:0 last:0
one row by hash of 64, by 4096 | hash 3 64 4096: 0 end | 2/1:0 last:0-63
one row by range of 64, by 4096 | range 3 64 4096: 0 end | 0/1:0 last:0-63";

// What comes of what is given in a case. None where it cannot be read, or memory ran out.
fn answer_to(alloc: Global, given: &str) -> Option<String> {
    let (what, rest) = given.split_once(' ')?;
    match what {
        "sort" => return sorted(alloc, false, rest),
        "falling" => return sorted(alloc, true, rest),
        "route" => return routed(alloc, rest).ok(),
        _ => {}
    }
    let (numbers, words) = rest.split_once(": ")?;
    let (first, second, third) = three_numbers(numbers)?;
    match what {
        "receive" => received(alloc, first, second, third, words),
        "work" => worked(alloc, first, second, third, words),
        kind => sent_by(alloc, kind, first, second, third, words),
    }
}

#[test]
fn steps_are_answered_as_worked_out(rt: HostRuntime) -> Result<(), Fail> {
    for line in CASES.lines() {
        let Some((name, given, wanted)) = parts(line) else {
            return Err(Fail::new("a line is no case"));
        };
        let Some(got) = answer_to(rt.alloc(), given) else {
            panic!(rt; "{name}: it cannot be read")
        };
        assert_eq!(rt; got.as_str().trim(), wanted, "{name}");
    }
    Ok(())
}
