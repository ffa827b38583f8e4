//! The cases, and what reads them.

use crate::answers::{lines_of, queried, written};
use std::alloc::Global;
use std::test::Fail;
use test_relations::generated_database;
use test_tables::{parts, three_numbers};
use vx_catalog::Database;

// How many rows each relation has.
const ROWS: [u64; 4] = [10_000, 10_000, 1000, 1000];

// Of each case: what it shows, what is asked, and what is answered. All that is answered was worked out by the formulas of the columns, without
// this program.
//
// `generate 4 1000 70000` generates four rows, for a writer that takes at most 1,000 bytes in a call and 70,000 in all. `lines 4 0 5` shows
// five lines of the text of four rows, from the header on, with `/` for the end of a line. `query 1` evaluates a query over 10,000, 10,000,
// 1,000 and 1,000 rows; its text has the header too, and the front of its first row is shown.
const CASES: &str =
    "no rows are the header alone | generate 0 1000000 1000000000 | written, 1 lines, 148 bytes, digest 8869542763691061217
four rows | generate 4 1000000 1000000000 | written, 5 lines, 888 bytes, digest 12180452288861235279
five rows | generate 5 1000000 1000000000 | written, 6 lines, 1073 bytes, digest 7227179632409717462
ten rows | generate 10 1000000 1000000000 | written, 11 lines, 2008 bytes, digest 5147889420543929775
1,000 rows | generate 1000 1000000 1000000000 | written, 1001 lines, 195118 bytes, digest 3130934786205317323
10,000 rows | generate 10000 1000000 1000000000 | written, 10001 lines, 1979818 bytes, digest 8927111236533623785
too many rows are refused | generate 10000001 100 100 | TooLarge, 0 lines, 0 bytes, digest 14695981039346656037
a writer that fails after 0 bytes is reported | generate 10000000 1000 0 | WriteFailed, 0 lines, 0 bytes, digest 14695981039346656037
a writer that fails after 100 bytes is reported | generate 10000000 1000 100 | WriteFailed, 0 lines, 100 bytes, digest 6725504813330190616
a writer that fails after 70000 bytes is reported | generate 10000000 1000 70000 | WriteFailed, 353 lines, 70000 bytes, digest 1599468095599402824
four rows are whole | lines 4 0 5 | unique1,unique2,two,four,ten,twenty,onePercent,tenPercent,twentyPercent,fiftyPercent,unique3,evenOnePercent,oddOnePercent,stringu1,stringu2,string4/0,0,0,0,0,0,0,0,0,0,0,0,1,AAAAAAAxxxxxxxxxxxxxxxxxxxxxxxxxxxxxxxxxxxxxxxxxxxxx,AAAAAAAxxxxxxxxxxxxxxxxxxxxxxxxxxxxxxxxxxxxxxxxxxxxx,AAAAxxxxxxxxxxxxxxxxxxxxxxxxxxxxxxxxxxxxxxxxxxxxxxxx/2,1,0,2,2,2,2,2,2,0,2,4,5,AAAAAACxxxxxxxxxxxxxxxxxxxxxxxxxxxxxxxxxxxxxxxxxxxxx,AAAAAABxxxxxxxxxxxxxxxxxxxxxxxxxxxxxxxxxxxxxxxxxxxxx,HHHHxxxxxxxxxxxxxxxxxxxxxxxxxxxxxxxxxxxxxxxxxxxxxxxx/1,2,1,1,1,1,1,1,1,1,1,2,3,AAAAAABxxxxxxxxxxxxxxxxxxxxxxxxxxxxxxxxxxxxxxxxxxxxx,AAAAAACxxxxxxxxxxxxxxxxxxxxxxxxxxxxxxxxxxxxxxxxxxxxx,OOOOxxxxxxxxxxxxxxxxxxxxxxxxxxxxxxxxxxxxxxxxxxxxxxxx/3,3,1,3,3,3,3,3,3,1,3,6,7,AAAAAADxxxxxxxxxxxxxxxxxxxxxxxxxxxxxxxxxxxxxxxxxxxxx,AAAAAADxxxxxxxxxxxxxxxxxxxxxxxxxxxxxxxxxxxxxxxxxxxxx,VVVVxxxxxxxxxxxxxxxxxxxxxxxxxxxxxxxxxxxxxxxxxxxxxxxx/
the first numbers of five rows | lines 5 1 5 | 0,0,0,0,0,0,0,0,0,0,0,0,1,AAAAAAAxxxxxxxxxxxxxxxxxxxxxxxxxxxxxxxxxxxxxxxxxxxxx,AAAAAAAxxxxxxxxxxxxxxxxxxxxxxxxxxxxxxxxxxxxxxxxxxxxx,AAAAxxxxxxxxxxxxxxxxxxxxxxxxxxxxxxxxxxxxxxxxxxxxxxxx/3,1,1,3,3,3,3,3,3,1,3,6,7,AAAAAADxxxxxxxxxxxxxxxxxxxxxxxxxxxxxxxxxxxxxxxxxxxxx,AAAAAABxxxxxxxxxxxxxxxxxxxxxxxxxxxxxxxxxxxxxxxxxxxxx,HHHHxxxxxxxxxxxxxxxxxxxxxxxxxxxxxxxxxxxxxxxxxxxxxxxx/1,2,1,1,1,1,1,1,1,1,1,2,3,AAAAAABxxxxxxxxxxxxxxxxxxxxxxxxxxxxxxxxxxxxxxxxxxxxx,AAAAAACxxxxxxxxxxxxxxxxxxxxxxxxxxxxxxxxxxxxxxxxxxxxx,OOOOxxxxxxxxxxxxxxxxxxxxxxxxxxxxxxxxxxxxxxxxxxxxxxxx/4,3,0,0,4,4,4,4,4,0,4,8,9,AAAAAAExxxxxxxxxxxxxxxxxxxxxxxxxxxxxxxxxxxxxxxxxxxxx,AAAAAADxxxxxxxxxxxxxxxxxxxxxxxxxxxxxxxxxxxxxxxxxxxxx,VVVVxxxxxxxxxxxxxxxxxxxxxxxxxxxxxxxxxxxxxxxxxxxxxxxx/2,4,0,2,2,2,2,2,2,0,2,4,5,AAAAAACxxxxxxxxxxxxxxxxxxxxxxxxxxxxxxxxxxxxxxxxxxxxx,AAAAAAExxxxxxxxxxxxxxxxxxxxxxxxxxxxxxxxxxxxxxxxxxxxx,AAAAxxxxxxxxxxxxxxxxxxxxxxxxxxxxxxxxxxxxxxxxxxxxxxxx/
the second of ten rows | lines 10 2 1 | 5,1,1,1,5,5,5,5,0,1,5,10,11,AAAAAAFxxxxxxxxxxxxxxxxxxxxxxxxxxxxxxxxxxxxxxxxxxxxx,AAAAAABxxxxxxxxxxxxxxxxxxxxxxxxxxxxxxxxxxxxxxxxxxxxx,HHHHxxxxxxxxxxxxxxxxxxxxxxxxxxxxxxxxxxxxxxxxxxxxxxxx/
row 52 of 10,000 | lines 10000 53 1 | 26,52,0,2,6,6,26,6,1,0,26,52,53,AAAAABAxxxxxxxxxxxxxxxxxxxxxxxxxxxxxxxxxxxxxxxxxxxxx,AAAAACAxxxxxxxxxxxxxxxxxxxxxxxxxxxxxxxxxxxxxxxxxxxxx,AAAAxxxxxxxxxxxxxxxxxxxxxxxxxxxxxxxxxxxxxxxxxxxxxxxx/
the last of 10,000 | lines 10000 10000 1 | 9999,9999,1,3,9,19,99,9,4,1,9999,198,199,AAAAOUPxxxxxxxxxxxxxxxxxxxxxxxxxxxxxxxxxxxxxxxxxxxxx,AAAAOUPxxxxxxxxxxxxxxxxxxxxxxxxxxxxxxxxxxxxxxxxxxxxx,VVVVxxxxxxxxxxxxxxxxxxxxxxxxxxxxxxxxxxxxxxxxxxxxxxxx/
the rows 0 to 99 | query 1 | total, 101 lines, 19418 bytes, digest 13269856657179306891: 0,0,0,0,0,0,0,0,0,0,0,0,1,AAAAAAAxxxxxxxxxxxxxxxxxxxxxxxxxxxxxxxxxxxxxxxxxxxxx,AAAAAAAxxxxxxxxxxxxxx
the rows 792 to 1791 | query 2 | total, 1001 lines, 197240 bytes, digest 15356180455103963257: 396,792,0,0,6,16,96,6,1,0,396,192,193,AAAAAPGxxxxxxxxxxxxxxxxxxxxxxxxxxxxxxxxxxxxxxxxxxxxx,AAAABEMxx
equal rows side by side, of which those below 1000 are joined | query 3 | not total, 1001 lines, 392300 bytes, digest 6148991450525809761: 0,0,0,0,0,0,0,0,0,0,0,0,1,AAAAAAAxxxxxxxxxxxxxxxxxxxxxxxxxxxxxxxxxxxxxxxxxxxxx,AAAAAAAxxxxxxxxxxxxxx
equal rows side by side with those of a smaller relation | query 4 | total, 1001 lines, 391300 bytes, digest 2094445853546360137: 0,0,0,0,0,0,0,0,0,0,0,0,1,AAAAAAAxxxxxxxxxxxxxxxxxxxxxxxxxxxxxxxxxxxxxxxxxxxxx,AAAAAAAxxxxxxxxxxxxxx
equal rows of three relations side by side | query 5 | not total, 1001 lines, 587450 bytes, digest 16143541380373467821: 0,0,0,0,0,0,0,0,0,0,0,0,1,AAAAAAAxxxxxxxxxxxxxxxxxxxxxxxxxxxxxxxxxxxxxxxxxxxxx,AAAAAAAxxxxxxxxxxxxxx
a merge join has the list of the hash join | query 6 | total, 1001 lines, 391300 bytes, digest 2094445853546360137: 0,0,0,0,0,0,0,0,0,0,0,0,1,AAAAAAAxxxxxxxxxxxxxxxxxxxxxxxxxxxxxxxxxxxxxxxxxxxxx,AAAAAAAxxxxxxxxxxxxxx
distinct pairs that come often | query 7 | not total, 201 lines, 11199 bytes, digest 14127165343741739745: 0,AAAAxxxxxxxxxxxxxxxxxxxxxxxxxxxxxxxxxxxxxxxxxxxxxxxx
distinct pairs that come once | query 8 | not total, 10001 lines, 578907 bytes, digest 1394627132760173718: 0,AAAAAAAxxxxxxxxxxxxxxxxxxxxxxxxxxxxxxxxxxxxxxxxxxxxx
the least number | query 9 | total, 2 lines, 4 bytes, digest 17917711456789667976: 0
the least numbers by percent | query 10 | total, 101 lines, 593 bytes, digest 8456460726969150721: 0,0
sums by percent | query 11 | total, 101 lines, 1003 bytes, digest 12742608388279051997: 0,495000
sums by percent in two phases | query 12 | total, 101 lines, 1003 bytes, digest 12742608388279051997: 0,495000
a merge join put together by concat has the list of the hash join | query 13 | total, 1001 lines, 391300 bytes, digest 2094445853546360137: 0,0,0,0,0,0,0,0,0,0,0,0,1,AAAAAAAxxxxxxxxxxxxxxxxxxxxxxxxxxxxxxxxxxxxxxxxxxxxx,AAAAAAAxxxxxxxxxxxxxx
there is no query 0 | query 0 | none
there is no query 14 | query 14 | none";

// What comes of what is asked in a case.
fn answer_to(alloc: Global, database: &Database, asked: &str) -> Result<String, Fail> {
    if let Some(query) = asked.strip_prefix("query ") {
        return queried(alloc, database, query.parse::<u32>()?);
    }
    let (what, numbers) = asked.split_once(' ').unwrap_or((asked, ""));
    let Some((rows, second, third)) = three_numbers(numbers) else {
        return Err(Fail::new("a case has three numbers"));
    };
    match what {
        "lines" => lines_of(alloc, rows, second, third),
        _ => Ok(written(alloc, rows, second, third)?),
    }
}

#[test]
fn texts_and_queries_are_as_worked_out(rt: HostRuntime) -> Result<(), Fail> {
    let database = generated_database(rt.alloc(), &ROWS)?;
    for line in CASES.lines() {
        let Some((name, asked, wanted)) = parts(line) else {
            return Err(Fail::new("a line is no case"));
        };
        let got = answer_to(rt.alloc(), &database, asked)?;
        assert_eq!(rt; got.as_str(), wanted, "{name}");
    }
    Ok(())
}
