//! Functions of one's own: each way to run a plan applies them, refuses a plan for those that are not among them, and says where one of them overflows.

use crate::runs::Given;
use crate::ways::try_plan_given;
use std::alloc::{AllocError, Global};
use std::test::Fail;
use vx_exchange::ByteRouter;
use vx_functions::StandardFunction;
use vx_plan_nodes::{PlanFunctions, StandardFunctions};
use vx_rows_values::{Cell, ColType, Value};

// `twice`, which the program does not have, and the program's `add`.
#[derive(Clone, Copy)]
struct OwnFunctions;

impl PlanFunctions for OwnFunctions {
    ghost use Rattle.test_execution.specs.OwnFunctions.{own_functions, own-typed};

    ghost functions = { λ _. own_functions };

    ghost typed = { λ _. own-typed };

    fn signature(&self, name: &str, types: &[ColType]) -> Option<ColType> {
        match name {
            "twice" => match types {
                [ColType::Int] => Some(ColType::Int),
                _ => None,
            },
            "add" => StandardFunctions.signature(name, types),
            _ => None,
        }
    }

    fn apply(
        &self,
        alloc: Global,
        name: &str,
        values: &[Cell<'_>],
    ) -> Result<Option<Value>, AllocError> {
        match name {
            "twice" => match values {
                [Cell::Int(number)] => Ok(number.checked_mul(2).map(Value::Int)),
                _ => Ok(None),
            },
            "add" => StandardFunctions.apply(alloc, name, values),
            _ => Ok(None),
        }
    }

    fn standard(&self, name: &str) -> Option<StandardFunction> {
        match name {
            "add" => StandardFunctions.standard(name),
            _ => None,
        }
    }
}

// A function within another, in either order, in columns and in conditions; values that one overflows for, in one worker of several and in the one at the
// root; and functions that are not among them, or take no such values, or answer another type than the plan says.
const PLANS: &str =
    r#"twice a column | {"sizes":["many"],"root":{"op":"exchange","kind":"gather","input":{"op":"project","columns":["id",{"fn":"twice","of":["v"],"type":"int","as":"w"}],"input":T_PLAIN}}} | T | D | 1 | 0 10;1 14;2 -4;3 14;
twice a sum | {"sizes":["many"],"root":{"op":"exchange","kind":"gather","input":{"op":"project","columns":["id",{"fn":"twice","of":[{"fn":"add","of":["v",{"value":1}],"type":"int"}],"type":"int","as":"w"}],"input":T_PLAIN}}} | T | D | 1 | 0 12;1 16;2 -2;3 16;
a sum of what is twice a column | {"sizes":["many"],"root":{"op":"exchange","kind":"gather","input":{"op":"project","columns":["id",{"fn":"add","of":[{"fn":"twice","of":["v"],"type":"int"},{"fn":"twice","of":["id"],"type":"int"}],"type":"int","as":"w"}],"input":T_PLAIN}}} | T | D | 1 | 0 10;1 16;2 0;3 20;
rows for which twice a column is not 0 | {"sizes":["many"],"root":{"op":"exchange","kind":"gather","input":{"op":"select","where":[{"fn":"twice","of":["id"]}],"input":T_PLAIN}}} | T | D | 1 | 1 'b' 7;2 'a' -2;3 'c' 7;
rows that are sent by what is twice a column | {"sizes":["many"],"root":{"op":"exchange","kind":"gather","input":{"op":"group","by":["w"],"aggregates":[{"fn":"count","as":"n"}],"claim":{"part":{"hash":"h","columns":["w"]}},"input":{"op":"exchange","kind":"hash","route":"h","columns":["w"],"size":"many","claim":{"part":{"hash":"h","columns":["w"]}},"input":{"op":"project","columns":[{"fn":"twice","of":["v"],"type":"int","as":"w"}],"input":T_PLAIN}}}}} | T | D | 2 | 10 1;14 2;-4 1;
twice a number that is too large | {"sizes":["many"],"root":{"op":"exchange","kind":"gather","input":{"op":"project","columns":["id",{"fn":"twice","of":["v"],"type":"int","as":"w"}],"input":T_PLAIN}}} | TOO_LARGE | D | 1 | X7 Overflow node=1
a condition of twice a number that is too large | {"sizes":["many"],"root":{"op":"exchange","kind":"gather","input":{"op":"select","where":[{"fn":"twice","of":["v"]}],"input":T_PLAIN}}} | TOO_LARGE | D | 1 | X7 Overflow node=1
twice a number that is too large at the root | {"sizes":["many"],"root":{"op":"project","columns":[{"fn":"twice","of":["v"],"type":"int","as":"w"}],"input":{"op":"exchange","kind":"gather","input":T_PLAIN}}} | TOO_LARGE | D | 1 | X7 Overflow node=0
a function of the program that is not among them | {"sizes":["many"],"root":{"op":"exchange","kind":"gather","input":{"op":"project","columns":["id",{"fn":"neg","of":["v"],"type":"int","as":"w"}],"input":T_PLAIN}}} | T | D | 1 | X15 BadFunction node=1
twice a text | {"sizes":["many"],"root":{"op":"exchange","kind":"gather","input":{"op":"project","columns":["id",{"fn":"twice","of":["k"],"type":"int","as":"w"}],"input":T_PLAIN}}} | T | D | 1 | X15 BadFunction node=1
twice a number as a text | {"sizes":["many"],"root":{"op":"exchange","kind":"gather","input":{"op":"project","columns":["id",{"fn":"twice","of":["v"],"type":"text","as":"w"}],"input":T_PLAIN}}} | T | D | 1 | X15 BadFunction node=1"#;

// The turns at the end of each schedule are more than a run needs.
const WAYS: &str = "serial | 1 | | 1 1 1 | rows in order
rounds | 1 | many=1 | 1 1 4 | rows
rounds | 1 | many=3 | 1 1 4 | rows
drawn 3 50 | 20 | many=3 | 1 1 4 | rows
threads | 3 | many=3 | 1 1 1 | rows
threads | 1 | many=2 | 4096 2 2 | rows";

#[test]
fn own_functions_come_to_their_rows(rt: HostRuntime) -> Result<(), Fail> {
    let given = Given {
        functions: &OwnFunctions,
        router: &ByteRouter,
    };
    for line in PLANS.lines() {
        try_plan_given(&rt, &given, 0, line, WAYS)?;
    }
    Ok(())
}
