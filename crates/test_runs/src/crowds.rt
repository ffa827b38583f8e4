//! Runs of up to 256 workers.

/// A line with three exchanges in a row above a scan, then one worker that merges what comes.
pub const IN_A_ROW: &str =
    r#"three exchanges in a row | {"sizes":["many","few"],"total":true,"root":{"op":"exchange","kind":"gather","merge":["id"],"claim":{"part":"one","order":["id"],"keys":[["id"]]},"input":{"op":"exchange","kind":"round","merge":["id"],"size":"many","claim":{"part":"any","order":["id"],"keys":[["id"]]},"input":{"op":"exchange","kind":"round","merge":["id"],"size":"many","claim":{"part":"any","order":["id"],"keys":[["id"]]},"input":{"op":"exchange","kind":"round","merge":["id"],"size":"many","claim":{"part":"any","order":["id"],"keys":[["id"]]},"input":{"op":"scan","relation":"t","mode":"shared","size":"few","claim":{"part":"any","order":["id"],"keys":[["id"]]}}}}}}} | T | D | - | 0 'a' 5;1 'b' 7;2 'a' -2;3 'c' 7;"#;
