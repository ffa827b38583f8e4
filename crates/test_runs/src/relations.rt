//! Two small relations, rows of them, and plans over them in which words in capitals stand for scans.

use std::alloc::{AllocError, Global};

/// The relations t(id, k, v), by its key and order id, and d(k, n), by its key k.
pub const CATALOG: &str =
    r#"{"relations":[{"name":"t","columns":[{"name":"id","type":"int"},{"name":"k","type":"text"},{"name":"v","type":"int"}],"keys":[["id"]],"order":["id"]},{"name":"d","columns":[{"name":"k","type":"text"},{"name":"n","type":"int"}],"keys":[["k"]]}]}"#;

/// The same relations without a declared order.
pub const OTHER_CATALOG: &str =
    r#"{"relations":[{"name":"t","columns":[{"name":"id","type":"int"},{"name":"k","type":"text"},{"name":"v","type":"int"}],"keys":[["id"]]},{"name":"d","columns":[{"name":"k","type":"text"},{"name":"n","type":"int"}],"keys":[["k"]]}]}"#;

/// Rows of t.
pub const ROWS_OF_T: &str = "0,a,5\n1,b,7\n2,a,-2\n3,c,7\n";

/// Rows of t whose sum by the key k leaves 64 bits before the third comes.
pub const LARGE: &str = "0,a,9223372036854775807\n1,a,1\n2,a,-1\n";

/// The first two of these rows.
pub const TOO_LARGE: &str = "0,a,9223372036854775807\n1,a,1\n";

/// Rows of t of two keys, whose sums both leave 64 bits. Of three workers, one has the key a and another the key b.
pub const BOTH_TOO_LARGE: &str = "0,a,9223372036854775807\n1,a,1\n2,b,9223372036854775807\n3,b,1\n";

/// Rows of t, one for each morsel of a scan whose morsels have one row.
pub const EIGHT_ROWS: &str = "0,a,7\n1,b,7\n2,c,7\n3,d,7\n4,e,7\n5,f,7\n6,g,7\n7,h,7\n";

/// Rows of t, of which the first two have a sum that is too large, and 60 others have keys of their own.
pub const LARGE_FIRST: &str =
    "0,a,9223372036854775807\n1,a,1\n2,k0,7\n3,k1,7\n4,k2,7\n5,k3,7\n6,k4,7\n7,k5,7\n8,k6,7\n9,k7,7\n10,k8,7\n11,k9,7\n12,k10,7\n13,k11,7\n14,k12,7\n15,k13,7\n16,k14,7\n17,k15,7\n18,k16,7\n19,k17,7\n20,k18,7\n21,k19,7\n22,k20,7\n23,k21,7\n24,k22,7\n25,k23,7\n26,k24,7\n27,k25,7\n28,k26,7\n29,k27,7\n30,k28,7\n31,k29,7\n32,k30,7\n33,k31,7\n34,k32,7\n35,k33,7\n36,k34,7\n37,k35,7\n38,k36,7\n39,k37,7\n40,k38,7\n41,k39,7\n42,k40,7\n43,k41,7\n44,k42,7\n45,k43,7\n46,k44,7\n47,k45,7\n48,k46,7\n49,k47,7\n50,k48,7\n51,k49,7\n52,k50,7\n53,k51,7\n54,k52,7\n55,k53,7\n56,k54,7\n57,k55,7\n58,k56,7\n59,k57,7\n60,k58,7\n61,k59,7\n";

/// Rows of d.
pub const ROWS_OF_D: &str = "a,10\nb,20\n";

/// Rows of d for the keys of those 60.
pub const SIXTY_ROWS: &str =
    "k0,0\nk1,1\nk2,2\nk3,3\nk4,4\nk5,5\nk6,6\nk7,7\nk8,8\nk9,9\nk10,10\nk11,11\nk12,12\nk13,13\nk14,14\nk15,15\nk16,16\nk17,17\nk18,18\nk19,19\nk20,20\nk21,21\nk22,22\nk23,23\nk24,24\nk25,25\nk26,26\nk27,27\nk28,28\nk29,29\nk30,30\nk31,31\nk32,32\nk33,33\nk34,34\nk35,35\nk36,36\nk37,37\nk38,38\nk39,39\nk40,40\nk41,41\nk42,42\nk43,43\nk44,44\nk45,45\nk46,46\nk47,47\nk48,48\nk49,49\nk50,50\nk51,51\nk52,52\nk53,53\nk54,54\nk55,55\nk56,56\nk57,57\nk58,58\nk59,59\n";

// The words in capitals of a plan, each with the scan that stands for it. Many workers share the rows of a relation, or each of them has
// all, or one worker has.
const SCANS: &str =
    r#"T_SHARED {"op":"scan","relation":"t","mode":"shared","size":"many","claim":{"part":"any","order":["id"],"keys":[["id"]]}}
T_PLAIN {"op":"scan","relation":"t","mode":"shared","size":"many"}
T_EVERYWHERE {"op":"scan","relation":"t","mode":"whole","size":"many","claim":{"part":"all","order":["id"],"keys":[["id"]]}}
T_WHOLE {"op":"scan","relation":"t","mode":"whole","size":"one","claim":{"part":"one","order":["id"],"keys":[["id"]]}}
D_SHARED {"op":"scan","relation":"d","mode":"shared","size":"many","prefix":"d.","claim":{"part":"any","keys":[["d.k"]]}}
D_EVERYWHERE {"op":"scan","relation":"d","mode":"whole","size":"many","prefix":"d.","claim":{"part":"all","keys":[["d.k"]]}}
D_WHOLE {"op":"scan","relation":"d","mode":"whole","size":"one","prefix":"d.","claim":{"part":"one","keys":[["d.k"]]}}"#;

/// The text of a plan in which each word in capitals is replaced by a scan.
pub fn with_scans(alloc: Global, document: &str) -> Result<String, AllocError> {
    let mut text = String::from_str(alloc, document)?;
    for line in SCANS.lines() {
        if let Some((word, scan)) = line.split_once(' ') {
            text = text.replace(alloc, word, scan)?;
        }
    }
    Ok(text)
}
