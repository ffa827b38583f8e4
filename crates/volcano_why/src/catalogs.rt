//! Catalogs and tables: what their codes mean.

ghost use Rattle.std.specs.Prelude.{◌≡◌, ◌++◌, ◌+◌, length, take, codes, IfSome};
ghost use Rattle.std.specs.Option.{is_some};
ghost use Rattle.volcano_why.specs.Codes.{is_one_of, catalog_codes};

const C1: &str = r#"C1 BadCatalog
What happened: the catalog is not JSON, or does not have a catalog's form.
Usual cause, and cure: a member is missing, unknown or of the wrong kind, or a name is empty: compare with
`docs/GUIDE.md`; a bundle that is not JSON is `V1`.
Example: a column with `"type": "integer"`: the types are `int` and `text`.
"#;

const C2: &str = r#"C2 DuplicateName name=id
What happened: a relation occurs twice, or a column occurs twice in a relation, in a key or in an order.
Usual cause, and cure: rename or remove one.
Example: `"columns": [{"name": "id", "type": "int"}, {"name": "id", "type": "text"}]`.
"#;

const C3: &str = r#"C3 UnknownColumn name=z
What happened: a key or an order names a column that its relation does not have.
Usual cause, and cure: a typing error, or the column was renamed.
Example: `"keys": [["z"]]` in a relation with the columns id, k and v.
"#;

const C4: &str = r#"C4 HeaderMismatch
What happened: the table has no first record, or its fields are not the column names in the declared order.
Usual cause, and cure: add the header, or put its names in the catalog's order; an empty text is not a table.
Example: the columns are id, k and v, and the file begins with `id,v,k`.
"#;

const C5: &str = r#"C5 BadWidth row=0
What happened: the row has more or fewer fields than the relation has columns.
Usual cause, and cure: a comma in a text that is not quoted; empty lines are skipped, so in a table of one
column a row with an empty text is written `""`.
Example: the columns are id, k and v, and the first line after the header is `0,a`.
"#;

const C6: &str = r#"C6 BadInt row=0 col=2
What happened: a field of a column of numbers is not a number within 64 signed bits.
Usual cause, and cure: only digits with an optional sign are read: no spaces, decimals or separators.
Example: the third column is a number, and the first line after the header is `0,a,5.0`.
"#;

const C7: &str = r#"C7 NotUtf8 row=3
What happened: a field of a column of texts is not UTF-8.
Usual cause, and cure: write the file again in UTF-8.
Example: the fourth line after the header has an e with an accent as the one byte of Latin-1.
"#;

const C8: &str = r#"C8 KeyBroken key=0 first=0 second=4
What happened: two rows agree on the declared key with this number.
Usual cause, and cure: the data have a duplicate, or the key is not one: correct the data or drop the key.
Example: `"keys": [["id"]]`, and the first and the fifth row both have the id 7.
"#;

const C9: &str = r#"C9 OrderBroken row=2
What happened: by the declared order the row should stand before the one above it.
Usual cause, and cure: sort the file, numbers by value and texts by their bytes, or drop the order; keys are
tested first.
Example: `"order": ["id"]`, and the rows have the ids 0, 5 and 3.
"#;

const C10: &str = r#"C10 ReadFailed
What happened: a table's file failed while it was read; never for a bundle.
Usual cause, and cure: the device or the network; try again.
Example: the folder of `--data` is on a network drive that went away.
"#;

const C11: &str = r#"C11 NoMemory
What happened: an allocation was refused while a catalog or a table was read.
Usual cause, and cure: give the program more memory, or a smaller table.
Example: a table of some gigabytes under a limit of one.
"#;

const C12: &str = r#"C12 TooLarge
What happened: over 256 relations, 64 columns or 16 keys; over 100,000,000 rows or 2^40 bytes of a table.
Usual cause, and cure: split the data.
Example: a relation with 65 columns.
"#;

/// The entry of a code of catalogs and tables.
pub fn catalog_entry(code: &str) -> Option<&'static str>
    ensures listed { is_some result ≡ is_one_of code.now catalog_codes }
    ensures begins { IfSome result (λ t. take (length code.now + 1) t.now ≡ code.now ++ codes " ") }
{
    match code {
        "C1" => Some(C1),
        "C2" => Some(C2),
        "C3" => Some(C3),
        "C4" => Some(C4),
        "C5" => Some(C5),
        "C6" => Some(C6),
        "C7" => Some(C7),
        "C8" => Some(C8),
        "C9" => Some(C9),
        "C10" => Some(C10),
        "C11" => Some(C11),
        "C12" => Some(C12),
        _ => None,
    }
}
