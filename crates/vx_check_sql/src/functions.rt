//! What the program's functions are in SQL: what stands before, between and behind their operands.

ghost use Rattle.std.specs.Prelude.{◌≡◌, ◌++◌, string_bytes, OnOk};
ghost use Rattle.vx_check_sql.specs.Functions.{value_of, test_of, division, concatenation, length_form, front, inner_part, likeness, span, call_form, truth_sql, overflows, tests_operands, is_tested, test_before, case_before, opening_sql, closing_sql};
ghost use Rattle.vx_check_sql.specs.FunctionsView.{form_of};

use crate::dialect::Dialect;
use std::alloc::AllocError;
use vx_functions::StandardFunction;

/// What stands before the first operand of a call, the second and the third one, and behind the last; and whether that is a
/// test, of which the call is 1 or 0.
#[derive(Clone, Copy)]
pub struct Form {
    pub opening: &'static str,
    pub second: &'static str,
    pub third: &'static str,
    pub closing: &'static str,
    pub is_test: bool,
}

fn value_of(
    opening: &'static str,
    second: &'static str,
    third: &'static str,
    closing: &'static str,
) -> Form
    ensures { form_of result ≡ value_of opening.now second.now third.now closing.now }
{
    Form {
        opening,
        second,
        third,
        closing,
        is_test: false,
    }
}

fn test_of(opening: &'static str, second: &'static str, closing: &'static str) -> Form
    ensures { form_of result ≡ test_of opening.now second.now closing.now }
{
    Form {
        opening,
        second,
        third: "",
        closing,
        is_test: true,
    }
}

// Toward zero.
fn division(dialect: Dialect) -> Form
    ensures { form_of result ≡ division dialect }
{
    match dialect {
        Dialect::Sqlite => value_of("(", " / ", "", ")"),
        Dialect::Postgres => value_of("(", " / ", "", ")"),
        Dialect::ClickHouse => value_of("intDiv(", ", ", "", ")"),
    }
}

// Texts one behind the other.
fn concatenation(dialect: Dialect) -> Form
    ensures { form_of result ≡ concatenation dialect }
{
    match dialect {
        Dialect::Sqlite => value_of("(", " || ", "", ")"),
        Dialect::Postgres => value_of("(", " || ", "", ")"),
        Dialect::ClickHouse => value_of("concat(", ", ", "", ")"),
    }
}

// How many characters.
fn length_form(dialect: Dialect) -> Form
    ensures { form_of result ≡ length_form dialect }
{
    match dialect {
        Dialect::Sqlite => value_of("length(", "", "", ")"),
        Dialect::Postgres => value_of("CAST(length(", "", "", ") AS bigint)"),
        Dialect::ClickHouse => value_of("toInt64(lengthUTF8(", "", "", "))"),
    }
}

// A text begins with another one where that is first found at its beginning.
fn front(dialect: Dialect) -> Form
    ensures { form_of result ≡ front dialect }
{
    match dialect {
        Dialect::Sqlite => test_of("instr(", ", ", ") = 1"),
        Dialect::Postgres => test_of("strpos(", ", ", ") = 1"),
        Dialect::ClickHouse => test_of("startsWith(", ", ", ")"),
    }
}

// A text stands in another one where it is found.
fn inner_part(dialect: Dialect) -> Form
    ensures { form_of result ≡ inner_part dialect }
{
    match dialect {
        Dialect::Sqlite => test_of("instr(", ", ", ") > 0"),
        Dialect::Postgres => test_of("strpos(", ", ", ") > 0"),
        Dialect::ClickHouse => test_of("position(", ", ", ") > 0"),
    }
}

// A text is like a pattern: in SQLite like the pattern of GLOB that `replace` makes of it, since LIKE takes no account of case there.
// PostgreSQL refuses a backslash that escapes nothing at the end, and ClickHouse also takes one as itself before a letter.
fn likeness(dialect: Dialect) -> Form
    ensures { form_of result ≡ likeness dialect }
{
    match dialect {
        Dialect::Sqlite => test_of(
            "",
            " GLOB replace(replace(replace(replace(replace(replace(replace(replace(replace(replace(replace(replace(replace(replace(",
            ",'[','[[]'),'*','[*]'),'?','[?]')||'[E]','\\\\','[A]'),'\\[E]','[A]'),'[E]',''),'\\%','[B]'),'\\_','[C]'),'\\',''),'%','*'),'_','?'),'[A]','\\'),'[B]','%'),'[C]','_')",
        ),
        Dialect::Postgres => test_of(
            "",
            " LIKE regexp_replace(",
            ", '^((?:[^\\\\]|\\\\.)*)\\\\$', '\\1\\\\\\\\')",
        ),
        Dialect::ClickHouse => test_of(
            "like(",
            ", replaceRegexpOne(replaceRegexpAll(",
            ", '(?s)((?:[^\\\\\\\\]|\\\\\\\\[%_\\\\\\\\])*)\\\\\\\\([^%_\\\\\\\\])', '\\\\1\\\\2'), '(?s)^((?:[^\\\\\\\\]|\\\\\\\\.)*)\\\\\\\\$', '\\\\1\\\\\\\\\\\\\\\\'))",
        ),
    }
}

// Characters of a text by their numbers: SQLite and ClickHouse do not take numbers below 1 for what they are.
fn span(dialect: Dialect) -> Form
    ensures { form_of result ≡ span dialect }
{
    match dialect {
        Dialect::Sqlite => value_of(
            "(SELECT substr(s, min(max(f, 1), 2147483647), min(max(k - 1 + min(f, 1), 0), 2147483647)) FROM (SELECT ",
            " AS s, ",
            " AS f, ",
            " AS k))",
        ),
        Dialect::Postgres => value_of(
            "substr(",
            ", CAST(",
            " AS int), CAST(greatest(",
            ", 0) AS int))",
        ),
        Dialect::ClickHouse => value_of(
            "arrayMap((s, f, k) -> substringUTF8(s, greatest(f, 1), greatest(greatest(k, 0) + (least(greatest(f, -9223372036854775807), 1) - 1), 0)), [",
            "], [",
            "], [",
            "])[1]",
        ),
    }
}

/// How a call of the function is written. Of a name that is no function's, the operands stand alone.
pub fn call_form(dialect: Dialect, function: Option<StandardFunction>) -> Form
    ensures { form_of result ≡ call_form dialect function }
{
    let Some(function) = function else {
        return value_of("", "", "", "");
    };
    match function {
        StandardFunction::Add => value_of("(", " + ", "", ")"),
        StandardFunction::Sub => value_of("(", " - ", "", ")"),
        StandardFunction::Mul => value_of("(", " * ", "", ")"),
        StandardFunction::Neg => value_of("(- ", "", "", ")"),
        StandardFunction::Div => division(dialect),
        StandardFunction::Mod => value_of("(", " % ", "", ")"),
        StandardFunction::Eq => test_of("", " = ", ""),
        StandardFunction::Ne => test_of("", " <> ", ""),
        StandardFunction::Lt => test_of("", " < ", ""),
        StandardFunction::Le => test_of("", " <= ", ""),
        StandardFunction::Gt => test_of("", " > ", ""),
        StandardFunction::Ge => test_of("", " >= ", ""),
        StandardFunction::And => test_of("", " <> 0 AND ", " <> 0"),
        StandardFunction::Or => test_of("", " <> 0 OR ", " <> 0"),
        StandardFunction::Not => test_of("", "", " = 0"),
        StandardFunction::Length => length_form(dialect),
        StandardFunction::Lower => value_of("lower(", "", "", ")"),
        StandardFunction::Upper => value_of("upper(", "", "", ")"),
        StandardFunction::Concat => concatenation(dialect),
        StandardFunction::StartsWith => front(dialect),
        StandardFunction::Contains => inner_part(dialect),
        StandardFunction::Like => likeness(dialect),
        StandardFunction::Substring => span(dialect),
        StandardFunction::If => value_of("CASE WHEN ", " <> 0 THEN ", " ELSE ", " END"),
    }
}

impl Form {
    ghost use Rattle.std.specs.Prelude.{◌≡◌};
    ghost use Rattle.vx_check_sql.specs.Functions.{before};
    ghost use Rattle.vx_check_sql.specs.FunctionsView.{form_of};

    /// What stands before the operand with this number.
    pub fn before(self, number: usize) -> &'static str
        ensures { result.now ≡ before (form_of self) number }
    {
        match number {
            1 => self.second,
            2 => self.third,
            _ => "",
        }
    }
}

fn truth_sql(dialect: Dialect) -> &'static str
    ensures { result.now ≡ truth_sql dialect }
{
    match dialect {
        Dialect::Sqlite => " THEN 1 ELSE 0 END",
        Dialect::Postgres => " THEN CAST(1 AS bigint) ELSE CAST(0 AS bigint) END",
        Dialect::ClickHouse => " THEN toInt64(1) ELSE toInt64(0) END",
    }
}

// Whether the answer may leave 64 bits, or is of a division.
fn overflows(function: Option<StandardFunction>) -> bool
    ensures { result ≡ overflows function }
{
    matches!(
        function,
        Some(
            StandardFunction::Add
                | StandardFunction::Sub
                | StandardFunction::Mul
                | StandardFunction::Neg
                | StandardFunction::Div
                | StandardFunction::Mod
        )
    )
}

/// Whether its operands are to be tested, since its answer does not show that one of them has left 64 bits.
pub fn tests_operands(function: Option<StandardFunction>) -> bool
    ensures { result ≡ tests_operands function }
{
    !matches!(
        function,
        Some(
            StandardFunction::Add
                | StandardFunction::Sub
                | StandardFunction::Mul
                | StandardFunction::Neg
                | StandardFunction::Div
        )
    )
}

/// Whether a call is written with a test of its answer: in SQLite, which has no error where a number leaves 64 bits.
pub fn is_tested(dialect: Dialect, asks: bool, function: Option<StandardFunction>) -> bool
    ensures { result ≡ is_tested dialect asks function }
{
    match dialect {
        Dialect::Sqlite => asks && overflows(function),
        Dialect::Postgres | Dialect::ClickHouse => false,
    }
}

// What stands before a call whose answer is tested.
fn test_before(tests: bool) -> &'static str
    ensures { result.now ≡ test_before tests }
{
    if tests {
        "(SELECT CASE typeof(v) WHEN 'integer' THEN v ELSE abs(-9223372036854775807 - 1 + 0 * length(typeof(v))) END FROM (SELECT "
    } else {
        ""
    }
}

// What stands before a test, of which 1 or 0 is made.
fn case_before(is_test: bool) -> &'static str
    ensures { result.now ≡ case_before is_test }
{
    if is_test { "CASE WHEN " } else { "" }
}

/// Adds what stands before the operands of a call.
pub fn push_opening(text: &mut String, tests: bool, form: Form) -> Result<(), AllocError>
    ensures { OnOk result (string_bytes text.new ≡ string_bytes text.old ++ opening_sql tests (form_of form)) }
{
    text.push_str(test_before(tests))?;
    text.push_str(case_before(form.is_test))?;
    text.push_str(form.opening)
}

/// Adds what stands behind the operands of a call.
pub fn push_closing(
    text: &mut String,
    dialect: Dialect,
    tests: bool,
    form: Form,
) -> Result<(), AllocError>
    ensures { OnOk result (string_bytes text.new ≡ string_bytes text.old ++ closing_sql dialect tests (form_of form)) }
{
    text.push_str(form.closing)?;
    if form.is_test {
        text.push_str(truth_sql(dialect))?;
    }
    if tests {
        text.push_str(" AS v))")?;
    }
    Ok(())
}
