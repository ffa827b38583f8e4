//! What equal and fixed columns say holds of each row, whatever the operators.

ghost use Rattle.vx_plan_facts.specs.RowFacts.{TypedInputsFit, ScanMeets, UnaryMeets, BinaryMeets, ExchangeMeets, SerialMeets};
ghost use Rattle.vx_plan_facts.specs.UnderLaws.{FactsStay};

/// In a typed plan the inputs of unions are equally wide, and joins compare columns that their left inputs have.
pub fn typed_inputs_fit()
    ensures { TypedInputsFit }
{}

/// Rows that a scan reads meet its facts.
pub fn scan_meets()
    ensures { ScanMeets }
{}

/// What an operator makes of rows that meet its input's facts meets its own.
pub fn unary_meets()
    ensures { UnaryMeets }
{}

/// What an operator makes of rows of both inputs meets its facts.
pub fn binary_meets()
    ensures { BinaryMeets }
{}

/// What an exchange passes on meets its facts.
pub fn exchange_meets()
    ensures { ExchangeMeets }
{}

/// Each serial row of a plan meets the facts of its top node.
pub fn serial_meets()
    ensures { SerialMeets }
{}

/// Whatever functions a plan has, the same is known of its columns.
pub fn facts_stay()
    ensures { FactsStay }
{}
