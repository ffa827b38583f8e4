//! The laws of the rows that a run has given where some workers ended by a fault: each is the contract of a function with an empty body.

ghost use Rattle.vx_exec_laws.specs.CutRows.{OneWorkerAgrees, RowsSoFarAgree};

/// Two rows that workers of a node have given so far agree in what the columns determine in which they agree, and are one row
/// where they agree on a claimed key.
pub fn rows_so_far_agree()
    ensures { RowsSoFarAgree }
{}

/// And so the rows of one worker follow the rules of orders, keys and totals.
pub fn rows_of_one_worker_agree()
    ensures { OneWorkerAgrees }
{}
