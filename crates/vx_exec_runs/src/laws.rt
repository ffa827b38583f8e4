//! The law of plans under other functions: what a setup comes to does not depend on them.

ghost use Rattle.vx_exec_runs.specs.UnderLaws.{SetupStays};

/// Whatever functions a plan has, a setup comes to the same sizes of its run, or to the same refusal.
pub fn setup_stays()
    ensures { SetupStays }
{}
