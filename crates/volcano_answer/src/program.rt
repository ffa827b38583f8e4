//! The whole program but its `main`: from all input to all output.

ghost use Rattle.std.specs.Prelude.{◌≡◌, ◌≢◌, ◌<◌, ◌≤◌, ◌⊎◌, ◌||◌, ◌++◌, ℕ, List, [], Option, Some, None, true, false, map, string_bytes, is_err, IfSome, IfOk, IfErr, OnOk, IsErrOf};
ghost use Rattle.std.specs.Io.KnownBytes.{Appends};
ghost use Rattle.volcano_answer.specs.Answer.{IsAnswer, AsksForRun, RefusedWith, IsRefusedBy};
ghost use Rattle.vx_catalog.specs.Csv.{csv_text};
ghost use Rattle.volcano_refusals.specs.Status.{status_of};
ghost use Rattle.volcano_arguments.specs.Asked.{Ask, asked_by};
ghost use Rattle.volcano_stats.specs.Text.{write_end};
ghost use Rattle.volcano_stats.specs.declared.text.StatsForm.{StatsForm};
ghost use Rattle.volcano_answer.specs.Made.{text_in, IfRun, IsRunReport};
ghost use Rattle.volcano_answer.specs.PlansView.{named_is};
ghost use Rattle.volcano_answer.specs.Printing.{AreWritten, StopsAfter};
ghost use Rattle.volcano_answer.specs.Stats.{AsksForRuns, stats_asked, AreBundleStats, AreStatsOf};
ghost use Rattle.volcano_answer.specs.Reports.{annotates};
ghost use Rattle.volcano_answer.specs.CommandLine.{with_program_name, AnswersArguments, AsksFor, IsUsageError, AreRefusedBy, AsksForFailing, AsksForStopped};
ghost use Rattle.vx_wisconsin.specs.Wisconsin.{wisconsin, column_names};
ghost use Rattle.vx_rows_values.specs.Limits.{max_generated_rows};

use crate::bundle::answer_bytes;
use crate::command::CommandAnswer;
use crate::command_line::{ArgumentAnswer, ArgumentFault, answer_arguments};
use crate::files::input_bytes;
use crate::layouts::Layout;
use crate::pipe::Pipe;
use crate::places::{write_more, write_more_of_bundle};
use crate::printing::{PrintFault, print_runs, write_printed};
use crate::remarks::write_remark;
use crate::runs::LoadedPlans;
use crate::services::Services;
use crate::stats::CountedText;
use std::alloc::Global;
use std::sync::Wait;
use std::thread::Threads;
use std::time::Clock;
use volcano_locations::{Reasons, Replay};
use volcano_refusals::{Refusal, report, status};
use volcano_stats::{StatsForm, Stopwatch, write_end};
use vx_catalog_bytes::{Broken, ByteIn, ByteOut, Store, write_all};
use vx_catalog_writing::Text;
use vx_exec_runs::Runs;
use vx_wisconsin::{GenerateFault, generate};

/// What answers the bundle of which an input has the bytes that are left. The statistics of its run, if its command is one and they are
/// asked for, are those up to the time that the write takes.
pub fn outcome_of<T: Threads + Wait + Sync, R: Runs, C: Clock, I: ByteIn>(
    services: &Services<'_, T, R, C>,
    input: &mut I,
    form: Option<StatsForm>,
) -> Result<CommandAnswer, Refusal>
    ensures text { IfOk result (λ a. IfSome (I.remaining input.old) (λ bytes. IsAnswer services.now.layout bytes (text_in a))) }
    ensures run { IfOk result (IfRun (λ k. IfSome (I.remaining input.old) (λ bytes. AreBundleStats (R.counted services.now.engine.now) services.now.layout form bytes k.text.items (string_bytes k.stats)))) }
    ensures runs { IfSome (I.remaining input.old) (λ bytes. AsksForRun bytes → IfOk result IsRunReport) }
    ensures refused { IfErr result (λ e. RefusedWith (I.remaining input.old) (I.has_failed input.new) e) }
    ensures broken { I.has_failed input.new ≡ true → IsErrOf result Refusal.InputUnreadable }
{
    let bytes = input_bytes(services.alloc, input)?;
    answer_bytes(services, bytes.as_slice(), form)
}

// The text alone, with rows as CSV and without statistics.
fn text_outcome<T: Threads + Wait + Sync, R: Runs, C: Clock, I: ByteIn>(
    services: &Services<'_, T, R, C>,
    input: &mut I,
) -> Result<Text, Refusal>
    ensures text { IfOk result (λ text. IfSome (I.remaining input.old) (λ bytes. IsAnswer Layout.Csv bytes text.items)) }
    ensures refused { IfErr result (λ e. RefusedWith (I.remaining input.old) (I.has_failed input.new) e) }
    ensures broken { I.has_failed input.new ≡ true → IsErrOf result Refusal.InputUnreadable }
{
    match outcome_of(&services.with_layout(Layout::Csv), input, None) {
        Ok(answer) => Ok(answer.into_text()),
        Err(refusal) => Err(refusal),
    }
}

/// Reports a refusal on `err`. The status is that of the refusal.
pub fn refuse<E: ByteOut>(refusal: &Refusal, err: &mut E) -> u8
    ensures { result ≡ status_of refusal.now }
{
    report(refusal, err);
    status(refusal)
}

/// Reports a refusal of what arguments ask for on `err`, and below it where it was found, if they ask for that or a person reads it.
pub fn refuse_in_place<
    T: Threads + Wait + Sync,
    R: Runs,
    C: Clock,
    F: Store + Reasons,
    I: Replay,
    E: ByteOut,
>(
    services: &Services<'_, T, R, C>,
    arguments: &[&str],
    files: &F,
    input: &I,
    refusal: &Refusal,
    err: &mut E,
) -> u8
    ensures { result ≡ status_of refusal.now }
{
    let status = refuse(refusal, err);
    write_more(services, files, input, arguments, refusal, err);
    status
}

// The same of a bundle that came without arguments.
fn refuse_bundle<
    T: Threads + Wait + Sync,
    R: Runs,
    C: Clock,
    F: Store + Reasons,
    I: Replay,
    E: ByteOut,
>(services: &Services<'_, T, R, C>, files: &F, input: &I, refusal: &Refusal, err: &mut E) -> u8
    ensures { result ≡ status_of refusal.now }
{
    let status = refuse(refusal, err);
    write_more_of_bundle(services, files, input, refusal, err);
    status
}

// Reports on `err` that `out` failed, unless nobody reads it any more.
fn refuse_write<O: Pipe, E: ByteOut>(out: &O, err: &mut E) -> u8
    ensures status { result ≡ 4 }
    ensures silent { O.closed out.now ≡ true → err.new ≡ err.old }
{
    if out.is_closed() {
        return status(&Refusal::WriteFailed);
    }
    refuse(&Refusal::WriteFailed, err)
}

// Writes a text on `out`, or reports on `err` that this failed, unless nobody reads `out` any more.
fn write_text<O: ByteOut + Pipe, E: ByteOut>(text: &Text, out: &mut O, err: &mut E) -> u8
    ensures done { result ≡ 0 → Appends (O.contents out.old) (O.contents out.new) text.now.items }
    ensures failed { result ≢ 0 → (result ≡ 4) × (O.has_failed out.new ≡ true) }
    ensures quiet { result ≡ 0 → err.new ≡ err.old }
    ensures silent { result ≢ 0 → O.closed out.new ≡ true → err.new ≡ err.old }
{
    match text.write_to(out) {
        Ok(()) => 0,
        Err(_) => refuse_write(out, err),
    }
}

// Delivers what answers a bundle that came without arguments. Below a refusal `err` gets where it was found, if a person reads it.
fn deliver_bundle<
    T: Threads + Wait + Sync,
    R: Runs,
    C: Clock,
    F: Store + Reasons,
    I: Replay,
    O: ByteOut + Pipe,
    E: ByteOut,
>(
    services: &Services<'_, T, R, C>,
    files: &F,
    input: &I,
    outcome: Result<Text, Refusal>,
    out: &mut O,
    err: &mut E,
) -> u8
    ensures done { IfOk outcome (λ text. result ≡ 0 → Appends (O.contents out.old) (O.contents out.new) text.items) }
    ensures failed { IfOk outcome (λ _. result ≢ 0 → (result ≡ 4) × (O.has_failed out.new ≡ true)) }
    ensures refused { IfErr outcome (λ e. (result ≡ status_of e) × (out.new ≡ out.old)) }
    ensures silent { IfOk outcome (λ _. result ≢ 0 → O.closed out.new ≡ true → err.new ≡ err.old) }
{
    match outcome {
        Ok(text) => write_text(&text, out, err),
        Err(refusal) => refuse_bundle(services, files, input, &refusal, err),
    }
}

/// Answers the bundle on `input`: writes the answer on `out`, or reports on `err` why there is none.
pub fn reply<
    T: Threads + Wait + Sync,
    R: Runs,
    C: Clock,
    F: Store + Reasons,
    I: ByteIn + Replay,
    O: ByteOut + Pipe,
    E: ByteOut,
>(services: &Services<'_, T, R, C>, files: &F, input: &mut I, out: &mut O, err: &mut E) -> u8
    // Status 0 comes only for a bundle that has an answer, and then `out` got exactly that.
    ensures done { result ≡ 0 → IfSome (I.remaining input.old) (λ bytes. (text : List ℕ) × IsAnswer Layout.Csv bytes text × Appends (O.contents out.old) (O.contents out.new) text) }

    // Any other leaves `out` as it was, unless `out` failed.
    ensures kept { result ≢ 0 → O.has_failed out.new ≡ false → out.new ≡ out.old }
    ensures statuses { (result ≡ 0) ⊎ (result ≡ 3) ⊎ (result ≡ 4) }

    // Status 3 comes only for input that fails, is too long or is refused.
    ensures refused { result ≡ 3 → IsRefusedBy 3 (I.remaining input.old) (I.has_failed input.new) }
    ensures unread { I.has_failed input.new ≡ true → result ≡ 3 }

    // Status 4 comes only for a write that failed, or where the machine or the run failed.
    ensures failed { result ≡ 4 → (O.has_failed out.new ≡ true) ⊎ IsRefusedBy 4 (I.remaining input.old) (I.has_failed input.new) }

    // Where `out` fails because nobody reads it any more, nothing is reported.
    ensures silent { result ≢ 0 → O.has_failed out.old ≡ false → O.has_failed out.new ≡ true → O.closed out.new ≡ true → err.new ≡ err.old }
{
    let outcome = text_outcome(services, input);
    deliver_bundle(services, files, input, outcome, out, err)
}

// Writes the text of the relation with `rows` rows on `out` as it is made, or reports on `err` why not. All memory is taken
// before the first write.
fn write_relation<O: ByteOut + Pipe, E: ByteOut>(
    alloc: Global,
    rows: u64,
    out: &mut O,
    err: &mut E,
) -> u8
    ensures done { result ≡ 0 → (rows ≤ max_generated_rows) × Appends (O.contents out.old) (O.contents out.new) (csv_text column_names (wisconsin rows)) }
    ensures kept { result ≢ 0 → O.has_failed out.new ≡ false → out.new ≡ out.old }
    ensures statuses { (result ≡ 0) ⊎ (result ≡ 3) ⊎ (result ≡ 4) }
    ensures quiet { result ≡ 0 → err.new ≡ err.old }
    ensures large { (max_generated_rows < rows → result ≡ 3) × (result ≡ 3 → (max_generated_rows < rows) × (out.new ≡ out.old)) }
    ensures silent { result ≢ 0 → O.has_failed out.old ≡ false → O.has_failed out.new ≡ true → O.closed out.new ≡ true → err.new ≡ err.old }
{
    match generate(alloc, rows, out) {
        Ok(()) => 0,
        Err(GenerateFault::TooLarge) => refuse(&Refusal::TooLarge, err),
        Err(GenerateFault::WriteFailed) => refuse_write(out, err),
        Err(GenerateFault::NoMemory) => refuse(&Refusal::NoMemory, err),
    }
}

// Writes the lines of nodes that fail on `err`. A write that fails changes nothing else.
fn write_lines<E: ByteOut>(lines: &str, err: &mut E) -> u8
    ensures status { result ≡ 3 }
    ensures written { E.has_failed err.new ≡ false → Appends (E.contents err.old) (E.contents err.new) lines.now }
{
    let _ = write_all(err, lines.as_bytes());
    3
}

// Writes the statistics of runs on `err`, the time that the write of their rows took too.
fn write_stats<E: ByteOut>(
    counted: &CountedText,
    time: Option<u64>,
    err: &mut E,
) -> Result<(), Broken>
    ensures ok { OnOk result (Appends (E.contents err.old) (E.contents err.new) (string_bytes counted.now.opening ++ write_end counted.now.form time)) }
    ensures fails { E.has_failed err.new ≡ (E.has_failed err.old || is_err result) }
{
    write_all(err, counted.opening.as_bytes())?;
    write_end(err, counted.form, time)
}

// Writes the rows of runs on `out`, or reports on `err` that this failed. The statistics of the runs follow on `err`; a write of
// them that fails changes nothing else.
fn write_counted<C: Clock, O: ByteOut + Pipe, E: ByteOut>(
    clock: &C,
    counted: &CountedText,
    out: &mut O,
    err: &mut E,
) -> u8
    ensures done { result ≡ 0 → Appends (O.contents out.old) (O.contents out.new) counted.now.text.items }
    ensures failed { result ≢ 0 → (result ≡ 4) × (O.has_failed out.new ≡ true) }
    ensures stats { result ≡ 0 → E.has_failed err.new ≡ false
        → (time : Option ℕ) × Appends (E.contents err.old) (E.contents err.new) (string_bytes counted.now.opening ++ write_end counted.now.form time) }
    ensures silent { result ≢ 0 → O.closed out.new ≡ true → err.new ≡ err.old }
{
    let mut watch = Stopwatch::start(clock);
    match write_text(&counted.text, out, err) {
        0 => {
            let _ = write_stats(counted, watch.lap(clock), err);
            0
        }
        failed => failed,
    }
}

// Runs plans, and writes the answer of each on `out` once it is made, or reports on `err` why one has none, or that `out` failed, unless
// nobody reads it any more. The statistics of the runs follow on `err`; a write of them that fails changes nothing else.
fn write_runs<
    T: Threads + Wait + Sync,
    R: Runs,
    C: Clock,
    F: Store + Reasons,
    I: Replay,
    O: ByteOut + Pipe,
    E: ByteOut,
>(
    services: &Services<'_, T, R, C>,
    arguments: &[&str],
    files: &F,
    input: &I,
    loaded: &LoadedPlans,
    out: &mut O,
    err: &mut E,
) -> u8
    ensures done { result ≡ 0 → (stats : List ℕ) × AreWritten (R.counted services.now.engine.now) loaded.now.layout loaded.now.form loaded.now.database loaded.now.setting loaded.now.plans.items (O.contents out.old) (O.contents out.new) stats }
    ensures stats { result ≡ 0 → E.has_failed err.new ≡ false → (f : StatsForm) → loaded.now.form ≡ Some f → (stats : List ℕ) × (time : Option ℕ)
        × AreWritten (R.counted services.now.engine.now) loaded.now.layout loaded.now.form loaded.now.database loaded.now.setting loaded.now.plans.items (O.contents out.old) (O.contents out.new) stats
        × Appends (E.contents err.old) (E.contents err.new) (stats ++ string_bytes loaded.now.common ++ write_end f time) }
    ensures no_stats { result ≡ 0 → loaded.now.form ≡ None → err.new ≡ err.old }
    ensures statuses { (result ≡ 0) ⊎ (result ≡ 3) ⊎ (result ≡ 4) }
    ensures stopped { result ≢ 0 → ((result ≡ 4) × (O.has_failed out.new ≡ true))
        ⊎ ((e : Refusal) × (result ≡ status_of e) × StopsAfter loaded.now.layout loaded.now.database loaded.now.setting (map named_is loaded.now.plans.items) (O.contents out.old) (O.contents out.new) e) }
    ensures silent { result ≢ 0 → O.has_failed out.old ≡ false → O.has_failed out.new ≡ true → O.closed out.new ≡ true → err.new ≡ err.old }
{
    match print_runs(services, loaded, out) {
        Ok(printed) => {
            let _ = write_printed(loaded, &printed, err);
            0
        }
        Err(PrintFault::Refused(refusal)) => {
            refuse_in_place(services, arguments, files, input, &refusal, err)
        }
        Err(PrintFault::WriteFailed) => refuse_write(out, err),
    }
}

// Writes a text that answers arguments on `out`, and beside it on `err` what is to be said of it; or reports on `err` that this failed.
fn write_answer<F: Store, I: Replay, O: ByteOut + Pipe, E: ByteOut>(
    alloc: Global,
    arguments: &[&str],
    files: &F,
    input: &I,
    text: &Text,
    out: &mut O,
    err: &mut E,
) -> u8
    ensures done { result ≡ 0 → Appends (O.contents out.old) (O.contents out.new) text.now.items }
    ensures failed { result ≢ 0 → (result ≡ 4) × (O.has_failed out.new ≡ true) }
    ensures quiet { result ≡ 0 → annotates (asked_by (with_program_name (map (λ a. a.now) arguments.now))) ≡ false → err.new ≡ err.old }
    ensures silent { result ≢ 0 → O.closed out.new ≡ true → err.new ≡ err.old }
{
    match write_text(text, out, err) {
        0 => {
            write_remark(alloc, files, input, arguments, err);
            0
        }
        failed => failed,
    }
}

// Answers arguments: writes the answer on `out`, or reports on `err` why there is none.
fn reply_to_arguments<
    T: Threads + Wait + Sync,
    R: Runs,
    C: Clock,
    F: Store + Reasons,
    I: ByteIn + Replay,
    O: ByteOut + Pipe,
    E: ByteOut,
>(
    services: &Services<'_, T, R, C>,
    arguments: &[&str],
    files: &F,
    input: &mut I,
    out: &mut O,
    err: &mut E,
) -> u8
    ensures done { result ≡ 0 → (text : List ℕ) × AnswersArguments services.now.columns (F.holds files.now) (I.remaining input.old) (map (λ a. a.now) arguments.now) text × Appends (O.contents out.old) (O.contents out.new) text }
    ensures stats { result ≡ 0 → E.has_failed err.new ≡ false → (f : StatsForm) (ask : Ask) → AsksFor (map (λ a. a.now) arguments.now) ask → AsksForRuns (I.remaining input.old) ask → stats_asked (map (λ a. a.now) arguments.now) ≡ Some f
        → (text : List ℕ) × (stats : List ℕ) × AreStatsOf (R.counted services.now.engine.now) services.now.columns (F.holds files.now) (I.remaining input.old) f (map (λ a. a.now) arguments.now) text stats
        × Appends (O.contents out.old) (O.contents out.new) text × Appends (E.contents err.old) (E.contents err.new) stats }
    ensures no_stats { result ≡ 0 → stats_asked (map (λ a. a.now) arguments.now) ≡ None → annotates (asked_by (with_program_name (map (λ a. a.now) arguments.now))) ≡ false → err.new ≡ err.old }
    ensures kept { result ≢ 0 → O.has_failed out.new ≡ false → (out.new ≡ out.old)
        ⊎ ((text : List ℕ) × (e : Refusal) × AsksForStopped services.now.columns (F.holds files.now) (I.remaining input.old) (map (λ a. a.now) arguments.now) text e × (result ≡ status_of e) × Appends (O.contents out.old) (O.contents out.new) text) }
    ensures statuses { (result ≡ 0) ⊎ (result ≡ 2) ⊎ (result ≡ 3) ⊎ (result ≡ 4) }
    ensures usage { result ≡ 2 → IsUsageError (F.holds files.now) (I.remaining input.old) (map (λ a. a.now) arguments.now) × (out.new ≡ out.old) }
    ensures refused { result ≡ 3 → AreRefusedBy 3 (F.holds files.now) (F.is_reliable files.now) (I.remaining input.old) (I.has_failed input.new) (map (λ a. a.now) arguments.now)
        ⊎ ((lines : List ℕ) × AsksForFailing (F.holds files.now) (I.remaining input.old) (map (λ a. a.now) arguments.now) lines × (E.has_failed err.new ≡ false → Appends (E.contents err.old) (E.contents err.new) lines)) }
    ensures failed { result ≡ 4 → (O.has_failed out.new ≡ true) ⊎ AreRefusedBy 4 (F.holds files.now) (F.is_reliable files.now) (I.remaining input.old) (I.has_failed input.new) (map (λ a. a.now) arguments.now) }
    ensures silent { result ≢ 0 → O.has_failed out.old ≡ false → O.has_failed out.new ≡ true → O.closed out.new ≡ true → err.new ≡ err.old }
{
    match answer_arguments(services, files, input, arguments) {
        Ok(ArgumentAnswer::Text(text)) => {
            write_answer(services.alloc, arguments, files, input, &text, out, err)
        }
        Ok(ArgumentAnswer::Relation(rows)) => write_relation(services.alloc, rows, out, err),
        Ok(ArgumentAnswer::Counted(counted)) => write_counted(services.clock, &counted, out, err),
        Ok(ArgumentAnswer::Runs(loaded)) => {
            write_runs(services, arguments, files, input, &loaded, out, err)
        }
        Err(ArgumentFault::Refused(refusal)) => {
            refuse_in_place(services, arguments, files, input, &refusal, err)
        }
        Err(ArgumentFault::Failing(lines)) => write_lines(lines.as_str(), err),
        Err(ArgumentFault::Usage(text)) => {
            let _ = write_all(err, text.as_slice());
            2
        }
    }
}

/// Answers what the arguments ask for, which come without the program's name. Without arguments it answers the bundle on
/// `input`.
///
/// The status is 0 if `out` got the answer, 2 for wrong arguments, 3 for input that is refused, and 4 if the machine or
/// the run failed. All work ends before the first byte goes to `out`, but in two cases: the text of a relation as CSV is written as it is
/// made, once all memory for it is there; and of several plans each answer is written once it is made, after all plans were checked and all
/// tables loaded, so `out` gets the answers before the first plan that is refused. A refusal is
/// one line on `err`, below which others say where it was found, if the arguments or a terminal ask for it. A write of them that fails changes
/// nothing else. Where nobody reads `out` any more, that is no line.
///
/// Where the arguments ask for the statistics of runs, `err` gets those of the runs whose rows `out` got; where they ask for none,
/// status 0 leaves `err` as it was, unless they ask for a plan with the claims that follow: then it may get a line that says that the
/// total order which the plan claims does not follow.
///
/// Without arguments rows are CSV. With them they are in the layout that is asked for.
///
/// Nothing of this depends on the seed of `services`. What its clock says goes into statistics alone.
pub fn answer<
    T: Threads + Wait + Sync,
    R: Runs,
    C: Clock,
    F: Store + Reasons,
    I: ByteIn + Replay,
    O: ByteOut + Pipe,
    E: ByteOut,
>(
    services: &Services<'_, T, R, C>,
    arguments: &[&str],
    files: &F,
    input: &mut I,
    out: &mut O,
    err: &mut E,
) -> u8
    // Without arguments, status 0 comes only for a bundle that has an answer, and then `out` got exactly that.
    ensures done { arguments.now ≡ [] → result ≡ 0 → IfSome (I.remaining input.old) (λ bytes. (text : List ℕ) × IsAnswer Layout.Csv bytes text × Appends (O.contents out.old) (O.contents out.new) text) }
    ensures statuses { arguments.now ≡ [] → (result ≡ 0) ⊎ (result ≡ 3) ⊎ (result ≡ 4) }

    // Status 3 comes only for input that fails, is too long or is refused.
    ensures refused { arguments.now ≡ [] → result ≡ 3 → IsRefusedBy 3 (I.remaining input.old) (I.has_failed input.new) }
    ensures unread { arguments.now ≡ [] → I.has_failed input.new ≡ true → result ≡ 3 }

    // Status 4 comes only for a write that failed, or where the machine or the run failed.
    ensures failed { arguments.now ≡ [] → result ≡ 4 → (O.has_failed out.new ≡ true) ⊎ IsRefusedBy 4 (I.remaining input.old) (I.has_failed input.new) }

    // With arguments, status 0 comes only for what they ask for, answered, and then `out` got exactly that.
    ensures arguments_done { arguments.now ≢ [] → result ≡ 0 → (text : List ℕ) × AnswersArguments services.now.columns (F.holds files.now) (I.remaining input.old) (map (λ a. a.now) arguments.now) text × Appends (O.contents out.old) (O.contents out.new) text }
    ensures arguments_stats { arguments.now ≢ [] → result ≡ 0 → E.has_failed err.new ≡ false → (f : StatsForm) (ask : Ask) → AsksFor (map (λ a. a.now) arguments.now) ask → AsksForRuns (I.remaining input.old) ask
        → stats_asked (map (λ a. a.now) arguments.now) ≡ Some f → (text : List ℕ) × (stats : List ℕ) × AreStatsOf (R.counted services.now.engine.now) services.now.columns (F.holds files.now) (I.remaining input.old) f (map (λ a. a.now) arguments.now) text stats
        × Appends (O.contents out.old) (O.contents out.new) text × Appends (E.contents err.old) (E.contents err.new) stats }
    ensures arguments_no_stats { arguments.now ≢ [] → result ≡ 0 → stats_asked (map (λ a. a.now) arguments.now) ≡ None → annotates (asked_by (with_program_name (map (λ a. a.now) arguments.now))) ≡ false → err.new ≡ err.old }
    ensures arguments_statuses { arguments.now ≢ [] → (result ≡ 0) ⊎ (result ≡ 2) ⊎ (result ≡ 3) ⊎ (result ≡ 4) }

    // Status 2 comes only for arguments that are wrong, or whose file of statistics has none of their plan. Status 3 comes only for what they ask for, refused, or for a check of
    // all nodes of a plan of which some fail, and then `err` got a line for each of these and for no other, unless it failed.
    // Status 4 comes only for a write that failed, or where the machine or the run failed.
    ensures usage { arguments.now ≢ [] → result ≡ 2 → IsUsageError (F.holds files.now) (I.remaining input.old) (map (λ a. a.now) arguments.now) }
    ensures arguments_refused { arguments.now ≢ [] → result ≡ 3 → AreRefusedBy 3 (F.holds files.now) (F.is_reliable files.now) (I.remaining input.old) (I.has_failed input.new) (map (λ a. a.now) arguments.now)
        ⊎ ((lines : List ℕ) × AsksForFailing (F.holds files.now) (I.remaining input.old) (map (λ a. a.now) arguments.now) lines × (E.has_failed err.new ≡ false → Appends (E.contents err.old) (E.contents err.new) lines)) }
    ensures arguments_failed { arguments.now ≢ [] → result ≡ 4 → (O.has_failed out.new ≡ true) ⊎ AreRefusedBy 4 (F.holds files.now) (F.is_reliable files.now) (I.remaining input.old) (I.has_failed input.new) (map (λ a. a.now) arguments.now) }

    // Any status but 0 leaves `out` as it was, unless `out` failed; status 2 in any case. Runs of several plans alone may leave
    // there the answers of the plans before the one that is refused.
    ensures kept { arguments.now ≡ [] → result ≢ 0 → O.has_failed out.new ≡ false → out.new ≡ out.old }
    ensures arguments_kept { arguments.now ≢ [] → result ≢ 0 → O.has_failed out.new ≡ false → (out.new ≡ out.old)
        ⊎ ((text : List ℕ) × (e : Refusal) × AsksForStopped services.now.columns (F.holds files.now) (I.remaining input.old) (map (λ a. a.now) arguments.now) text e × (result ≡ status_of e) × Appends (O.contents out.old) (O.contents out.new) text) }
    ensures untouched { result ≡ 2 → out.new ≡ out.old }

    // Where `out` fails because nobody reads it any more, nothing is reported: the status alone says it.
    ensures silent { result ≢ 0 → O.has_failed out.old ≡ false → O.has_failed out.new ≡ true → O.closed out.new ≡ true → err.new ≡ err.old }
{
    if arguments.is_empty() {
        return reply(services, files, input, out, err);
    }
    reply_to_arguments(services, arguments, files, input, out, err)
}
