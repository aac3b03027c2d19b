//! The command that the words of a command line select.

ghost use Rattle.std.specs.Prelude.{◌≡◌, ◌≢◌, ◌⊎◌, ◌<◌, ◌≤◌, ℕ, IfErr, IfOk, List, MatchResult, Some, length, map, string_bytes};
ghost use Rattle.crsm_base.specs.Limits.{most_log_bytes};
ghost use Rattle.crsm_spec.specs.Calm.{IsBounded};
ghost use Rattle.crsm_spec.specs.Run.{last_world};
ghost use Rattle.crsm_spec.specs.Safe.{Agreed, Answered, RealTime};
ghost use Rattle.crsm_spec.specs.Decided.{DecisionsAgree};
ghost use Rattle.crsm_spec.specs.Durable.{KeepsAnswered};
ghost use Rattle.crsm_delay.specs.Reading.{plans_of};
ghost use Rattle.crsm_delay.specs.declared.handling.Wanted.{Wanted};
ghost use Rattle.crsm_port_lines.specs.Exact.{Exact as IsDecided};
ghost use Rattle.crsm_law_restarts.specs.Laws.{RunsMakeHistories};
ghost use Rattle.crsm_law_timing.specs.Commits.{CommandsCommitInTime, TimelinesArePossible};
ghost use Rattle.crsm_node.specs.Running.{devices_of as devices_of_node};
ghost use Rattle.crsm_world.specs.Schedule.{Schedule, IsSchedule, ShowsAll, acts_of};
ghost use Rattle.crsm_text_words.specs.Plans.{plan_of};
ghost use Rattle.crsm_app.specs.Devices.{devices_of};
ghost use Rattle.crsm_app.specs.Exact.{Exactly};
ghost use Rattle.crsm_app.specs.Run.{AskForNothing, AskForTask, FaultsAreCounted, Ran, WhereAsked};
ghost use Rattle.crsm_app.specs.Tasks.{IsLogReader, IsOverPort, IsReader, IsRunner, TakesInput};

use crate::doing::do_order;
use crate::status::Status;
use crsm_audit::audits_are_exact;
use crsm_clock::Clock;
use crsm_delay::plans_are_exact;
use crsm_disk::Disk;
use crsm_io::{Sink, Source};
use crsm_law_restarts::runs_make_histories;
use crsm_law_rounds::rounds_are_bounded;
use crsm_law_runs::{answered_are_kept, decisions_always_agree, runs_are_safe};
use crsm_law_timing::{commands_commit_in_time, timelines_are_possible};
use crsm_node::Reporter;
use crsm_port::Port;
use crsm_port_lines::MAX_INPUT_BYTES;
use crsm_text_words::{DevicePlan, WordsError, read_words};
use std::alloc::Global;

/// Returns the real devices that the words need. `Usage` if the words are not those of a command, `NoMemory` if memory
/// runs out.
pub fn plan(alloc: Global, words: &[String]) -> Result<DevicePlan, Status>
    ensures planned { IfOk result (λ plan. AskForTask (λ task. plan ≡ plan_of task) (map string_bytes words.now)) }
    ensures refused { IfErr result (λ status. (status ≡ Status.NoMemory) ⊎ ((status ≡ Status.Usage) × AskForNothing (map string_bytes words.now))) }
    ensures asked { WhereAsked (map string_bytes words.now) (λ order. MatchResult result (λ plan. plan ≡ plan_of order.task) (λ status. status ≡ Status.NoMemory)) }
{
    match read_words(alloc, words) {
        Ok(order) => Ok(order.task.plan()),
        Err(WordsError::Usage) => Err(Status::Usage),
        Err(WordsError::NoMemory) => Err(Status::NoMemory),
    }
}

/// States the laws of every schedule that is run, whatever its acts. It runs no code.
fn schedules_are_safe()
    ensures shows { (s : Schedule) → ShowsAll s }
    ensures agreement { (s : Schedule) → IsSchedule s → Agreed s.replicas (acts_of s) }
    ensures answers { (s : Schedule) → IsSchedule s → Answered s.replicas (acts_of s) }
    ensures real_time { (s : Schedule) → IsSchedule s → RealTime s.replicas (acts_of s) }
    ensures durable { (s : Schedule) → IsSchedule s → KeepsAnswered s.replicas (acts_of s) }
    ensures decisions { (s : Schedule) → IsSchedule s → DecisionsAgree s.replicas (acts_of s) }
    ensures bounded { (s : Schedule) → IsSchedule s → IsBounded (last_world s.replicas (acts_of s)) }
{
    runs_are_safe();
    answered_are_kept();
    decisions_always_agree();
    rounds_are_bounded();
}

/// States the law of every plan of delays and clocks. It runs no code.
fn plans_are_in_time()
    ensures exact { (wanted : Wanted) → IsDecided (plans_of wanted) }
    ensures possible { TimelinesArePossible }
    ensures moments { CommandsCommitInTime }
{
    plans_are_exact();
    timelines_are_possible();
    commands_commit_in_time();
}

/// Executes the command in the words, and returns the status: `replay` reads a schedule and writes its transcript,
/// `replay-mp` does so for a store with a leader, `replay-node ME N` reads the sheet of a replica and writes its
/// output, `soak NUMBER N STEPS` runs events generated from a number and writes a summary, `node ME N TURNS PEERS` runs
/// a replica and writes its sheet, `client TO TURNS CLIENT NUMBER OP` requests a command from a replica over the port
/// and writes its outcome, `operate TO MEMBERS` requests a membership change, `lock TO TURNS CLIENT NUMBER KEY ACTION`
/// requests an action on a lock and writes the result, `audit N` reads the sheets of several nodes and writes the
/// verdict, `dump ME N` reads the log file of a replica and writes what it says, `delay` reads a plan of delays and clocks and writes the schedule of its timeline, `delay times` writes
/// when its command commits, and `--help` and `--version` write a text. The reporter receives the content of a node's
/// log.
pub fn run<I: Source, O: Sink, P: Port, D: Disk, C: Clock, R: Reporter>(
    alloc: Global,
    words: &[String],
    input: &mut I,
    output: &mut O,
    port: &mut P,
    disk: &mut D,
    clock: &mut C,
    reporter: &mut R,
) -> Status
    // The bytes read, sent and written, by the words and by the status.
    ensures ran { let at = devices_of I.left I.faults O.written O.faults P.meaning D.meaning C.readings in
        Ran (map string_bytes words.now) result (at input.old output.old port.old disk.old clock.old) (at input.new output.new port.new disk.new clock.new) }

    // A fault is returned only if it was counted.
    ensures faults { let at = devices_of I.left I.faults O.written O.faults P.meaning D.meaning C.readings in
        FaultsAreCounted (map string_bytes words.now) result (at input.old output.old port.old disk.old clock.old) (at input.new output.new port.new disk.new clock.new) }

    // The words are refused only if they are not those of a command, and never if they are.
    ensures usage { result ≡ Status.Usage → AskForNothing (map string_bytes words.now) }
    ensures asked { WhereAsked (map string_bytes words.now) (λ order. result ≢ Status.Usage) }

    // If no fault was counted and memory sufficed, the command is done, except for an input with a bad line, which is
    // refused for the first one, or with more bytes than the limit, and for a replica whose reply was not received.
    ensures exactly { let at = devices_of I.left I.faults O.written O.faults P.meaning D.meaning C.readings in WhereAsked (map string_bytes words.now)
        (λ order. Exactly order.cluster order.task result (at input.old output.old port.old disk.old clock.old) (at input.new output.new port.new disk.new clock.new)) }

    // An input beyond the limit is never done, and one within it is never too long.
    ensures limit { WhereAsked (map string_bytes words.now) (λ order. IsReader order.task →
        (bytes : List ℕ) → I.left input.old ≡ Some bytes → MAX_INPUT_BYTES < length bytes → result ≢ Status.Ok) }
    ensures within { (bytes : List ℕ) → I.left input.old ≡ Some bytes → length bytes ≤ MAX_INPUT_BYTES → result ≢ Status.InputTooLong }
    ensures log_limit { WhereAsked (map string_bytes words.now) (λ order. IsLogReader order.task →
        (bytes : List ℕ) → I.left input.old ≡ Some bytes → most_log_bytes < length bytes → result ≢ Status.Ok) }
    ensures log_within { (bytes : List ℕ) → I.left input.old ≡ Some bytes → length bytes ≤ most_log_bytes → result ≢ Status.LogTooLong }

    // A device that the command does not use is unchanged.
    ensures input { ¬ (AskForTask TakesInput (map string_bytes words.now)) → input.new ≡ input.old }
    ensures port { ¬ (AskForTask IsOverPort (map string_bytes words.now)) → port.new ≡ port.old }
    ensures disk { ¬ (AskForTask IsRunner (map string_bytes words.now)) → disk.new ≡ disk.old }
    ensures clock { ¬ (AskForTask IsRunner (map string_bytes words.now)) → clock.new ≡ clock.old }

    // A transcript has all lines of the protocol's run, in order, and no other.
    ensures shows { (s : Schedule) → ShowsAll s }

    // In every schedule that is run all executed lists, at any moments, are prefixes of one list; each answer is the
    // sequential store's at its index in that list; a command submitted after an answer stands after the answered
    // command; an answered command is never lost; and decisions of one epoch are equal.
    ensures agreement { (s : Schedule) → IsSchedule s → Agreed s.replicas (acts_of s) }
    ensures answers { (s : Schedule) → IsSchedule s → Answered s.replicas (acts_of s) }
    ensures real_time { (s : Schedule) → IsSchedule s → RealTime s.replicas (acts_of s) }
    ensures durable { (s : Schedule) → IsSchedule s → KeepsAnswered s.replicas (acts_of s) }
    ensures decisions { (s : Schedule) → IsSchedule s → DecisionsAgree s.replicas (acts_of s) }

    // If a schedule has led to a calm state, two further calm rounds execute all that was submitted.
    ensures bounded { (s : Schedule) → IsSchedule s → IsBounded (last_world s.replicas (acts_of s)) }

    // The runs of nodes, each over a log file that the one before it may have left, are processes of which every history
    // is lawful, if nobody sends in a replica's name.
    ensures nodes { let at = devices_of_node D.meaning P.meaning C.readings O.written O.faults in
        RunsMakeHistories (λ (s : D × P × C × O). at s.0 s.1 s.2 s.3) }

    // The moments written of a plan are those of the protocol: each timeline of a plan is possible, and in it each
    // replica executes the command once, at its moment.
    ensures possible { TimelinesArePossible }
    ensures moments { CommandsCommitInTime }
{
    schedules_are_safe();
    plans_are_in_time();
    audits_are_exact();
    runs_make_histories::<P, D, C, O>();
    match read_words(alloc, words) {
        Ok(order) => do_order(alloc, order, input, output, port, disk, clock, reporter),
        Err(WordsError::Usage) => Status::Usage,
        Err(WordsError::NoMemory) => Status::NoMemory,
    }
}
