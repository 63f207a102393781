//! What the exit statuses of a run say. Each function does nothing, and its contract is the law.
ghost use Rattle.std.specs.Prelude.{◌≡◌, ◌≢◌, ◌⊎◌, List, [], ℕ, true, false, Option, None, Some, IfSome};
ghost use Rattle.gp_edge.specs.Faults.{Rose};
ghost use Rattle.gp_msg.specs.declared.record.Record.{Record};
ghost use Rattle.gp_round.specs.Counts.{Counts};
ghost use Rattle.gp_text.specs.declared.offers.Offers.{Offers};
ghost use Rattle.gp_cli.specs.declared.subcommand.Operations.{Operations};
ghost use Rattle.gp_cluster.specs.declared.policy.RoundPolicy.{RoundPolicy};
ghost use Rattle.gp_cli.specs.declared.subcommand.Subcommand.TheVariants.{Play, Sim, Drive, Log, Upgrade, Audit};
ghost use Rattle.gp_cli.specs.Subcommands.{named};
ghost use Rattle.gp_cli.specs.Outside.{Outside};
ghost use Rattle.gp_cli.specs.Causes.{IsCause, driven_config, disk_used};
ghost use Rattle.gp_cli.specs.ProgramRuns.{ProgramRun, EndsWith, ReadsWell, WritesWell, KeepsWell, NothingFails, IsNodesRun};
ghost use Rattle.gp_cli.specs.Serving.{Ends, HoldsScript, HoldsBadLine, PlaysWhole, StopsAtLine, PrintsDriven, PrintsSimulated};
ghost use Rattle.gp_cli.specs.LogRuns.{HoldsLog, HoldsRoomyLog, HoldsFullLog, HoldsNoLog, ShowsLog, ShowsTakenOn, HasNoSpace, IsBrokenAt};
ghost use Rattle.gp_cli.specs.AuditRuns.{HoldsPrinted, HoldsOther, HoldsRun, AuditsRun, RejectsInput};
ghost use Rattle.gp_cli.specs.NodesRuns.{HoldsOffers, HoldsBadOffers, HasRoomForNext, CommutesAsInTheScript, OffersAll, PrintsNodes, RefusesOffers, FillsLog, LosesLog, RunsNodes, AllReveal, DiskFailed};
ghost use Rattle.gp_cli.specs.Program.{Arguments, AreWords, IsProgramCause};

/// With status 0 of `play` and `bank` a script, of the key store for `play` and of accounts for
/// `bank`, was read to its end and played, and all that it prints was written, with no fault of the
/// source or the sink. With status 3 a line of such a script, of a script of `run`, `adapt` or
/// `views`, or of the input of `audit` was refused, and nothing was printed except the number of
/// the line and the reason. With status 5 of `play` and `bank`, too, the script was read to its
/// end.
pub fn a_script_was_played_or_refused()
    ensures played { (run : ProgramRun) (operations : Operations) → named run.words ≡ Some (Play operations)
        → run.status ≡ 0 → PlaysWhole operations run.before run.now run.trail }
    ensures refused { (run : ProgramRun) → run.status ≡ 3
        → StopsAtLine run.words run.before run.now run.status run.trail ⊎ RefusesOffers run.words run.before run.now run.status run.trail ⊎ RejectsInput run.words run.before run.now run.status run.trail }
    ensures read_to_end { (run : ProgramRun) (operations : Operations) → named run.words ≡ Some (Play operations)
        → (run.status ≡ 0) ⊎ (run.status ≡ 5) → IfSome run.now.source.bytes (λ rest. rest ≡ []) }
{}

/// If nothing fails and there is enough memory, a whole script of `play` or `bank` leads to status
/// 0, and one with a bad line to status 3.
pub fn a_script_has_its_status()
    ensures complete { (run : ProgramRun) (operations : Operations) → named run.words ≡ Some (Play operations)
        → HoldsScript operations run.before.source → ReadsWell run → WritesWell run → EndsWith 0 run }
    ensures refuses { (run : ProgramRun) (operations : Operations) → named run.words ≡ Some (Play operations)
        → HoldsBadLine operations run.before.source → ReadsWell run → EndsWith 3 run }
{}

/// With status 0 of `run`, `adapt` and `views` the script was read to its end, each proposer made
/// its own of the script's offers, in their order, and nothing else, and every learner holds every
/// offered command. The trace of all records and the report were written in full, and with `views`
/// also what the readers saw. Each disk of a node, if it reveals its content, holds a log that ends
/// with the durable part of the node. If no disk failed, the run ended when nothing was left to do,
/// and it was settled if and only if a learner then lacked an offered command.
///
/// If the script is right, nothing fails, there is enough memory, and no event that may come next
/// needs more bytes of a log than its limit leaves, the status is 0. If a line is refused and the
/// source does not fail, the status is 3, unless memory runs out. For every status there are no
/// records, or they are those of a run with the offers of the script; with `adapt`, nodes may have
/// ended before any offer was made. Unless the status is 1, 3 or 4, the script was read to its end.
pub fn nodes_run_until_all_is_learned()
    ensures ran { (run : ProgramRun) (policy : RoundPolicy) (limit : ℕ) (viewed : Option (List ℕ))
        → IsNodesRun policy limit viewed run → run.status ≡ 0 → PrintsNodes policy limit viewed run.before run.now run.trail }
    ensures complete { (run : ProgramRun) (policy : RoundPolicy) (limit : ℕ) (viewed : Option (List ℕ)) (offers : Offers) → IsNodesRun policy limit viewed run
        → HoldsOffers offers run.before.source → NothingFails run → HasRoomForNext offers.config limit run.trail → EndsWith 0 run }
    ensures refuses { (run : ProgramRun) (policy : RoundPolicy) (limit : ℕ) (viewed : Option (List ℕ))
        → IsNodesRun policy limit viewed run → HoldsBadOffers run.before.source → ReadsWell run → EndsWith 3 run }
    ensures offered { (run : ProgramRun) (policy : RoundPolicy) (limit : ℕ) (viewed : Option (List ℕ))
        → IsNodesRun policy limit viewed run → (run.trail ≡ []) ⊎ ((offers : Offers) × OffersAll policy run.before run.now run.trail offers) }
    ensures read_to_end { (run : ProgramRun) (policy : RoundPolicy) (limit : ℕ) (viewed : Option (List ℕ))
        → IsNodesRun policy limit viewed run → run.status ≢ 1 → run.status ≢ 3 → run.status ≢ 4 → IfSome run.now.source.bytes (λ rest. rest ≡ []) }
{}

/// If no two of the commands that a script of `run`, `adapt` or `views` offers conflict, then with
/// status 0 the key store of each learner has the state of a key store that ran the offers in the
/// order of the script, and it gave each command the same reply as that one.
pub fn commands_that_commute_run_as_in_the_script()
    ensures { (run : ProgramRun) (policy : RoundPolicy) (limit : ℕ) (viewed : Option (List ℕ))
        → IsNodesRun policy limit viewed run → run.status ≡ 0 → CommutesAsInTheScript policy run.before run.now run.trail }
{}

/// If the sink does not fail, `drive` and `sim` end with status 0, unless memory runs out. With
/// status 0 the records are those of the driven run, or of the settled workload, and the complete
/// report, or the complete summary, was written.
pub fn a_run_without_input_is_printed()
    ensures driven { (run : ProgramRun) (a l n : ℕ) → named run.words ≡ Some (Drive a l n)
        → run.status ≡ 0 → PrintsDriven (driven_config a l) n run.before run.now run.trail }
    ensures simulated { (run : ProgramRun) (seed n : ℕ) → named run.words ≡ Some (Sim seed n)
        → run.status ≡ 0 → PrintsSimulated seed n run.before run.now run.trail }
    ensures drive_complete { (run : ProgramRun) (a l n : ℕ) → named run.words ≡ Some (Drive a l n) → WritesWell run → EndsWith 0 run }
    ensures sim_complete { (run : ProgramRun) (seed n : ℕ) → named run.words ≡ Some (Sim seed n) → WritesWell run → EndsWith 0 run }
{}

/// With status 0 of `audit` the input was read to its end, and it is what a run prints: the lines
/// of a trace, which is a legal run, a line `--`, and the lines of the report of this run. The
/// records are this run, and a certificate for each command that its learners hold was written.
/// With status 5 of `audit`, too, the input was read to its end.
///
/// If nothing fails and there is enough memory, such an input leads to status 0. So does what `run`
/// or `adapt` prints, if its trace is within the limits of a script. Every other input leads to
/// status 3.
pub fn what_a_run_printed_is_upheld()
    ensures upheld { (run : ProgramRun) → named run.words ≡ Some Audit → run.status ≡ 0 → AuditsRun run.before run.now run.trail }
    ensures complete { (run : ProgramRun) → named run.words ≡ Some Audit
        → HoldsPrinted run.before.source → ReadsWell run → WritesWell run → EndsWith 0 run }
    ensures of_run { (run : ProgramRun) (config : Counts) (list : List Record) → named run.words ≡ Some Audit
        → HoldsRun config list run.before.source → ReadsWell run → WritesWell run → EndsWith 0 run }
    ensures refuses { (run : ProgramRun) → named run.words ≡ Some Audit → HoldsOther run.before.source → ReadsWell run → EndsWith 3 run }
    ensures read_to_end { (run : ProgramRun) → named run.words ≡ Some Audit
        → (run.status ≡ 0) ⊎ (run.status ≡ 5) → IfSome run.now.source.bytes (λ rest. rest ≡ []) }
{}

/// With status 0 `log` has printed the log that its disk holds, and `upgrade` the log that its disk
/// then holds: if an entry was of version 1, this is the last entry alone, in version 2. If the
/// disk holds a log and nothing fails, `log` ends with status 0, unless memory runs out. So does
/// `upgrade`, if a log with entries of version 1 has room for its last entry.
pub fn a_log_is_shown()
    ensures shown { (run : ProgramRun) (k : ℕ) → named run.words ≡ Some (Log k) → run.status ≡ 0 → ShowsLog k run.before run.now }
    ensures taken_on { (run : ProgramRun) (k : ℕ) → named run.words ≡ Some (Upgrade k) → run.status ≡ 0 → ShowsTakenOn k run.before run.now }
    ensures log_complete { (run : ProgramRun) (k : ℕ) → named run.words ≡ Some (Log k)
        → HoldsLog k run.before → KeepsWell k run → WritesWell run → EndsWith 0 run }
    ensures upgrade_complete { (run : ProgramRun) (k : ℕ) → named run.words ≡ Some (Upgrade k)
        → HoldsRoomyLog k run.before → KeepsWell k run → WritesWell run → EndsWith 0 run }
{}

/// Status 7 of `upgrade` means that a log with entries of version 1 has no room for its last entry.
/// Status 8 of `log` and `upgrade` means that the bytes of the disk are not a log. Such a log and
/// such bytes lead to no other status there, unless the disk fails or memory runs out. Status 7 of
/// `run`, `adapt` and `views` means that an event may come next whose durable part needs more bytes
/// than the limit leaves beside a log without entries. Status 8 of these three means that a disk
/// failed that does not reveal what it holds; the printed line says that its bytes are not a log, or
/// not the log that was written. So over disks that reveal what they hold these three never end with
/// status 8.
pub fn a_log_was_full_or_broken()
    ensures full { (run : ProgramRun) → run.status ≡ 7
        → HasNoSpace run.words run.before run.now run.status ⊎ FillsLog run.words run.before run.now run.status run.trail }
    ensures broken { (run : ProgramRun) → run.status ≡ 8
        → IsBrokenAt run.words run.before run.now run.status ⊎ LosesLog run.words run.before run.now run.status run.trail }
    ensures kept { (run : ProgramRun) → RunsNodes run.words → AllReveal run.now.disks → run.status ≢ 8 }
    ensures no_room { (run : ProgramRun) (k : ℕ) → named run.words ≡ Some (Upgrade k) → HoldsFullLog k run.before → KeepsWell k run → EndsWith 7 run }
    ensures no_log { (run : ProgramRun) (k : ℕ) → disk_used (named run.words) ≡ Some k → HoldsNoLog k run.before → KeepsWell k run → EndsWith 8 run }
{}

/// Status 2 means that the words name no subcommand. Such words lead to no other status, unless
/// memory runs out.
pub fn the_usage_is_for_words_that_name_nothing()
    ensures misused { (run : ProgramRun) → run.status ≡ 2 → named run.words ≡ None }
    ensures usage { (run : ProgramRun) → named run.words ≡ None → EndsWith 2 run }
{}

/// Status 4 comes only if the source failed, and status 5 only if the sink failed. Status 6 comes
/// only if the disk of `log` or `upgrade` failed, or some disk with `run`, `adapt` or `views`.
pub fn a_fault_was_counted()
    ensures unread { (run : ProgramRun) → run.status ≡ 4 → Rose run.before.source.faults run.now.source.faults }
    ensures unwritten { (run : ProgramRun) → run.status ≡ 5 → Rose run.before.sink.faults run.now.sink.faults }
    ensures disk_failed { (run : ProgramRun) → run.status ≡ 6 → DiskFailed (named run.words) run.before run.now }
{}

/// If there was memory for the disks, the program ends as the words after its name say. It ends
/// with status 1 if there was no memory for the disks, and also if the environment gave no
/// arguments for a reason other than an argument that is not text.
pub fn a_program_ends_as_its_words_lead_to()
    ensures words { (given : Arguments) (words : List (List ℕ)) (before now : Outside) (status : ℕ) (trail : List Record) → Ends (IsProgramCause given true) before now status trail
        → AreWords given words → Ends (IsCause words) before now status trail }
    ensures none { (given : Arguments) (before now : Outside) (status : ℕ) (trail : List Record) → Ends (IsProgramCause given true) before now status trail
        → ((words : List (List ℕ)) → ¬ AreWords given words) → status ≡ 1 }
    ensures no_disks { (given : Arguments) (before now : Outside) (status : ℕ) (trail : List Record) → Ends (IsProgramCause given false) before now status trail
        → status ≡ 1 }
{}
