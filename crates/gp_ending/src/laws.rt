//! Laws of the rounds that a run begins, of work phases that end quietly, and of how a run ends.
//! Each function does nothing, and its contract is the law.
ghost use Rattle.std.specs.Prelude.{◌<◌, List, ◌≡◌, ℕ, true, None, length, slice_index_or, Option, Some};
ghost use Rattle.std.specs.List.{All};
ghost use Rattle.gp_work.specs.Doing.{ProcessState};
ghost use Rattle.gp_phase.specs.declared.caller.Call.{Call};
ghost use Rattle.gp_caller.specs.declared.policy.TheConstants.{FIRST_FAST_ROUND, FIRST_ROUND};
ghost use Rattle.gp_caller.specs.Adapting.{IsAdapted};
ghost use Rattle.gp_caller.specs.Calling.{IsCalled};
ghost use Rattle.gp_ending.specs.Adapting.{BeginsInCourse};
ghost use Rattle.gp_ending.specs.Begins.{HasFollowed, OpensWithoutMessage, BeginsFirst, BeginsInTurn, leader};
ghost use Rattle.gp_msg.specs.declared.record.Record.{Record};
ghost use Rattle.gp_wire.specs.Known.{WireState, records};
ghost use Rattle.gp_cell.specs.declared.rules.PaxosRules.{PaxosRules};
ghost use Rattle.gp_wire.specs.Own.{own_events};
ghost use Rattle.gp_work.specs.declared.job.Job.{Job};
ghost use Rattle.gp_cell.specs.Cores.{opening, part_in};
ghost use Rattle.gp_cell.specs.Cells.{CellState, Keeps};
ghost use Rattle.gp_cell.specs.Working.{process_of};
ghost use Rattle.gp_phase.specs.Deeds.{others_in, begins};
ghost use Rattle.gp_phase.specs.Phases.{rounds};
ghost use Rattle.gp_ending.specs.Quiet.{IsQuietRun, IsAdaptiveRun};
ghost use Rattle.gp_ending.specs.Ended.{is_proposer, IsSteady, EndedRun, AreOffersMade, EndsQuietly, StaysSteady, IsListOf, IsClosedList};
ghost use Rattle.gp_work.specs.declared.faults.JobFault.{JobFault};
ghost use Rattle.gp_ending.specs.declared.ends.RunEnd.{RunEnd};
ghost use Rattle.gp_ending.specs.Ends.{Decides, deciding};

use gp_edge::Disk;

/// A leader that followed its calls begins only these rounds: the first round of an epoch, and the
/// round that answers a collision in the first, only after two incompatible values of the first. It
/// begins each at most once in an epoch, and no other coordinator begins a round. In its last epoch
/// it has begun the first round, and the other one exactly if two values of the first are
/// incompatible.
pub fn a_leader_that_followed_its_calls_begins_in_turn()
    ensures { (p : ProcessState) (calls : List Call) → HasFollowed IsCalled p calls → 0 < p.config.acceptors → BeginsInTurn p.config p.list }
{}

/// A leader that followed its calls, and whose first event takes no message, begins the first round
/// before all else.
pub fn a_leader_begins_with_the_first_round()
    ensures { (p : ProcessState) (calls : List Call) → HasFollowed IsCalled p calls → OpensWithoutMessage p.list → BeginsFirst p.list FIRST_ROUND }
{}

/// If the leader followed the calls of a caller that adapts, the first round that it begins in an
/// epoch is the fast round with count 1. It begins a multi round only after a fast round that has
/// collided, a single round only after a multi round that has collided, and a later fast round only
/// after a round that is not fast. No other coordinator begins a round. After the run, the last
/// round of the leader's epoch has not collided, unless it has the last count.
pub fn a_leader_that_adapts_begins_in_course()
    ensures { (p : ProcessState) (calls : List Call) → HasFollowed IsAdapted p calls → 0 < p.config.acceptors → BeginsInCourse p.config p.list }
{}

/// A leader that followed the calls of a caller that adapts, and whose first event takes no
/// message, begins the first fast round before all else.
pub fn a_leader_that_adapts_begins_with_the_first_fast_round()
    ensures { (p : ProcessState) (calls : List Call) → HasFollowed IsAdapted p calls → OpensWithoutMessage p.list → BeginsFirst p.list FIRST_FAST_ROUND }
{}

/// If work phases end quietly, each node that works has seen the whole list. If also no disk's
/// count of faults rose, the list is a quiet run, the leader has begun exactly the rounds that were
/// called, and each proposer has made exactly its offers, in their order.
///
/// The list is any legal one that begins with what each cell has seen, followed by no more records
/// of the cell's node.
pub fn phases_that_end_quietly_leave_a_quiet_run<D: Disk>()
    ensures quiet { (wire : WireState PaxosRules) (run : EndedRun D) (list : List Record) → EndsQuietly IsCalled D.content D.faults wire run → IsListOf wire run list
        → StaysSteady D.faults run → IsQuietRun wire.rules.config list }
    ensures seen { (wire : WireState PaxosRules) (run : EndedRun D) (list : List Record) → EndsQuietly IsCalled D.content D.faults wire run → IsListOf wire run list
        → (i : ℕ) (d : Job (CellState D)) → i < length run.starting → records (slice_index_or run.ended i d).cell.pass ≡ list }
    ensures begun { (wire : WireState PaxosRules) (run : EndedRun D) (list : List Record) → EndsQuietly IsCalled D.content D.faults wire run → IsListOf wire run list
        → StaysSteady D.faults run → others_in (own_events leader list) ≡ begins leader (rounds run.calls) }
    ensures offered { (wire : WireState PaxosRules) (run : EndedRun D) (list : List Record) → EndsQuietly IsCalled D.content D.faults wire run → IsListOf wire run list
        → StaysSteady D.faults run → AreOffersMade run list }
{}

/// If work phases whose rounds adapt end quietly, and no disk's count of faults rose, the list is a
/// quiet run whose rounds adapt to collisions.
pub fn phases_that_adapt_leave_an_adaptive_run<D: Disk>()
    ensures { (wire : WireState PaxosRules) (run : EndedRun D) (list : List Record) → EndsQuietly IsAdapted D.content D.faults wire run → IsListOf wire run list
        → StaysSteady D.faults run → IsAdaptiveRun wire.rules.config list }
{}

/// The list with which a wire is closed after work phases that end quietly is legal, and begins
/// with what each cell has seen, followed by no more records of the cell's node, if each pass is
/// that of its cell's node.
pub fn a_closed_list_is_that_of_its_cells<D: Disk>()
    ensures { (wire : WireState PaxosRules) (run : EndedRun D) (list : List Record) → EndsQuietly IsCalled D.content D.faults wire run → IsClosedList wire run list → IsListOf wire run list }
{}

/// A proposer that is up has no log, so no disk of it has failed. The premise is what the contract
/// of `Cell::is_down` says of the log.
pub fn a_proposer_has_no_disk<D: Disk>()
    ensures { (j k : Job (CellState D)) → is_proposer k.cell.node ≡ true → (process_of D.faults k.cell).up ≡ true
        → (k.cell.down ≡ None → Keeps (part_in (opening k.cell.config k.cell.node)) (part_in k.cell.core) k.cell.log) → IsSteady D.faults j k }
{}

/// The end that decides is that of a fault: the first of those with the lowest rank. If none
/// decides, there is no fault.
pub fn the_first_of_the_lowest_rank_decides()
    ensures decides { (faults : List (Option JobFault)) (end : RunEnd) → deciding faults ≡ Some end → Decides faults end }
    ensures none { (faults : List (Option JobFault)) → deciding faults ≡ None → All (λ f. f ≡ None) faults }
{}
