//! Laws of runs. Each function does nothing, and its contract is the law.
ghost use Rattle.std.specs.Prelude.{◌≡◌, ◌↔◌, ◌++◌, ◌≤◌, ℕ, List, [], ◌∷◌, true, false, None, length, map, max};
ghost use Rattle.gp_round.specs.Counts.{Counts};
ghost use Rattle.gp_msg.specs.declared.node.Node.TheVariants as Node;
ghost use Rattle.gp_msg.specs.declared.event.Event.{Event};
ghost use Rattle.gp_msg.specs.declared.message.Msg.{Msg};
ghost use Rattle.gp_msg.specs.declared.record.Record.{Record};
ghost use Rattle.gp_msg.specs.Messages.{Entry, entry_of, message_of};
ghost use Rattle.gp_msg.specs.Reads.{kind_of, reads};
ghost use Rattle.gp_coordinator.specs.Epochs as coordinator;
ghost use Rattle.gp_coordinator.specs.Epochs.{CoordinatorInEpoch};
ghost use Rattle.gp_acceptor.specs.Epochs as acceptor;
ghost use Rattle.gp_acceptor.specs.Epochs.{AcceptorInEpoch};
ghost use Rattle.gp_learner.specs.Epochs as learner;
ghost use Rattle.gp_learner.specs.Epochs.{LearnerInEpoch};
ghost use Rattle.gp_msg.specs.Nodes.{node_of};
ghost use Rattle.gp_run.specs.Messages.{messages};
ghost use Rattle.gp_msg.specs.Records.{messages_in};
ghost use Rattle.gp_run.specs.Legal.{fits, Legal, Follows};
ghost use Rattle.gp_run.specs.Refusals.{refusal};
ghost use Rattle.gp_run.specs.Runs.{run_onto, run_of, oldest_first, newest_first, AllFit, AreOfOthers};
ghost use Rattle.gp_run.specs.States.{proposer_at, coordinator_at, acceptor_at, learner_at};
ghost use Rattle.gp_run.specs.TopCount.{top_count, top_of_messages, top_of_coordinators};

/// An event has no cause of refusal if and only if it fits.
pub fn an_event_is_refused_exactly_if_it_does_not_fit()
    ensures { (config : Counts) (es : List Entry) (event : Event)
        → (refusal config es event ≡ None) ↔ (fits config es event ≡ true) }
{}

/// A legal run stays legal if events happen after it, each of which fits the entries before it.
pub fn a_run_of_events_that_fit_is_legal()
    ensures { (config : Counts) (es : List Entry) (events : List Event)
        → Legal config es → AllFit config es events → Legal config (run_onto config es events) }
{}

/// A legal run is the run of its events, and each of them fits the entries before it. So its events
/// determine it.
pub fn a_legal_run_is_that_of_its_events()
    ensures run { (config : Counts) (es : List Entry) → Legal config es → run_of config (oldest_first es) ≡ es }
    ensures fit { (config : Counts) (es : List Entry) → Legal config es → AllFit config [] (oldest_first es) }
{}

/// The run of two lists of events, one after the other, is the run of the second list after the run
/// of the first.
pub fn a_run_goes_on()
    ensures { (config : Counts) (es : List Entry) (first second : List Event)
        → run_onto config es (first ++ second) ≡ run_onto config (run_onto config es first) second }
{}

/// One more record adds one entry to the run of the records. The messages of that run are those of
/// the records, in their order.
pub fn records_make_a_run()
    ensures entry { (records : List Record) (last : Record)
        → newest_first (records ++ last ∷ []) ≡ entry_of last ∷ newest_first records }
    ensures same { (records : List Record) → messages (newest_first records) ≡ map message_of (messages_in records) }
{}

/// Later entries add their messages after the earlier ones, so message k stays message k.
pub fn messages_are_only_added()
    ensures { (later earlier : List Entry) → messages (later ++ earlier) ≡ messages earlier ++ messages later }
{}

/// A message of a kind that a node does not read does not change the node, and the node sends
/// nothing.
pub fn what_is_not_read_changes_nothing()
    ensures coordinators { (s : CoordinatorInEpoch) (c : ℕ) (m : Msg)
        → reads (Node.Coordinator c) (kind_of m) ≡ false → coordinator.take s (message_of m) ≡ (s, None) }
    ensures acceptors { (s : AcceptorInEpoch) (a : ℕ) (m : Msg)
        → reads (Node.Acceptor a) (kind_of m) ≡ false → acceptor.take s (message_of m) ≡ (s, None) }
    ensures learners { (s : LearnerInEpoch) (l : ℕ) (m : Msg)
        → reads (Node.Learner l) (kind_of m) ≡ false → learner.take s (message_of m) ≡ (s, None) }
{}

/// Entries of other nodes do not change the state of a node.
pub fn a_node_changes_by_its_own_events_alone()
    ensures proposers { (p : ℕ) (more es : List Entry)
        → AreOfOthers (Node.Proposer p) more → proposer_at p (more ++ es) ≡ proposer_at p es }
    ensures coordinators { (config : Counts) (c : ℕ) (more es : List Entry)
        → AreOfOthers (Node.Coordinator c) more → coordinator_at config c (more ++ es) ≡ coordinator_at config c es }
    ensures acceptors { (config : Counts) (a : ℕ) (more es : List Entry)
        → AreOfOthers (Node.Acceptor a) more → acceptor_at config a (more ++ es) ≡ acceptor_at config a es }
    ensures learners { (config : Counts) (l : ℕ) (more es : List Entry)
        → AreOfOthers (Node.Learner l) more → learner_at config l (more ++ es) ≡ learner_at config l es }
{}

/// An entry that may come next may still come next after more entries, if these are of other nodes.
pub fn an_entry_still_follows_after_those_of_other_nodes()
    ensures { (config : Counts) (more es : List Entry) (e : Entry)
        → Follows config es e → AreOfOthers (node_of e.event) more → Follows config (more ++ es) e }
{}

/// A proposer has had at most as many offers as there are entries.
pub fn offers_are_entries()
    ensures { (p : ℕ) (es : List Entry) → (proposer_at p es).offers ≤ length es }
{}

/// The greatest count of a round in a run is that of a round in a message or of the round of a
/// coordinator.
pub fn messages_and_coordinators_have_the_greatest_rounds()
    ensures { (config : Counts) (es : List Entry)
        → top_count config es ≡ max (top_of_messages (messages es)) (top_of_coordinators config es) }
{}
