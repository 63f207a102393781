//! Laws of the lines of a script. Each function is there for its contract, which is the law.
ghost use Rattle.std.specs.Prelude.{◌≡◌, ◌≤◌, ◌↔◌, ℕ, false, List, Some, Ok, Err, length};
ghost use Rattle.gp_round.specs.Counts.{Counts};
ghost use Rattle.gp_round.specs.Ranges.{AreInRange};
ghost use Rattle.gp_words.specs.Bytes.{Lacks};
ghost use Rattle.gp_words.specs.Lines.{is_line_feed};
ghost use Rattle.gp_words.specs.Tokens.{tokens_of, has_empty};
ghost use Rattle.gp_script.specs.declared.items.Item.{Item};
ghost use Rattle.gp_script.specs.declared.reason.Reason.{Reason};
ghost use Rattle.gp_script.specs.Broken.{BreaksLine, BreaksCounts};
ghost use Rattle.gp_script.specs.Forms.{Form, form_of};
ghost use Rattle.gp_script.specs.Items.{item_of, counts_of};
ghost use Rattle.gp_script.specs.Admitted.{IsAdmitted};
ghost use Rattle.gp_script.specs.Rows.{HasWords};
ghost use Rattle.gp_script.specs.Spelling.{item_line, longest_line, nodes_text, SaysItem, SaysCounts};

use gp_service::Service;

/// A line is one of the table exactly if it has the words of a row, and none of its words is empty.
pub fn a_line_has_the_words_of_its_row()
    ensures { (tokens : List (List ℕ)) (form : Form) → (form_of tokens ≡ Some form) ↔ ((has_empty tokens ≡ false) × HasWords form tokens) }
{}

/// What a line says to a service is valid in the configuration: its nodes are there, an offered
/// draft is that of an operation, a round that is begun or kept is its coordinator's own, and a
/// node crashes only as a node of its kind can.
pub fn what_a_line_says_is_admitted<S: Service>()
    ensures { (c : Counts) (form : Form) (item : Item) → item_of S.profile.language c form ≡ Ok item → IsAdmitted S.profile.language c item }
{}

/// A line of the table that is refused has a first token, from left to right, that breaks its rule,
/// and the line's reason is that of the rule. The rules are: a node of the configuration, of the
/// kind that the row wants; a number; a number in its range; a crash that a node of this kind can
/// have; the words of an operation.
pub fn a_refused_line_has_a_token_that_breaks_its_rule<S: Service>()
    ensures item { (c : Counts) (form : Form) (reason : Reason) → AreInRange c.acceptors c.coordinators c.learners
        → item_of S.profile.language c form ≡ Err reason → BreaksLine S.profile.language c form reason }
    ensures configuration { (form : Form) (reason : Reason) → counts_of form ≡ Err reason → BreaksCounts form reason }
{}

/// Each item that is valid in a configuration has a line that says it, and no other text says it.
/// So `item_of` reads what these lines say, and nothing else.
pub fn an_item_has_one_line<S: Service>()
    ensures read { (c : Counts) (item : Item) → AreInRange c.acceptors c.coordinators c.learners → IsAdmitted S.profile.language c item → SaysItem S.profile.language c (tokens_of (item_line item)) item }
    ensures only { (c : Counts) (text : List ℕ) (item : Item) → SaysItem S.profile.language c (tokens_of text) item → text ≡ item_line item }
{}

/// Each configuration has a line that says it, and no other text says it. No line says a
/// configuration that is out of range.
pub fn a_configuration_has_one_line()
    ensures read { (c : Counts) → AreInRange c.acceptors c.coordinators c.learners → SaysCounts (tokens_of (nodes_text c)) c }
    ensures only { (text : List ℕ) (c : Counts) → SaysCounts (tokens_of text) c → text ≡ nodes_text c }
    ensures range { (form : Form) (c : Counts) → counts_of form ≡ Ok c → AreInRange c.acceptors c.coordinators c.learners }
{}

/// A line that says an item or a configuration has no line feed. An offer has at most 71 bytes, a
/// line that says another item at most 33, and one that says a configuration at most 11.
pub fn lines_are_short<S: Service>()
    ensures item_feedless { (c : Counts) (item : Item) → AreInRange c.acceptors c.coordinators c.learners → IsAdmitted S.profile.language c item → Lacks is_line_feed (item_line item) }
    ensures item_short { (c : Counts) (item : Item) → AreInRange c.acceptors c.coordinators c.learners → IsAdmitted S.profile.language c item → length (item_line item) ≤ longest_line item }
    ensures nodes_feedless { (c : Counts) → AreInRange c.acceptors c.coordinators c.learners → Lacks is_line_feed (nodes_text c) }
    ensures nodes_short { (c : Counts) → AreInRange c.acceptors c.coordinators c.learners → length (nodes_text c) ≤ 11 }
{}
