//! The canonical order of a sequence, by marks of the commands that were taken.
ghost use Rattle.std.specs.Prelude.{◌≡◌, ◌<◌, List, length, take, slice_get, IsTrue, IfSome, IfNone, Some, None};
ghost use Rattle.std.specs.List.{list_all};
ghost use Rattle.gp_command.specs.declared.command.Command.{Command};
ghost use Rattle.gp_history.specs.Sequence.{history_of, no_repeat};
ghost use Rattle.gp_history.specs.Canonical.{is_ready, next_least};
ghost use Rattle.gp_index.specs.Index.{IsIndex};
ghost use Rattle.gp_index.specs.Ordering.{marks_in};

use gp_command::{Command, conflicts};

/// The place of the command that comes next in canonical order, or `None` if none is ready. The
/// commands with a mark were taken, and `order` is the index of the commands.
pub fn next_place(commands: &[Command], order: &[u32], marks: &[bool]) -> Option<usize>
    requires index { IsIndex commands.now order.now }
    requires distinct { IsTrue (no_repeat commands.now) }
    requires marks { length marks.now ≡ length commands.now }
    ensures within { IfSome result (λ place. place < length commands.now) }
    ensures next { IfSome result (λ place. (taken : List Command) → marks.now ≡ marks_in commands.now taken → next_least (history_of commands.now) (history_of taken) ≡ slice_get commands.now place) }
    ensures none { IfNone result ((taken : List Command) → marks.now ≡ marks_in commands.now taken → next_least (history_of commands.now) (history_of taken) ≡ None) }
{
    let from = marked_at_start(marks);
    for k in 0..order.len() {
        let place = order[k] as usize;
        if is_ready(commands, marks, from, place) {
            return Some(place);
        }
    }
    None
}

// How many commands at the start have a mark.
fn marked_at_start(marks: &[bool]) -> usize
    ensures { IsTrue (list_all (λ mark. mark) (take result marks.now)) }
{
    for i in 0..marks.len() {
        if !marks[i] {
            return i;
        }
    }
    marks.len()
}

// Whether a command has no mark while all commands before it have. The first `from` have a mark.
fn is_ready(commands: &[Command], marks: &[bool], from: usize, place: usize) -> bool
    requires within { place < length commands.now }
    requires distinct { IsTrue (no_repeat commands.now) }
    requires marks { length marks.now ≡ length commands.now }
    requires from { IsTrue (list_all (λ mark. mark) (take from marks.now)) }
    ensures { (taken : List Command) (c : Command) → marks.now ≡ marks_in commands.now taken → slice_get commands.now place ≡ Some c → result ≡ is_ready (history_of commands.now) (history_of taken) c }
{
    if marks[place] {
        return false;
    }
    let c = &commands[place];
    for p in from..place {
        if !marks[p] && conflicts(&commands[p], c) {
            return false;
        }
    }
    true
}
