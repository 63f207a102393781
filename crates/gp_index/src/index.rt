//! The place of a command, found by binary search in an index.
ghost use Rattle.std.specs.Prelude.{◌≡◌, ◌≢◌, ◌≤◌, ◌<◌, ℕ, length, IsTrue, IfOk, IfErr, OnErr, Some, false};
ghost use Rattle.std.specs.List.{list_any};
ghost use Rattle.std.specs.declared.cmp.Ordering.TheVariants.{Less};
ghost use Rattle.gp_command.specs.declared.command.Command.{Command};
ghost use Rattle.gp_command.specs.Conflict.{same};
ghost use Rattle.gp_command.specs.Order.{command_cmp};
ghost use Rattle.gp_history.specs.Sequence.{no_repeat, place_in};
ghost use Rattle.gp_index.specs.Index.{IsIndex, IsGap, named};

use gp_command::Command;

/// The number of entries that name a lesser command.
pub fn rank(c: &Command, commands: &[Command], order: &[u32]) -> usize
    requires { IsIndex commands.now order.now }
    ensures within { result ≤ length order.now }
    ensures below { (k : ℕ) (e : Command) → k < result → command_cmp (named commands.now order.now k e) c.now ≡ Less }
    ensures above { (k : ℕ) (e : Command) → result ≤ k → k < length order.now → command_cmp (named commands.now order.now k e) c.now ≢ Less }
{
    let mut low = 0;
    let mut high = order.len();
    while low < high {
        let middle = low + (high - low) / 2;
        if commands[order[middle] as usize] < *c {
            low = middle + 1;
        } else {
            high = middle;
        }
    }
    low
}

/// The place of a command, or as the error the place in the index where an entry for it belongs.
pub fn search(c: &Command, commands: &[Command], order: &[u32]) -> Result<usize, usize>
    requires index { IsIndex commands.now order.now }
    requires distinct { IsTrue (no_repeat commands.now) }
    ensures found { IfOk result (λ place. Some place ≡ place_in commands.now c.now) }
    ensures absent { OnErr result (list_any (same c.now) commands.now ≡ false) }
    ensures gap { IfErr result (IsGap commands.now order.now c.now) }
{
    let at = rank(c, commands, order);
    if at < order.len() && commands[order[at] as usize] == *c {
        return Ok(order[at] as usize);
    }
    Err(at)
}
