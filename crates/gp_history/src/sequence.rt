//! The place of a command in a sequence.
ghost use Rattle.std.specs.Prelude.{◌≡◌, ◌≤◌, ◌+◌, ℕ, length, IsTrue, IfSome, IfNone, false};
ghost use Rattle.std.specs.List.{list_any};
ghost use Rattle.gp_command.specs.Conflict.{same};
ghost use Rattle.gp_history.specs.Sequence.{no_repeat, place_in};
ghost use Rattle.gp_history.specs.Walks.{stands_at};

use gp_command::Command;

/// Whether a command is in the list.
pub fn is_among(c: &Command, commands: &[Command]) -> bool
    ensures { result ≡ list_any (same c.now) commands.now }
{
    commands.iter().any(|d| c == d)
}

/// The place of a command, or `None` if it is not there. The search goes outward from the place
/// `near`, which does not affect the result.
pub fn place_of(c: &Command, commands: &[Command], near: usize) -> Option<usize>
    requires { IsTrue (no_repeat commands.now) }
    ensures { result ≡ place_in commands.now c.now }
{
    let start = near.min(commands.len());
    for distance in 0..commands.len() {
        if let Some(place) = place_at_distance(c, commands, start, distance) {
            return Some(place);
        }
    }
    None
}

// The place of a command, if that is `start + distance` or `start - distance - 1`.
fn place_at_distance(
    c: &Command,
    commands: &[Command],
    start: usize,
    distance: usize,
) -> Option<usize>
    requires within { start ≤ length commands.now }
    requires near { distance ≤ length commands.now }
    ensures found { IfSome result (λ place. IsTrue (stands_at c.now commands.now place)) }
    ensures not_behind { IfNone result (stands_at c.now commands.now (start + distance) ≡ false) }
    ensures not_ahead { IfNone result ((i : ℕ) → i + distance + 1 ≡ start → stands_at c.now commands.now i ≡ false) }
{
    if stands_at(c, commands, start + distance) {
        return Some(start + distance);
    }
    if distance < start && stands_at(c, commands, start - distance - 1) {
        return Some(start - distance - 1);
    }
    None
}

/// Whether a command is at this place.
pub fn stands_at(c: &Command, commands: &[Command], place: usize) -> bool
    ensures { result ≡ stands_at c.now commands.now place }
{
    match commands.get(place) {
        Some(d) => c == d,
        None => false,
    }
}
