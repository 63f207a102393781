//! Reading the bodies of entries.
ghost use Rattle.std.specs.Prelude.{◌≡◌, ◌≤◌, ◌-◌, ◌++◌, length, take, drop, IfOk, IfSome, false, true};
ghost use Rattle.std.specs.List.{All};
ghost use Rattle.gp_command.specs.Spelling.{IsNumbered};
ghost use Rattle.std.specs.Option.{option_copied, option_map};
ghost use Rattle.gp_history.specs.History.{pushes};
ghost use Rattle.gp_history.specs.Sequence.{history_of};
ghost use Rattle.gp_msg.specs.Messages.{part_of};
ghost use Rattle.gp_vlog.specs.declared.reading.Unread.TheVariants as unread;
ghost use Rattle.gp_vlog.specs.Bodies.{number_at, mode_at, is_round, round_at, command_at, commands_at, vote_with, acceptor_at, coordinator_at, kind_of, epoch_at, vote_before, part_at, fits_version, entry_of, base_or_empty};
ghost use Rattle.gp_vlog.specs.Logs.{entry_for, KeepsRules};
ghost use Rattle.gp_vlog.specs.Reading.{Gives};

use crate::votes::{additions, are_same, pushed};
use gp_command::{Command, NoMemory, ReadRefused, read_command};
use gp_history::Hist;
use gp_index::History;
use gp_msg::Durable;
use gp_round::{LAST_COUNT, Mode, Round};
use std::alloc::{AllocFailed, Global};

/// Why nothing was read.
#[derive(Clone, Copy, Debug, PartialEq, Eq)]
pub(crate) enum Unread {
    /// The bytes break a rule.
    Wrong,
    /// Memory ran out.
    NoMemory,
}

impl From<NoMemory> for Unread {
    ghost from_gives = { λ _ r. r ≡ unread.NoMemory };

    fn from(_refused: NoMemory) -> Unread {
        Unread::NoMemory
    }
}

impl<T: Drop> From<AllocFailed<T>> for Unread {
    ghost from_gives = { λ _ r. r ≡ unread.NoMemory };

    fn from(_refused: AllocFailed<T>) -> Unread {
        Unread::NoMemory
    }
}

/// What the body of an entry holds.
#[derive(Clone, Copy, PartialEq, Eq)]
pub(crate) enum Kind {
    /// An acceptor's part.
    Whole,
    /// A coordinator's part.
    Coordinating,
    /// An acceptor's part whose vote adds to the one before.
    Adding,
}

fn number_at(bytes: &[u8]) -> Result<(u32, &[u8]), Unread>
    ensures { Gives (λ x. (x.0, x.1.now)) result (number_at bytes.now) }
{
    let [a, b, c, d, rest @ ..] = bytes else {
        return Err(Unread::Wrong);
    };
    Ok((u32::from_le_bytes([*a, *b, *c, *d]), rest))
}

fn mode_at(bytes: &[u8]) -> Result<(Mode, &[u8]), Unread>
    ensures { Gives (λ x. (x.0, x.1.now)) result (mode_at bytes.now) }
{
    let [first, rest @ ..] = bytes else {
        return Err(Unread::Wrong);
    };
    match *first {
        0 => Ok((Mode::Single, rest)),
        1 => Ok((Mode::Multi, rest)),
        2 => Ok((Mode::Fast, rest)),
        _ => Err(Unread::Wrong),
    }
}

pub(crate) fn is_round(r: Round) -> bool
    ensures { result ≡ is_round r }
{
    let most_lead = match r.mode {
        Mode::Multi => 0,
        _ => 4,
    };
    (r.count == 0 && r.mode as u8 == 0 && r.lead == 0)
        || (1 <= r.count && r.count <= LAST_COUNT && r.lead <= most_lead)
}

#[tactic(auto, unfolding(crate::specs::Bodies::round_at))]
fn round_at(bytes: &[u8]) -> Result<(Round, &[u8]), Unread>
    ensures read { Gives (λ x. (x.0, x.1.now)) result (round_at bytes.now) }
    ensures right { IfOk result (λ x. is_round x.0 ≡ true) }
{
    let (count, rest) = number_at(bytes)?;
    let (mode, rest) = mode_at(rest)?;
    let (lead, rest) = number_at(rest)?;
    let round = Round { count, mode, lead };
    if is_round(round) {
        Ok((round, rest))
    } else {
        Err(Unread::Wrong)
    }
}

#[tactic(auto, unfolding(crate::specs::Bodies::command_at))]
fn command_at(alloc: Global, bytes: &[u8]) -> Result<(Command, &[u8]), Unread>
    ensures read { Gives (λ x. (x.0, x.1.now)) result (command_at bytes.now) }
    ensures numbered { IfOk result (λ x. IsNumbered x.0.id) }
{
    match read_command(alloc, bytes) {
        Ok((c, len)) => Ok((c, &bytes[len..])),
        Err(ReadRefused::Bad { .. }) => Err(Unread::Wrong),
        Err(ReadRefused::Cut { .. }) => Err(Unread::Wrong),
        Err(ReadRefused::NoMemory) => Err(Unread::NoMemory),
    }
}

fn commands_at(alloc: Global, count: u32, bytes: &[u8]) -> Result<(Vec<Command>, &[u8]), Unread>
    ensures read { Gives (λ x. (x.0.items, x.1.now)) result (commands_at count bytes.now) }
    ensures numbered { IfOk result (λ x. All (λ c. IsNumbered c.id) x.0.items) }
{
    let mut commands = Vec::new(alloc);
    let mut rest = bytes;
    for _i in 0..count {
        let (c, behind) = command_at(alloc, rest)?;
        commands.push(c)?;
        rest = behind;
    }
    Ok((commands, rest))
}

#[tactic(auto, unfolding(crate::specs::Bodies::acceptor_at))]
fn acceptor_at(
    alloc: Global,
    epoch: u32,
    base: Option<&History>,
    bytes: &[u8],
) -> Result<Durable, Unread>
    requires { IfSome (option_copied base) (λ vote. All (λ c. IsNumbered c.id) vote) }
    ensures read { Gives part_of result (acceptor_at epoch (base_or_empty (option_map history_of (option_copied base.entry))) bytes.now) }
    ensures rules { IfOk result KeepsRules }
{
    let (round, rest) = round_at(bytes)?;
    let (voted, rest) = round_at(rest)?;
    let (count, rest) = number_at(rest)?;
    let (commands, rest) = commands_at(alloc, count, rest)?;
    if !rest.is_empty() {
        return Err(Unread::Wrong);
    }
    if round < voted {
        return Err(Unread::Wrong);
    }
    let vote = vote_with(alloc, base, &commands)?;
    Ok(Durable::Acceptor {
        epoch,
        round,
        voted,
        vote,
    })
}

// The vote that has these commands besides those of another one. `Wrong` if they are not what it
// adds to that one. `NoMemory` if memory runs out.
fn vote_with(alloc: Global, base: Option<&History>, commands: &[Command]) -> Result<History, Unread>
    ensures read { Gives history_of result (vote_with (base_or_empty (option_map history_of (option_copied base.entry))) commands.now) }
    ensures pushed { IfOk result (λ vote. history_of vote ≡ pushes (base_or_empty (option_map history_of (option_copied base.entry))) commands.now) }
{
    let vote = pushed(alloc, base, commands)?;
    let added = additions(alloc, base, &vote)?;
    if are_same(&added, commands) {
        Ok(vote)
    } else {
        Err(Unread::Wrong)
    }
}

#[tactic(auto, unfolding(crate::specs::Bodies::coordinator_at))]
fn coordinator_at(epoch: u32, bytes: &[u8]) -> Result<Durable, Unread>
    ensures read { Gives part_of result (coordinator_at epoch bytes.now) }
    ensures rules { IfOk result KeepsRules }
{
    let (round, rest) = round_at(bytes)?;
    if rest.is_empty() {
        Ok(Durable::Coordinator { epoch, round })
    } else {
        Err(Unread::Wrong)
    }
}

fn kind_of(first: u8) -> Result<(bool, Kind), Unread>
    ensures { Gives (λ x. x) result (kind_of first) }
{
    match first {
        1 => Ok((true, Kind::Whole)),
        2 => Ok((true, Kind::Coordinating)),
        3 => Ok((true, Kind::Adding)),
        17 => Ok((false, Kind::Whole)),
        18 => Ok((false, Kind::Coordinating)),
        19 => Ok((false, Kind::Adding)),
        _ => Err(Unread::Wrong),
    }
}

fn epoch_at(old: bool, bytes: &[u8]) -> Result<(u32, &[u8]), Unread>
    ensures { Gives (λ x. (x.0, x.1.now)) result (epoch_at old bytes.now) }
{
    if old {
        Ok((0, bytes))
    } else {
        number_at(bytes)
    }
}

// The vote of an acceptor's part of this epoch, if it is not empty.
fn vote_before(before: Option<&Durable>, epoch: u32) -> Option<&History>
    requires { IfSome (option_copied before) KeepsRules }
    ensures vote { option_map history_of (option_copied result) ≡ vote_before (option_map part_of (option_copied before.entry)) epoch }
    ensures numbered { IfSome (option_copied result) (λ vote. All (λ c. IsNumbered c.id) vote) }
{
    match before {
        None => None,
        Some(Durable::Coordinator { .. }) => None,
        Some(
            Durable::Acceptor {
                epoch: last,
                vote,
                ..
            },
        ) => {
            if *last == epoch && vote.len() > 0 {
                Some(vote)
            } else {
                None
            }
        }
    }
}

fn part_at(
    alloc: Global,
    kind: Kind,
    before: Option<&Durable>,
    epoch: u32,
    bytes: &[u8],
) -> Result<Durable, Unread>
    requires { IfSome (option_copied before) KeepsRules }
    ensures read { Gives part_of result (part_at kind (option_map part_of (option_copied before.entry)) epoch bytes.now) }
    ensures rules { IfOk result KeepsRules }
{
    match kind {
        Kind::Whole => acceptor_at(alloc, epoch, None, bytes),
        Kind::Coordinating => coordinator_at(epoch, bytes),
        Kind::Adding => match vote_before(before, epoch) {
            Some(base) => acceptor_at(alloc, epoch, Some(base), bytes),
            None => Err(Unread::Wrong),
        },
    }
}

fn fits_version(before: Option<&Durable>, before_old: bool, version: bool) -> bool
    ensures { result ≡ fits_version (option_map (entry_for before_old) (option_copied before.entry)) version }
{
    match before {
        None => true,
        Some(_before) => { if version { before_old } else { !before_old } }
    }
}

/// The durable part that a body means after another one, and whether the body is of version 1.
#[tactic(auto, unfolding(crate::specs::Bodies::entry_of))]
pub(crate) fn entry_of(
    alloc: Global,
    before: Option<&Durable>,
    old: bool,
    body: &[u8],
) -> Result<(bool, Durable), Unread>
    requires { IfSome (option_copied before) KeepsRules }
    ensures read { Gives (λ x. entry_for x.0 x.1) result (entry_of (option_map (entry_for old) (option_copied before.entry)) body.now) }
    ensures rules { IfOk result (λ x. KeepsRules x.1) }
{
    let [first, rest @ ..] = body else {
        return Err(Unread::Wrong);
    };
    let (version, kind) = kind_of(*first)?;
    let (epoch, rest) = epoch_at(version, rest)?;
    let part = part_at(alloc, kind, before, epoch, rest)?;
    if fits_version(before, old, version) {
        Ok((version, part))
    } else {
        Err(Unread::Wrong)
    }
}
