//! What the readers saw, in lines.
ghost use Rattle.std.specs.Prelude.{◌≡◌, ◌++◌, OnOk, map};
ghost use Rattle.gp_words.specs.Spacing.{spaced};
ghost use Rattle.gp_report.specs.Texts.{identity};
ghost use Rattle.gp_onlookers.specs.Texts.{order_line, value_text, look_line, look_lines, looks_text};

use crate::looks::{Look, Looks};
use gp_command::{CommandId, NoMemory};
use gp_report::push_identity;
use gp_words::{push_dash, push_gap, push_number};

fn push_identities(order: &[CommandId], to: &mut Vec<u8>) -> Result<(), NoMemory>
    ensures { OnOk result (to.new.items ≡ to.old.items ++ spaced (map identity order.now)) }
{
    for i in 0..order.len() {
        push_gap(i, to)?;
        push_identity(order[i], to)?;
    }
    push_dash(order.len(), to)
}

fn push_order(order: &[CommandId], to: &mut Vec<u8>) -> Result<(), NoMemory>
    ensures { OnOk result (to.new.items ≡ to.old.items ++ order_line order.now) }
{
    to.extend_from_slice(b"order: ")?;
    push_identities(order, to)?;
    Ok(to.push(b'\n')?)
}

fn push_value(value: Option<u64>, to: &mut Vec<u8>) -> Result<(), NoMemory>
    ensures { OnOk result (to.new.items ≡ to.old.items ++ value_text value) }
{
    match value {
        Some(value) => push_number(value, to),
        None => Ok(to.extend_from_slice(b"none")?),
    }
}

fn push_look(reader: u64, look: Look, to: &mut Vec<u8>) -> Result<(), NoMemory>
    ensures { OnOk result (to.new.items ≡ to.old.items ++ look_line reader look) }
{
    to.push(b'r')?;
    push_number(reader, to)?;
    to.extend_from_slice(b" seen ")?;
    push_number(look.seen, to)?;
    to.extend_from_slice(b" value ")?;
    push_value(look.value, to)?;
    Ok(to.push(b'\n')?)
}

// The reads of a reader.
fn push_looks(reader: u64, looks: &[Look], to: &mut Vec<u8>) -> Result<(), NoMemory>
    ensures { OnOk result (to.new.items ≡ to.old.items ++ look_lines reader looks.now) }
{
    for look in looks {
        push_look(reader, *look, to)?;
    }
    Ok(())
}

/// Appends a line `--`, a line that begins with `order: ` and has the identities of the commands in
/// the order in which they were run, or `-`, and for each read a line `rN seen S value V`, those of
/// reader 0 before those of reader 1. S is the number of commands that reader N had seen at that
/// time, and V is the value of the key after them, or `none`. If memory runs out, a part of this
/// text may have been appended; no clause says which.
pub fn push_sight(looks: &Looks, to: &mut Vec<u8>) -> Result<(), NoMemory>
    ensures { OnOk result (to.new.items ≡ to.old.items ++ looks_text looks.now) }
{
    to.extend_from_slice(b"--\n")?;
    push_order(&looks.order, to)?;
    push_looks(0, &looks.first, to)?;
    push_looks(1, &looks.second, to)
}
