//! The spelling of operations.
use crate::scripts::footprint;
use gp_bank::{bank_draft, bank_form, bank_op, bank_op_of_form, write_bank_op};
use gp_cases::{Fault, Words, id_of, push_hex};
use gp_command::{Command, Draft, write_command};
use gp_store::{OpFault, draft_of, op_form, op_of, op_of_form, write_op};
use gp_words::tokens_of;
use std::alloc::Global;

/// `spelled bank OP` or `spelled store OP`: how the operation is written again, as long as its draft
/// has the same body and is read as the same operation, and what the draft touches; or why these
/// words are none.
pub fn spelled(alloc: Global, mut words: Words<'_>) -> Result<Vec<u8>, Fault> {
    let line = match words.next()? {
        b"bank" => bank_spelling(alloc, words.rest()?)?,
        b"store" => store_spelling(alloc, words.rest()?)?,
        _ => return Err(Fault::Unread),
    };
    Ok(Vec::from_slice(alloc, line.as_bytes())?)
}

fn bank_spelling(alloc: Global, text: &[u8]) -> Result<String, Fault> {
    let tokens = tokens_of(alloc, text)?;
    let Some(form) = bank_form(&tokens) else {
        return Ok(String::from_str(alloc, "no form")?);
    };
    match bank_op_of_form(form) {
        Ok(op) => {
            let mut written = Vec::new(alloc);
            write_bank_op(&op, &mut written)?;
            let draft = bank_draft(alloc, op)?;
            spelling(alloc, &written, &draft, bank_op(&draft) == Some(op))
        }
        Err(fault) => fault_text(alloc, fault),
    }
}

fn store_spelling(alloc: Global, text: &[u8]) -> Result<String, Fault> {
    let tokens = tokens_of(alloc, text)?;
    let Some(form) = op_form(&tokens) else {
        return Ok(String::from_str(alloc, "no form")?);
    };
    match op_of_form(form) {
        Ok(op) => {
            let mut written = Vec::new(alloc);
            write_op(&op, &mut written)?;
            let draft = draft_of(alloc, op)?;
            spelling(alloc, &written, &draft, op_of(&draft) == Some(op))
        }
        Err(fault) => fault_text(alloc, fault),
    }
}

fn spelling(
    alloc: Global,
    written: &[u8],
    draft: &Draft,
    is_read_again: bool,
) -> Result<String, Fault> {
    if !is_read_again || *draft.body() != *written {
        return Ok(String::from_str(alloc, "another operation")?);
    }
    let mut line = String::from_utf8_lossy(alloc, written)?;
    line.push_str(footprint(alloc, draft)?.as_str())?;
    Ok(line)
}

fn fault_text(alloc: Global, fault: OpFault) -> Result<String, Fault> {
    let text = match fault {
        OpFault::BadKey => "bad key",
        OpFault::BadNumber => "bad number",
    };
    Ok(String::from_str(alloc, text)?)
}

/// `bytes pN.M OP`: the bytes of the command.
pub fn command_bytes(alloc: Global, mut words: Words<'_>) -> Result<Vec<u8>, Fault> {
    let id = id_of(words.next()?)?;
    if id.proposer >= 8 || id.number == 0 {
        return Err(Fault::Unread);
    }
    let tokens = tokens_of(alloc, words.rest()?)?;
    let Some(form) = op_form(&tokens) else {
        return Err(Fault::Unread);
    };
    let command = Command::new(id, draft_of(alloc, op_of_form(form)?)?);
    let mut bytes = Vec::new(alloc);
    write_command(&command, &mut bytes)?;
    let mut line = String::new(alloc);
    push_hex(alloc, &bytes, &mut line)?;
    Ok(Vec::from_slice(alloc, line.as_bytes())?)
}
