//! Lines that stand for several lines: `for n in A..B: LINE`.
use crate::fault::Fault;
use crate::words::{number_64, split_at};
use std::alloc::Global;

/// The line that is repeated, and the numbers that it is repeated for.
#[derive(Clone, Copy)]
pub struct Repeat<'a> {
    indent: &'a [u8],
    line: &'a [u8],
    pub first: u64,
    pub last: u64,
}

impl<'a> Repeat<'a> {
    /// Reads `for n in A..B: LINE`, which may have an indent. `None` if the line does not begin
    /// with `for n in `.
    pub fn of(line: &'a [u8]) -> Result<Option<Repeat<'a>>, Fault> {
        let (indent, plain) = match line.strip_prefix(b"  ") {
            Some(plain) => (b"  ".as_slice(), plain),
            None => (b"".as_slice(), line),
        };
        match plain.strip_prefix(b"for n in ") {
            Some(rest) => Ok(Some(repeat_of(indent, rest)?)),
            None => Ok(None),
        }
    }

    /// The line for this number.
    pub fn line(&self, alloc: Global, n: u64) -> Result<Vec<u8>, Fault> {
        let mut line = Vec::new(alloc);
        line.extend_from_slice(self.indent)?;
        let mut is_first = true;
        for piece in self.line.split(|byte| *byte == b'{') {
            if is_first {
                line.extend_from_slice(piece)?;
                is_first = false;
            } else {
                push_piece(alloc, n, piece, &mut line)?;
            }
        }
        Ok(line)
    }
}

// Reads `A..B: LINE`. The line may be empty, and then there may be no space before it.
fn repeat_of<'a>(indent: &'a [u8], text: &'a [u8]) -> Result<Repeat<'a>, Fault> {
    let (bounds, after) = split_at(b':', text)?;
    let (first, others) = split_at(b'.', bounds)?;
    Ok(Repeat {
        indent,
        line: after_mark(b' ', after)?,
        first: number_64(first)?,
        last: number_64(after_mark(b'.', others)?)?,
    })
}

// What is after the first byte of a text, which is this one unless the text is empty.
fn after_mark(mark: u8, text: &[u8]) -> Result<&[u8], Fault> {
    match text {
        [first, rest @ ..] if *first == mark => Ok(rest),
        [] => Ok(text),
        _ => Err(Fault::Unread),
    }
}

// Appends what follows an opening brace: the number that it spells, or the text as it stands.
fn push_piece(alloc: Global, n: u64, piece: &[u8], line: &mut Vec<u8>) -> Result<(), Fault> {
    if let Ok((term, rest)) = split_at(b'}', piece) {
        if let Some(value) = value_of(term, n) {
            line.extend_from_slice(format!(in alloc; "{value}")?.as_bytes())?;
            line.extend_from_slice(rest)?;
            return Ok(());
        }
    }
    line.push(b'{')?;
    line.extend_from_slice(piece)?;
    Ok(())
}

// The value of `n` and the operators after it, from left to right.
fn value_of(term: &[u8], n: u64) -> Option<u64> {
    let [b'n', rest @ ..] = term else {
        return None;
    };
    let mut value = n;
    let mut operator = b'+';
    let mut operand = 0u64;
    for byte in rest {
        match byte {
            b'0'..=b'9' => {
                let digit = byte.saturating_sub(b'0');
                operand = operand.checked_mul(10)?.checked_add(u64::from(digit))?;
            }
            b'%' | b'+' | b'/' | b'*' => {
                value = applied(operator, value, operand)?;
                operator = *byte;
                operand = 0;
            }
            _ => return None,
        }
    }
    applied(operator, value, operand)
}

fn applied(operator: u8, value: u64, operand: u64) -> Option<u64> {
    match operator {
        b'%' => value.checked_rem(operand),
        b'/' => value.checked_div(operand),
        b'*' => value.checked_mul(operand),
        _ => value.checked_add(operand),
    }
}
