//! Bytes as hexadecimal digits.
use crate::fault::Fault;
use std::alloc::Global;

/// The bytes that a word of hexadecimal digits spells, two digits a byte; `-` spells none.
pub fn bytes_of_hex(alloc: Global, word: &[u8]) -> Result<Vec<u8>, Fault> {
    let mut bytes = Vec::new(alloc);
    if *word == *b"-".as_slice() {
        return Ok(bytes);
    }
    for pair in word.chunks(2) {
        match pair {
            [high, low] => {
                let high = digit(*high)?.saturating_mul(16);
                bytes.push(high.saturating_add(digit(*low)?))?;
            }
            _ => return Err(Fault::Unread),
        }
    }
    Ok(bytes)
}

fn digit(letter: u8) -> Result<u8, Fault> {
    match letter {
        b'0'..=b'9' => Ok(letter.saturating_sub(b'0')),
        b'a'..=b'f' => Ok(letter.saturating_sub(b'a').saturating_add(10)),
        _ => Err(Fault::Unread),
    }
}

/// The bytes of all words of hexadecimal digits in a text of several lines.
pub fn bytes_of_text(alloc: Global, text: &[u8]) -> Result<Vec<u8>, Fault> {
    let mut bytes = Vec::new(alloc);
    for line in text.split(|byte| *byte == b'\n') {
        for word in line.split(|byte| *byte == b' ') {
            bytes.extend_from_slice(&bytes_of_hex(alloc, word)?)?;
        }
    }
    Ok(bytes)
}

/// Appends bytes as hexadecimal digits; no bytes are `-`.
pub fn push_hex(alloc: Global, bytes: &[u8], to: &mut String) -> Result<(), Fault> {
    if bytes.is_empty() {
        to.push('-')?;
    }
    for byte in bytes {
        to.push_str(format!(in alloc; "{byte:02x}")?.as_str())?;
    }
    Ok(())
}
