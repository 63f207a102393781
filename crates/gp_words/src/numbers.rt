//! Numbers in decimal.
ghost use Rattle.std.specs.Prelude.{◌≡◌, ◌++◌, OnOk, OnErr, decimal};
ghost use Rattle.std.specs.List.{list_all};
ghost use Rattle.std.specs.Char.{is_ascii_digit};
ghost use Rattle.gp_words.specs.Numbers.{is_decimal, number_of};

use gp_memory::NoMemory;
use itoa::Buffer;

/// The number that a token spells in decimal digits: without a sign, without a leading zero except
/// in `0` itself, and at most 18446744073709551615. The result is `None` for every other token.
///
/// It reads what `push_number` writes, and it reads nothing else as that number.
pub fn number_of(token: &[u8]) -> Option<u64>
    ensures { result ≡ number_of token.now }
{
    if !is_decimal(token) {
        return None;
    }
    let Ok(text) = str::from_utf8(token) else {
        return None;
    };
    match text.parse::<u64>() {
        Ok(number) => Some(number),
        Err(_) => None,
    }
}

/// Appends a number in decimal. If memory runs out, `to` stays as it was.
pub fn push_number(number: u64, to: &mut Vec<u8>) -> Result<(), NoMemory>
    ensures written { OnOk result (to.new.items ≡ to.old.items ++ decimal number) }
    ensures unchanged { OnErr result (to.new.items ≡ to.old.items) }
{
    let mut buffer = Buffer::new();
    to.extend_from_slice(buffer.format(number).as_bytes())?;
    Ok(())
}

#[tactic(auto, unfolding(crate::specs::Numbers::is_decimal))]
fn is_decimal(token: &[u8]) -> bool
    ensures { result ≡ is_decimal token.now }
{
    are_digits(token) && !token.is_empty() && (token[0] != b'0' || token.len() == 1)
}

fn are_digits(token: &[u8]) -> bool
    ensures { result ≡ list_all is_ascii_digit token.now }
{
    token.iter().all(|byte| byte.is_ascii_digit())
}
