//! Keys of the store.
ghost use Rattle.std.specs.Prelude.{◌≡◌, ◌↔◌, ◌≤◌, ◌<◌, ◌-◌, ◌++◌, IsTrue, IsOk, IfOk, length, replicate};
ghost use Rattle.std.specs.List.{list_all};
ghost use Rattle.gp_command.specs.Key.{is_key_byte, is_key};
ghost use Rattle.gp_command.specs.Mark.{mark_from};

use std::cmp::Ordering;
use std::marker::Model;

/// A key of the store: 1 to 16 bytes, each of them one of `a` to `z`, `0` to `9` and `_`.
///
/// A contract sees a key as the list of its bytes. Keys are ordered as byte strings.
#[derive(Clone, Copy, Debug)]
pub struct Key {
    bytes: [u8; 16],
    len: u8,
}

impl Model for Key {
    ghost use Rattle.std.specs.Prelude.{ℕ, List, take};
    ghost use Rattle.gp_command.specs.KeyFields.{IsPadded, padded, padded_undoes};

    ghost Value = { List ℕ };

    ghost view = { λ k. take k.len k.bytes };

    ghost invariant = { IsPadded };

    ghost inverse = { padded };

    ghost inverse_ok = { padded_undoes };
}

/// The bytes are not a key: there are none, there are more than 16, or one of them is not a byte of
/// a key.
#[derive(Clone, Copy, Debug, PartialEq, Eq)]
pub struct BadKey;

impl Key {
    /// The key with these bytes. `BadKey` if they are not a key.
    pub fn new(bytes: &[u8]) -> Result<Key, BadKey>
        ensures accepted { IsOk result ↔ IsTrue (is_key bytes.now) }
        ensures value { IfOk result (λ key. key ≡ bytes.now) }
    {
        if !is_key(bytes) {
            return Err(BadKey);
        }
        Ok(Key {
            bytes: padded(bytes),
            len: bytes.len() as u8,
        })
    }

    /// The bytes of the key.
    pub fn as_bytes(&self) -> &[u8]
        ensures value { result.now ≡ self.now }
        ensures key { IsTrue (is_key self.now) }
    {
        &self.bytes[..self.len as usize]
    }

    // A number that depends only on the key, so keys with different marks differ.
    pub(crate) fn mark(&self) -> u64
        ensures value { result ≡ mark_from 0 self.now }
        ensures small { result < 1000003 }
    {
        let mut mark = 0;
        for b in self.as_bytes() {
            mark = (mark * 31 + u64::from(*b)) % 1_000_003;
        }
        mark
    }

    // The key `_`, for places of an array that hold no key yet.
    pub(crate) fn blank() -> Key {
        let mut bytes = [0; 16];
        bytes[0] = b'_';
        Key { bytes, len: 1 }
    }
}

impl PartialEq for Key {
    ghost use Rattle.std.specs.Cmp.{partial_equiv_from_equiv, eq_by_cmp_equiv};
    ghost use Rattle.std.specs.Ordering.{eq_by_cmp};
    ghost use Rattle.gp_command.specs.Key.{key_cmp, key_cmp_total};

    ghost eq = { eq_by_cmp key_cmp };

    ghost laws = { partial_equiv_from_equiv (eq_by_cmp_equiv key_cmp_total) };

    fn eq(&self, other: &Key) -> bool {
        self.as_bytes() == other.as_bytes()
    }
}

impl Eq for Key {
    ghost use Rattle.std.specs.Cmp.{eq_by_cmp_equiv};
    ghost use Rattle.gp_command.specs.Key.{key_cmp_total};

    ghost laws = { eq_by_cmp_equiv key_cmp_total };
}

impl PartialOrd for Key {
    ghost use Rattle.std.specs.Cmp.{partial_order_from_total};
    ghost use Rattle.std.specs.Ordering.{as_partial_cmp};
    ghost use Rattle.gp_command.specs.Key.{key_cmp, key_cmp_total};

    ghost partial_cmp = { as_partial_cmp key_cmp };

    ghost laws = { partial_order_from_total key_cmp_total };

    fn partial_cmp(&self, other: &Key) -> Option<Ordering> {
        Some(self.cmp(other))
    }
}

impl Ord for Key {
    ghost use Rattle.std.specs.Prelude.{refl};
    ghost use Rattle.gp_command.specs.Key.{key_cmp, key_cmp_total};

    ghost cmp = { key_cmp };

    ghost total = { key_cmp_total };

    ghost matches_partial_cmp = { λ x y. refl };

    ghost matches_eq = { λ x y. refl };

    fn cmp(&self, other: &Key) -> Ordering {
        self.as_bytes().cmp(other.as_bytes())
    }
}

fn is_key(bytes: &[u8]) -> bool
    ensures { result ≡ is_key bytes.now }
{
    1 <= bytes.len() && bytes.len() <= 16 && are_key_bytes(bytes)
}

fn are_key_bytes(bytes: &[u8]) -> bool
    ensures { result ≡ list_all is_key_byte bytes.now }
{
    bytes.iter().all(|b| is_key_byte(*b))
}

fn is_key_byte(b: u8) -> bool
    ensures { result ≡ is_key_byte b }
{
    b.is_ascii_lowercase() || b.is_ascii_digit() || b == b'_'
}

// The bytes, followed by zeros up to 16 bytes.
fn padded(bytes: &[u8]) -> [u8; 16]
    requires { length bytes.now ≤ 16 }
    ensures { result ≡ bytes.now ++ replicate (16 - length bytes.now) 0 }
{
    let mut all = [0; 16];
    all[..bytes.len()].copy_from_slice(bytes);
    all
}
