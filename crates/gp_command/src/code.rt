//! Codes of drafts: the bytes by which drafts are compared for equality.
ghost use Rattle.std.specs.Prelude.{◌≡◌, ◌↔◌, ◌≤◌, IsTrue, IfOk, length, get_or};
ghost use Rattle.gp_command.specs.Code.{draft_code};
ghost use Rattle.gp_command.specs.Words.{IsWord, IsHead};

use crate::touch::Touch;
use crate::writing::push_touches;
use gp_memory::NoMemory;
use std::alloc::Global;
use std::marker::Model;

// The number of bytes that a head has.
const HEAD_BYTES: usize = 32;

/// The bytes of a code. A contract sees a code as the list of these bytes.
#[derive(Drop, Debug)]
pub struct Code {
    bytes: Vec<u8>,
    // the first 32 bytes, which are compared before the others
    head: Head,
}

/// The first 32 bytes of a code as four numbers of eight bytes, with zeros after its end.
#[derive(Clone, Copy, Debug)]
pub struct Head {
    pub first: u64,
    pub second: u64,
    pub third: u64,
    pub fourth: u64,
}

impl Model for Code {
    ghost use Rattle.std.specs.Prelude.{ℕ, List};
    ghost use Rattle.gp_command.specs.Words.{IsHead};

    ghost Value = { List ℕ };

    ghost view = { λ c. c.bytes.items };

    ghost invariant = { λ c. IsHead c.head c.bytes.items };
}

impl Code {
    /// The code with these bytes.
    pub fn new(bytes: Vec<u8>) -> Code
        ensures { result ≡ bytes.items }
    {
        let head = head_of(&bytes);
        Code { bytes, head }
    }

    /// Whether both codes have the same bytes.
    #[inline(always)]
    pub fn is_same(&self, other: &Code) -> bool
        ensures { IsTrue result ↔ (self.now ≡ other.now) }
    {
        let bytes = self.bytes.as_slice();
        let others = other.bytes.as_slice();
        if bytes.len() != others.len() {
            return false;
        }
        if !are_same_heads(self.head, other.head) {
            return false;
        }
        bytes.len() <= HEAD_BYTES || bytes == others
    }
}

/// The code of the draft with these parts: at most 8 touches, and a body of at most 64 bytes.
/// `NoMemory` if memory runs out.
pub fn code_of(
    alloc: Global,
    checkpoint: bool,
    foot: &[Touch],
    body: &[u8],
) -> Result<Code, NoMemory>
    requires few { length foot.now ≤ 8 }
    requires short { length body.now ≤ 64 }
    ensures { IfOk result (λ code. code ≡ draft_code checkpoint foot.now body.now) }
{
    // the two numbers, at most 18 bytes for each touch, and the body
    let room = 2 + 18 * foot.len() + body.len();
    let mut code = Vec::with_capacity(alloc, room)?;
    code.push(u8::from(checkpoint))?;
    push_touches(foot, &mut code)?;
    code.extend_from_slice(body)?;
    Ok(Code::new(code))
}

fn head_of(bytes: &[u8]) -> Head
    ensures { IsHead result bytes.now }
{
    Head {
        first: word(bytes, 0),
        second: word(bytes, 8),
        third: word(bytes, 16),
        fourth: word(bytes, 24),
    }
}

// The eight bytes from place `from` on as a little-endian number, with zeros after the end.
fn word(bytes: &[u8], from: usize) -> u64
    requires { from ≤ 24 }
    ensures { IsWord result bytes.now from }
{
    u64::from_le_bytes([
        byte(bytes, from),
        byte(bytes, from + 1),
        byte(bytes, from + 2),
        byte(bytes, from + 3),
        byte(bytes, from + 4),
        byte(bytes, from + 5),
        byte(bytes, from + 6),
        byte(bytes, from + 7),
    ])
}

fn byte(bytes: &[u8], place: usize) -> u8
    ensures { result ≡ get_or bytes.now place 0 }
{
    match bytes.get(place) {
        Some(byte) => *byte,
        None => 0,
    }
}

#[inline(always)]
fn are_same_heads(a: Head, b: Head) -> bool
    ensures { IsTrue result ↔ ((a.first ≡ b.first) × (a.second ≡ b.second) × (a.third ≡ b.third) × (a.fourth ≡ b.fourth)) }
{
    a.first == b.first && a.second == b.second && a.third == b.third && a.fourth == b.fourth
}
