//! Drafts: commands without their identity.
ghost use Rattle.std.specs.Prelude.{◌≡◌, ◌≢◌, ◌≤◌, true, false, [], None, IfOk, IfErr, OnOk, length};
ghost use Rattle.gp_command.specs.Footprint.{first_unsorted};
ghost use Rattle.gp_command.specs.Code.{draft_code};
ghost use Rattle.gp_command.specs.Mark.{foot_mark};
ghost use Rattle.gp_command.specs.Refusal.{touching, checkpoint_of, refusal, long_body, IsRefusal};

use crate::body::{Body, MOST_BYTES};
use crate::code::{Code, code_of};
use crate::foot::{Foot, MOST_TOUCHES, first_unsorted};
use crate::touch::Touch;
use gp_memory::NoMemory;
use std::alloc::Global;
use std::cmp::Ordering;
use std::marker::Model;
use std::sync::Arc;

/// A command without its identity: a checkpoint flag, a footprint and a body. The flag says whether
/// it is a checkpoint.
///
/// A checkpoint has no touches. Drafts are ordered by checkpoint flag (a checkpoint last),
/// footprint and body.
#[derive(Drop, Debug)]
pub struct Draft {
    parts: Arc<Parts>,
}

// The parts of a draft, which its copies share.
#[derive(Drop, Debug)]
struct Parts {
    // drafts are equal exactly if their codes are
    code: Code,
    // the mark of the footprint: drafts with different marks do not conflict if neither is 0
    mark: u64,
    checkpoint: bool,
    foot: Foot,
    body: Body,
}

impl Model for Draft {
    ghost use Rattle.std.specs.Prelude.{◌≡◌, true, []};
    ghost use Rattle.gp_command.specs.Mark.{foot_mark};
    ghost use Rattle.gp_command.specs.Code.{draft_code};
    ghost use Rattle.gp_command.specs.Views.{DraftView};

    ghost Value = { DraftView };

    ghost view = { λ d. record { checkpoint = d.parts.value.checkpoint; foot = d.parts.value.foot; body = d.parts.value.body } };

    ghost invariant = { λ d. (d.parts.value.checkpoint ≡ true → d.parts.value.foot ≡ []) × (d.parts.value.mark ≡ foot_mark d.parts.value.foot) × (d.parts.value.code ≡ draft_code d.parts.value.checkpoint d.parts.value.foot d.parts.value.body) };
}

/// Why no draft is made. If several causes hold, the first of them in this order is the error.
#[derive(Clone, Copy, Debug, PartialEq, Eq)]
pub enum DraftRefused {
    /// Touch `at`, counted from 0, is the first whose key is not greater than the key before it.
    Unsorted { at: usize },
    /// There are `given` touches, more than 8.
    TooMany { given: usize },
    /// The body has `given` bytes, more than 64.
    TooLong { given: usize },
    /// Memory ran out.
    NoMemory,
}

impl From<NoMemory> for DraftRefused {
    ghost use Rattle.std.specs.Prelude.{◌≡◌};
    ghost use Rattle.gp_command.specs.declared.draft.DraftRefused.TheVariants.{NoMemory};

    ghost from_gives = { λ _ e. e ≡ NoMemory };

    fn from(_refused: NoMemory) -> DraftRefused {
        DraftRefused::NoMemory
    }
}

impl Draft {
    /// The draft with these touches and this body. The touches must be at most 8, in ascending
    /// order of their keys and without duplicate keys, and the body must have at most 64 bytes. If
    /// not, the error is the first cause that holds, in the order of `DraftRefused`. If no such
    /// cause holds, it is `NoMemory`: memory ran out.
    pub fn new(alloc: Global, foot: &[Touch], body: &[u8]) -> Result<Draft, DraftRefused>
        ensures made { IfOk result (λ draft. draft ≡ touching foot.now body.now) }
        ensures accepted { OnOk result (refusal foot.now body.now ≡ None) }
        ensures refused { IfErr result (IsRefusal (refusal foot.now body.now)) }
    {
        if let Some(at) = first_unsorted(foot) {
            return Err(DraftRefused::Unsorted { at });
        }
        if foot.len() > MOST_TOUCHES {
            return Err(DraftRefused::TooMany { given: foot.len() });
        }
        if body.len() > MOST_BYTES {
            return Err(DraftRefused::TooLong { given: body.len() });
        }
        let foot = Foot::new(alloc, foot)?;
        let body = Body::new(alloc, body)?;
        Ok(Draft::of_parts(alloc, false, foot, body)?)
    }

    /// The checkpoint with this body of at most 64 bytes. `TooLong` if the body is longer, and
    /// otherwise `NoMemory` if memory runs out.
    pub fn checkpoint(alloc: Global, body: &[u8]) -> Result<Draft, DraftRefused>
        ensures made { IfOk result (λ draft. draft ≡ checkpoint_of body.now) }
        ensures accepted { OnOk result (long_body body.now ≡ None) }
        ensures refused { IfErr result (IsRefusal (long_body body.now)) }
    {
        if body.len() > MOST_BYTES {
            return Err(DraftRefused::TooLong { given: body.len() });
        }
        let foot = Foot::new(alloc, &[])?;
        let body = Body::new(alloc, body)?;
        Ok(Draft::of_parts(alloc, true, foot, body)?)
    }

    // The draft with parts that were checked before.
    pub(crate) fn of_parts(
        alloc: Global,
        checkpoint: bool,
        foot: Foot,
        body: Body,
    ) -> Result<Draft, NoMemory>
        requires { checkpoint ≡ true → foot ≡ [] }
        ensures checkpoint { IfOk result (λ draft. draft.checkpoint ≡ checkpoint) }
        ensures foot { IfOk result (λ draft. draft.foot ≡ foot) }
        ensures body { IfOk result (λ draft. draft.body ≡ body) }
    {
        let mark = mark_of(foot.as_slice());
        let code = code_of(alloc, checkpoint, foot.as_slice(), body.as_slice())?;
        let parts = Parts {
            code,
            mark,
            checkpoint,
            foot,
            body,
        };
        Ok(Draft {
            parts: Arc::new(alloc, parts)?,
        })
    }

    /// An equal draft, which shares the parts of this one. `NoMemory` only if 2^63 - 1 drafts share
    /// them already.
    pub fn copy(&self) -> Result<Draft, NoMemory>
        ensures { IfOk result (λ copy. copy ≡ self.now) }
    {
        Ok(Draft {
            parts: self.parts.clone()?,
        })
    }

    /// Whether it is a checkpoint. A checkpoint has no touches, and conflicts with every other
    /// command.
    pub fn is_checkpoint(&self) -> bool
        ensures value { result ≡ self.now.checkpoint }
        ensures bare { result ≡ true → self.now.foot ≡ [] }
    {
        self.parts.checkpoint
    }

    // Its code, which no other draft has.
    fn code(&self) -> &Code
        ensures { result.now ≡ draft_code self.now.checkpoint self.now.foot self.now.body }
    {
        &self.parts.code
    }

    /// The mark of its footprint: 0 unless there is exactly one touch, and otherwise a number that
    /// depends only on the key of that touch. Two commands with different marks do not conflict if
    /// neither mark is 0.
    #[tactic(auto, using(crate::proofs::Marks::marked_is_plain))]
    pub fn mark(&self) -> u64
        ensures value { result ≡ foot_mark self.now.foot }
        ensures plain { result ≢ 0 → self.now.checkpoint ≡ false }
    {
        self.parts.mark
    }

    /// The touches, at most 8, in ascending order of their keys.
    pub fn foot(&self) -> &[Touch]
        ensures value { result.now ≡ self.now.foot }
        ensures few { length result.now ≤ 8 }
        ensures sorted { first_unsorted result.now ≡ None }
    {
        self.parts.foot.as_slice()
    }

    /// The body, at most 64 bytes.
    pub fn body(&self) -> &[u8]
        ensures value { result.now ≡ self.now.body }
        ensures short { length result.now ≤ 64 }
    {
        self.parts.body.as_slice()
    }
}

impl PartialEq for Draft {
    ghost use Rattle.std.specs.Cmp.{partial_equiv_from_equiv, eq_by_cmp_equiv};
    ghost use Rattle.std.specs.Ordering.{eq_by_cmp};
    ghost use Rattle.gp_command.specs.Order.{draft_cmp, draft_cmp_total};

    ghost eq = { eq_by_cmp draft_cmp };

    ghost laws = { partial_equiv_from_equiv (eq_by_cmp_equiv draft_cmp_total) };

    #[inline(always)]
    fn eq(&self, other: &Draft) -> bool {
        self.code().is_same(other.code())
    }
}

impl Eq for Draft {
    ghost use Rattle.std.specs.Cmp.{eq_by_cmp_equiv};
    ghost use Rattle.gp_command.specs.Order.{draft_cmp_total};

    ghost laws = { eq_by_cmp_equiv draft_cmp_total };
}

impl PartialOrd for Draft {
    ghost use Rattle.std.specs.Cmp.{partial_order_from_total};
    ghost use Rattle.std.specs.Ordering.{as_partial_cmp};
    ghost use Rattle.gp_command.specs.Order.{draft_cmp, draft_cmp_total};

    ghost partial_cmp = { as_partial_cmp draft_cmp };

    ghost laws = { partial_order_from_total draft_cmp_total };

    fn partial_cmp(&self, other: &Draft) -> Option<Ordering> {
        Some(self.cmp(other))
    }
}

impl Ord for Draft {
    ghost use Rattle.std.specs.Prelude.{refl};
    ghost use Rattle.gp_command.specs.Order.{draft_cmp, draft_cmp_total};

    ghost cmp = { draft_cmp };

    ghost total = { draft_cmp_total };

    ghost matches_partial_cmp = { λ x y. refl };

    ghost matches_eq = { λ x y. refl };

    fn cmp(&self, other: &Draft) -> Ordering {
        self.is_checkpoint()
            .cmp(&other.is_checkpoint())
            .then(self.foot().cmp(other.foot()))
            .then(self.body().cmp(other.body()))
    }
}

// The mark of a footprint.
fn mark_of(foot: &[Touch]) -> u64
    ensures { result ≡ foot_mark foot.now }
{
    match foot {
        [touch] => touch.key.mark() + 1,
        _ => 0,
    }
}
