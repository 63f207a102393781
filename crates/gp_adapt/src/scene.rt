//! What the choice of a mode is based on.

/// Collisions are counted up to this number.
pub const MOST_CLASHES: u32 = 2;

/// What the closure of an adapting coordinator is given when a round begins.
#[derive(Clone, Copy, Debug, PartialEq, Eq)]
pub struct Scene {
    /// How many collisions there were since their count last returned to 0, at most `MOST_CLASHES`.
    pub clashes: u32,
    /// How many calls without a collision there were since the last collision or the last calm.
    pub quiet: u32,
}
