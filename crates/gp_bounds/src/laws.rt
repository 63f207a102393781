//! Laws of histories and their bounds. Each function does nothing, and its contract is the law.
//!
//! They are the properties that generalized consensus requires of command-structure sets (Lamport,
//! *Generalized Consensus and Paxos*, 2005), proved for command histories.
ghost use Rattle.std.specs.Prelude.{◌≡◌, ◌↔◌, ◌≤◌, ◌<◌, ◌^◌, ◌++◌, ◌∷◌, ℕ, List, false, true, IsTrue, length, take, slice_get, Some, IsSome};
ghost use Rattle.std.specs.List.{All, Contains};
ghost use Rattle.gp_command.specs.declared.command.Command.{Command};
ghost use Rattle.gp_command.specs.Conflict.{conflict};
ghost use Rattle.gp_history.specs.History.{History, IsHistory, IsPrefix, has, before, size, push, pushes};
ghost use Rattle.gp_history.specs.Sequence.{history_of, no_repeat};
ghost use Rattle.gp_history.specs.Canonical.{canonical, next_least};
ghost use Rattle.gp_history.specs.Bounds.{IsCompatible, UpperBound, IsGreatestLowerBound, IsLeastUpperBound, ArePairwiseCompatible, IsLeastUpperBoundOf, IsGreatestLowerBoundAt, meet, join, meet_all, join_all};

/// The prefix relation is a partial order of histories.
pub fn the_prefix_is_a_partial_order()
    ensures reflexive { (h : History) → IsHistory h → IsPrefix h h }
    ensures transitive { (h k u : History) → IsPrefix h k → IsPrefix k u → IsPrefix h u }
    ensures antisymmetric { (h k : History) → IsHistory h → IsHistory k → IsPrefix h k → IsPrefix k h → h ≡ k }
{}

/// A history is a prefix of another exactly if pushes extend it to the other.
pub fn the_prefix_is_extension_by_pushes()
    ensures { (h k : History) → IsHistory h → IsHistory k → IsPrefix h k ↔ ((cs : List Command) × (pushes h cs ≡ k)) }
{}

/// A history is a prefix of itself with a command pushed.
pub fn a_push_extends()
    ensures { (h : History) (c : Command) → IsHistory h → IsPrefix h (push h c) }
{}

/// A prefix with as many commands as the history is equal to it.
pub fn a_prefix_as_long_is_the_whole()
    ensures { (h k : History) → IsHistory h → IsHistory k → IsPrefix h k → size k ≤ size h → h ≡ k }
{}

/// The meet is the greatest lower bound.
pub fn the_meet_is_the_greatest_lower_bound()
    ensures history { (h k : History) → IsHistory h → IsHistory k → IsHistory (meet h k) }
    ensures greatest { (h k : History) → IsHistory h → IsHistory k → IsGreatestLowerBound h k (meet h k) }
{}

/// Two histories are compatible exactly if some history extends both.
pub fn compatible_histories_have_an_upper_bound()
    ensures { (h k : History) → IsHistory h → IsHistory k → IsCompatible h k ↔ UpperBound h k }
{}

/// The join of compatible histories is their least upper bound.
pub fn the_join_is_the_least_upper_bound()
    ensures history { (h k : History) → IsHistory h → IsHistory k → IsHistory (join h k) }
    ensures least { (h k : History) → IsHistory h → IsHistory k → IsCompatible h k → IsLeastUpperBound h k (join h k) }
{}

/// The join extends the first history, even if the two are not compatible.
pub fn the_join_extends_the_first()
    ensures { (h k : History) → IsHistory h → IsPrefix h (join h k) }
{}

/// Histories that are compatible in pairs have a least upper bound, which is their join. The order
/// of the list and duplicates in it do not matter.
pub fn many_that_are_compatible_in_pairs_have_a_least_upper_bound()
    ensures least { (hs : List History) → All IsHistory hs → ArePairwiseCompatible hs → IsLeastUpperBoundOf hs (join_all hs) }
    ensures any_order { (hs ks : List History) → All IsHistory hs → ArePairwiseCompatible hs → ((h : History) → Contains hs h ↔ Contains ks h) → join_all hs ≡ join_all ks }
{}

/// The meet of the histories that a mask names is their greatest lower bound. There is one if the
/// mask names a history, and no place after the end of the list.
pub fn the_meet_of_many_is_their_greatest_lower_bound()
    ensures greatest { (mask : ℕ) (hs : List History) (m : History) → All IsHistory hs → meet_all mask hs ≡ Some m → IsGreatestLowerBoundAt mask hs m }
    ensures some { (mask : ℕ) (hs : List History) → 0 < mask → mask < 2 ^ length hs → IsSome (meet_all mask hs) }
{}

/// A history that is compatible with each of two compatible histories is compatible with their
/// join.
pub fn three_that_are_compatible_in_pairs()
    ensures { (u v w : History) → IsHistory u → IsHistory v → IsHistory w → IsCompatible u v → IsCompatible u w → IsCompatible v w → IsCompatible u (join v w) }
{}

/// A command that two compatible histories have in common is in their meet.
pub fn what_is_common_is_in_the_meet()
    ensures { (h k : History) (c : Command) → IsHistory h → IsHistory k → IsCompatible h k → has h c ≡ true → has k c ≡ true → has (meet h k) c ≡ true }
{}

/// Compatible histories order their common commands alike, and are equal if they have the same
/// commands.
pub fn compatible_histories_are_alike()
    ensures ordered { (h k : History) (c d : Command) → IsCompatible h k → has h c ≡ true → has k c ≡ true → has h d ≡ true → has k d ≡ true → before h c d ≡ before k c d }
    ensures equal { (h k : History) → IsHistory h → IsHistory k → IsCompatible h k → ((c : Command) → has h c ≡ has k c) → h ≡ k }
{}

/// Equal histories have the same canonical sequence. It is a linear order of the history, without
/// duplicates, and `next_least` gives its commands one after another, starting from the empty
/// history.
pub fn the_canonical_sequence_stands_for_its_history()
    ensures one { (h k : History) → h ≡ k → canonical h ≡ canonical k }
    ensures stands { (h : History) → IsHistory h → history_of (canonical h) ≡ h }
    ensures distinct { (h : History) → IsHistory h → IsTrue (no_repeat (canonical h)) }
    ensures walked { (h : History) (i : ℕ) → i < length (canonical h) → next_least h (history_of (take i (canonical h))) ≡ slice_get (canonical h) i }
{}

/// Commands that do not conflict may be pushed in either order, and swapped if they are neighbours
/// in a sequence.
pub fn pushes_may_be_swapped()
    ensures pushes { (h : History) (c d : Command) → IsHistory h → conflict c d ≡ false → push (push h c) d ≡ push (push h d) c }
    ensures neighbours { (xs ys : List Command) (c d : Command) → conflict c d ≡ false → history_of (xs ++ c ∷ d ∷ ys) ≡ history_of (xs ++ d ∷ c ∷ ys) }
{}
