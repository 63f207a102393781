//! Laws of disks that are lent and given back. Each function does nothing, and its contract is the
//! law.
ghost use Rattle.std.specs.Prelude.{◌≡◌, ◌<◌, ◌≤◌, ℕ, List, length, slice_get};
ghost use Rattle.gp_round.specs.Counts.{Counts};
ghost use Rattle.gp_shelf.specs.Places.{logged, place_at};
ghost use Rattle.gp_shelf.specs.Lists.{lent_of, unlent_of, shelved, KeepsOthers};

/// Node k, counted among the nodes with a log, is lent the disk at its place.
pub fn each_node_is_lent_its_own_disk<D>()
    ensures { (n : Counts) → n.acceptors ≤ 7 → n.coordinators ≤ 5 → (disks : List D) → length disks ≡ 12
        → (k : ℕ) → k < logged n → slice_get (lent_of n disks) k ≡ slice_get disks (place_at n k) }
{}

/// The disk that comes back from node k is put at the place of that node, and each disk of no node
/// at its own place.
pub fn each_disk_is_given_back_in_its_place<D>()
    ensures nodes { (n : Counts) → n.acceptors ≤ 7 → n.coordinators ≤ 5 → (disks lent : List D) → length disks ≡ 12 → length lent ≡ logged n
        → (k : ℕ) → k < logged n → slice_get (shelved n (unlent_of n disks) lent) (place_at n k) ≡ slice_get lent k }
    ensures others { (n : Counts) → n.acceptors ≤ 7 → n.coordinators ≤ 5 → (disks lent : List D) → length disks ≡ 12 → length lent ≡ logged n
        → KeepsOthers n disks (shelved n (unlent_of n disks) lent) }
{}

/// If disks are given back as they were lent, all disks are as before.
pub fn disks_come_back_as_they_were<D>()
    ensures { (n : Counts) → n.acceptors ≤ 7 → n.coordinators ≤ 5 → (disks : List D) → length disks ≡ 12
        → shelved n (unlent_of n disks) (lent_of n disks) ≡ disks }
{}
