//! Amounts that are summed over the commands of a replica.

/// Sums over the commands that a replica has run.
#[derive(Clone, Copy, Debug, PartialEq, Eq)]
pub struct Totals {
    /// The sum of all balances.
    pub held: u128,
    /// The sum of all deposits.
    pub deposits: u128,
    /// The sum of all withdrawals that were granted.
    pub withdrawals: u128,
}
