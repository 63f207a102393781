//! Which record may follow a list.
ghost use Rattle.std.specs.Prelude.{List, ◌++◌};
ghost use Rattle.gp_msg.specs.declared.record.Record.{Record};
ghost use Rattle.gp_wire.specs.Lists.{Each};
ghost use Rattle.gp_wire.specs.Legal.{LegalFrom, IsOfOther};

/// Which records are legal after a list of records. What a value allows may depend on its fields. A
/// wire knows nothing else of the protocol.
pub trait Rules: Copy {
    ghost legal: { Self → List Record → Record → Type 0 };

    /// A record that is legal after a list stays legal when legal records of other nodes follow
    /// that list. So a node can make its record before its turn, from what it has seen.
    ghost stays: { (r : Self) (xs ys : List Record) (x : Record) → legal r xs x → LegalFrom (legal r) xs ys → Each (IsOfOther x) ys → legal r (xs ++ ys) x };
}
