//! What patrons are told about loans and holds.

ghost use Rattle.circ_core.specs.Owners.{OwnersAreKeptApart};

/// To a patron who renews or cancels, another's loan or hold is unknown, like one that doesn't
/// exist; for their own, or what names neither, the answer is the desk's.
#[tactic(auto, using(crate::proofs::OwnersApart::owners_apart))]
pub fn owners_law()
    ensures { OwnersAreKeptApart }
{}
