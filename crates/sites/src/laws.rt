ghost use Rattle.sites.specs.Sites.{SetsAreTold};

/// A set is told by its members, so `==` says whether two sets have the same.
#[tactic(auto, using(crate::proofs::Members::sets_told))]
pub fn sets_are_told()
    ensures { SetsAreTold }
{}
