ghost use Rattle.quorum.specs.Examples.{RuleExamples};
ghost use Rattle.quorum.specs.Laws.{VotesAreLawful, GridsAreLawful};

/// Votes with fair thresholds and grids are lawful, for any number of sites.
#[tactic(auto, using(crate::specs::Tallies::votes_lawful, crate::specs::Columns::grid_lawful))]
pub fn rules_are_lawful()
    ensures votes { VotesAreLawful }
    ensures grids { GridsAreLawful }
{}

/// The worked examples of votes and of a grid hold.
pub fn rule_examples_hold()
    ensures { RuleExamples }
{}
