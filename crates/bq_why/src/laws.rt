//! Laws of what the form says of a choice: each is the contract of a function that does nothing.
ghost use Rattle.bq_why.specs.Laws.{EligibleUpToTheMean, LowerIdWins, NamesThePull};

/// A task is eligible exactly when its v is at most the mean that is shown. So a lag has the sign of the mean less v.
#[tactic(auto, using(crate::proofs::LawLemmas::eligible_up_to_the_mean))]
pub fn eligible_up_to_the_mean()
    ensures { EligibleUpToTheMean }
{}

/// If another eligible task has the same deadline as the choice, the choice has the lower id. Under CFS this holds for another task
/// of the same virtual runtime.
#[tactic(auto, using(crate::proofs::LawLemmas::lower_id_wins))]
pub fn lower_id_wins()
    ensures { LowerIdWins }
{}

/// The discipline takes a task at a pull exactly when the form says `OwnPull::Greatest`.
#[tactic(auto, using(crate::proofs::LawLemmas::names_the_pull))]
pub fn names_the_pull()
    ensures { NamesThePull }
{}
