//! Laws of EEVDF: each is the contract of a function that does nothing.
ghost use Rattle.bq_disc.specs.Discipline.{IsLawful};
ghost use Rattle.bq_eevdf.specs.Eevdf.{eevdf};
ghost use Rattle.bq_eevdf.specs.Eligibility.{LeastIsEligible};
ghost use Rattle.bq_eevdf.specs.EarliestChoice.{ChoiceIsEarliest};

/// EEVDF chooses a task exactly when there is one. The choice is one of the tasks, and equal sets give equal choices.
#[tactic(auto, using(crate::specs::Lawful::eevdf_lawful))]
pub fn eevdf_is_lawful()
    ensures { IsLawful eevdf }
{}

/// In every set of tasks, the task of least v is eligible.
#[tactic(auto, using(crate::proofs::EevdfLawLemmas::least_is_eligible))]
pub fn least_is_eligible()
    ensures { LeastIsEligible }
{}

/// The choice is one of the given tasks and eligible. None of the eligible ones comes before it by (deadline, id).
#[tactic(auto, using(crate::proofs::EarliestLemmas::choice_is_earliest))]
pub fn choice_is_earliest()
    ensures { ChoiceIsEarliest }
{}
