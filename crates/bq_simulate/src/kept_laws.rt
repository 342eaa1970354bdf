//! Laws of what is kept of a simulation between two things that come due.
ghost use Rattle.bq_simulate.specs.KeptLaws.{AllIsKept, BeginningsAreKept, FewComeAtOnce, FewComeUntilTheEnd, GenerationsAreNewer, StandingIsKept};

/// Whatever is done, each task is at an action of its kind, if each was before.
pub fn standing_is_kept()
    ensures { StandingIsKept }
{}

/// All is kept once a simulation has opened, until the next thing comes, and when that is met.
pub fn all_is_kept()
    ensures { AllIsKept }
{}

/// All is kept wherever a simulation has been followed to.
pub fn beginnings_are_kept()
    ensures { BeginningsAreKept }
{}

/// A generation that is drawn is newer than the generations at all hooks.
pub fn generations_are_newer()
    ensures { GenerationsAreNewer }
{}

/// At each instant fewer things may still come than are counted for one instant, and each that is met takes at least
/// one of them.
pub fn few_come_at_once()
    ensures { FewComeAtOnce }
{}

/// Fewer things come in all than are counted for all instants until the end.
pub fn few_come_until_the_end()
    ensures { FewComeUntilTheEnd }
{}
