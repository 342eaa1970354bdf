//! The laws of contexts and choices, each as the contract of a function that does nothing.
ghost use Rattle.bq_hooks.specs.Laws.{ContextsAreBytes, OwnChoicesArePermitted, SettledIsPermitted};
ghost use Rattle.bq_hooks.specs.PlaceLaw.{OwnPlaceIsLawful};

/// Every context is of its hook's length and consists of bytes, whatever it shows.
pub fn contexts_are_bytes()
    ensures { ContextsAreBytes }
{}

/// Each of the discipline's own choices is permitted: a place if the task has a processor that it may use, an answer to
/// preempt always, and a pull if no two tasks of the queue share an id.
pub fn own_choices_are_permitted()
    ensures { OwnChoicesArePermitted }
{}

/// A settled choice is permitted if the discipline's own choice is.
pub fn settled_is_permitted()
    ensures { SettledIsPermitted }
{}

/// A task that may use some processor of the machine has a place of its own. The place is a processor that it may use, none
/// of those has less load, and of those of equal load it is the previous one, or, if that is not one of them, the one of the least number.
pub fn own_place_is_lawful()
    ensures { OwnPlaceIsLawful }
{}
