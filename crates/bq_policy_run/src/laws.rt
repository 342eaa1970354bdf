//! Laws of the inputs of a run and of what is said of it. Each is a theorem over its definitions, and its function does nothing.
ghost use Rattle.bq_policy_run.specs.FieldsLaw.{FieldsAreAsNamed};
ghost use Rattle.bq_policy_run.specs.PermittingLaw.{WordsAreTheRules};

/// If the context is that of a choice, the word on an answer is the scheduler's rule on it. It is `permitted` only if the rule
/// permits the answer, and `not permitted` only if the rule does not. It is neither for a task that may be movable and is not
/// shown.
pub fn words_are_the_rules()
    ensures { WordsAreTheRules }
{}

/// If the context is that of a choice, the field of each name holds what the name says of that choice, low byte first, and the
/// context is as long as its hook and version say.
pub fn fields_are_as_named()
    ensures { FieldsAreAsNamed }
{}
