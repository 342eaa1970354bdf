//! Fields of the context from the words of a command.
ghost use Rattle.std.specs.Prelude.{◌≡◌, ◌<◌, ◌↔◌, ◌^◌, ℕ, [], IfErr, IfNone, IfSome, IsOk, IsTrue, codes, true};
ghost use Rattle.std.specs.Result.{OnOk};
ghost use Rattle.bq_console.specs.Words.{GivesNone};
ghost use Rattle.bq_policy_run.specs.Naming.{IsFieldWord, SetsField, SetsFields, TextsInTurn, shows_nobody};
ghost use Rattle.bq_policy_run.specs.Runs.{ChangesOnlyContext};

use crate::faults::refused;
use crate::fields::{Field, field_named, field_names, put};
use crate::inputs::Inputs;
use bq_console::words::{cut, value};
use bq_console::{WordsFault, value_words, words_fault};
use bq_hooks::{Hook, NOBODY, Version};
use std::alloc::Global;

impl Inputs {
    /// Sets the fields that texts name, one after another. Texts are refused only if one of them names no fields, or a value
    /// that does not fit; if there is no text, nothing is refused. What texts before a refused one set stays, and so do its own
    /// fields before the refused one.
    pub fn set_all_fields(
        &mut self,
        alloc: Global,
        hook: Hook,
        version: Version,
        texts: &[String],
    ) -> Result<(), WordsFault>
        ensures context { OnOk result (TextsInTurn (SetsFields hook version) texts.now self.old.context.items self.new.context.items) }
        ensures refused { IfErr result (GivesNone (TextsInTurn (SetsFields hook version) texts.now self.old.context.items)) }
        ensures others { ChangesOnlyContext self.old self.new }
        ensures none { texts.now ≡ [] → IsOk result }
    {
        for text in texts {
            self.set_fields(alloc, hook, version, text.as_str())?;
        }
        Ok(())
    }

    /// Sets the fields that a text names, as `task=3,mask=0x6,load.1=2` does. A text is refused only if it names none. What its
    /// fields before a refused one set stays.
    pub fn set_fields(
        &mut self,
        alloc: Global,
        hook: Hook,
        version: Version,
        text: &str,
    ) -> Result<(), WordsFault>
        ensures context { OnOk result (SetsFields hook version text.now self.old.context.items self.new.context.items) }
        ensures refused { IfErr result (GivesNone (SetsFields hook version text.now self.old.context.items)) }
        ensures others { ChangesOnlyContext self.old self.new }
    {
        for part in text.split(',') {
            self.set_field(alloc, hook, version, part)?;
        }
        Ok(())
    }

    /// Sets the field that one part of a text names, as `task=3` does.
    fn set_field(
        &mut self,
        alloc: Global,
        hook: Hook,
        version: Version,
        part: &str,
    ) -> Result<(), WordsFault>
        ensures context { OnOk result (SetsField hook version part.now self.old.context.items self.new.context.items) }
        ensures refused { IfErr result (GivesNone (SetsField hook version part.now self.old.context.items)) }
        ensures others { ChangesOnlyContext self.old self.new }
    {
        put_field(self.context.as_mut_slice(), alloc, hook, version, part)
    }
}

/// Puts the word that a part names into the field that it names.
fn put_field(
    context: &mut [u8],
    alloc: Global,
    hook: Hook,
    version: Version,
    part: &str,
) -> Result<(), WordsFault>
    ensures context { OnOk result (SetsField hook version part.now context.old context.new) }
    ensures refused { IfErr result (GivesNone (SetsField hook version part.now context.old)) }
{
    let Some((name, text)) = cut(part, '=') else {
        return Err(refused(alloc, "set", part, "a field is set as task=3"));
    };
    let Some(word) = field_word(hook, name, text) else {
        return Err(wrong_field(alloc, hook, version, part, name));
    };
    let Some(field) = field_named(hook, version, name) else {
        return Err(unknown(alloc, name, hook));
    };
    if !put(context, field, word) {
        return Err(unfit(alloc, hook, part, name, field));
    }
    Ok(())
}

/// Returns the word that a text writes for the field of that name: a number, or `none` if the field may show that there is no
/// such task or processor.
fn field_word(hook: Hook, name: &str, text: &str) -> Option<u64>
    ensures some { IfSome result (IsFieldWord hook name.now text.now) }
    ensures none { IfNone result ((word : ℕ) → word < 2 ^ 64 → ¬ IsFieldWord hook name.now text.now word) }
{
    match value(text) {
        Some(word) => Some(word),
        None if is_nobody(hook, name, text) => Some(u64::from(NOBODY)),
        None => None,
    }
}

/// Returns whether a text is `none`, and the field of that name may show that there is no such task or processor.
fn is_nobody(hook: Hook, name: &str, text: &str) -> bool
    ensures { IsTrue result ↔ ((text.now ≡ codes "none") × (shows_nobody hook name.now ≡ true)) }
{
    text == "none" && shows_nobody(hook, name)
}

/// Returns whether the field of that name may show that there is no such task or processor.
fn shows_nobody(hook: Hook, name: &str) -> bool
    ensures { result ≡ shows_nobody hook name.now }
{
    match hook {
        Hook::Place => name == "waker" || name == "previous" || name == "own",
        Hook::Preempt => name == "next",
        Hook::Pull => name == "own",
    }
}

/// Makes the fault of a part whose value is no word: its field is unknown, or takes another value.
fn wrong_field(alloc: Global, hook: Hook, version: Version, part: &str, name: &str) -> WordsFault {
    match field_named(hook, version, name) {
        Some(field) => unfit(alloc, hook, part, name, field),
        None => unknown(alloc, name, hook),
    }
}

/// Makes the fault of a part whose value the field does not take.
fn unfit(alloc: Global, hook: Hook, part: &str, name: &str, field: Field) -> WordsFault {
    let bits = field.width.bits();
    let nobody = if shows_nobody(hook, name) {
        ", or none"
    } else {
        ""
    };
    let right = format!(in alloc; "{name} is a whole number of at most {bits} bits{nobody}");
    match right {
        Ok(right) => refused(alloc, "set", part, &right),
        Err(_) => WordsFault::OutOfMemory,
    }
}

/// Makes the fault of a name that no field of the hook has, with the names that there are.
fn unknown(alloc: Global, name: &str, hook: Hook) -> WordsFault {
    let Ok(names) = field_names(alloc, hook) else {
        return WordsFault::OutOfMemory;
    };
    let known = before_ranges(names.as_str());
    match format!(in alloc; "there is no such field; the fields are {names}") {
        Ok(right) => words_fault(value_words(alloc, "set", name, &right, known)),
        Err(_) => WordsFault::OutOfMemory,
    }
}

/// Returns the part of a list of names before the first ` to `: names and commas alone.
fn before_ranges(names: &str) -> &str {
    match names.split_once(" to ") {
        Some((known, _)) => known,
        None => names,
    }
}
