//! What a text says of its program beside the instructions.
ghost use Rattle.std.specs.Prelude.{◌≤◌, length};
ghost use Rattle.std.specs.Option.{ForSome};
ghost use Rattle.bq_bpf.specs.declared.shape.TheConstants.{MAPS};

use crate::fault::{HeadCause, HeadFault, refusal};
use crate::mark::{Key, Mark, mark_of};
use crate::shapes_of;
use bq_bpf::MapShape;
use bq_hooks::{Hook, Version};
use std::alloc::Global;

/// What is said of a program beside its instructions: by the marks of a text, or by words of a command.
#[derive(Drop)]
pub struct Head {
    /// The choice that the program makes.
    pub hook: Option<Hook>,
    /// The shapes of its maps, at most 8.
    pub maps: Option<Vec<MapShape>>,
    /// The version of its image.
    pub format: Option<Version>,
    ghost few: { ForSome maps (λ shapes. length shapes.items ≤ MAPS) },
}

impl Head {
    ghost use Rattle.std.specs.Prelude.{◌≡◌, ◌∷◌, [], ◌++◌, List, ℕ, IfErr, OnOk, None};
    ghost use Rattle.bq_policy_file.specs.Heads.{StatesHead};
    ghost use Rattle.bq_policy_file.specs.Taking.{IsRefusedLine, IsRefusedValue, TakesValue};

    /// Nothing is said.
    pub fn nothing() -> Head
        ensures hook { result.hook ≡ None }
        ensures maps { result.maps ≡ None }
        ensures format { result.format ≡ None }
    {
        Head {
            hook: None,
            maps: None,
            format: None,
        }
    }

    /// Takes the line of this number, or answers what is wrong with it.
    pub(crate) fn take_line(
        &mut self,
        alloc: Global,
        number: usize,
        line: &[u8],
    ) -> Result<(), HeadFault>
        ensures ok { OnOk result ((before : List (List ℕ)) → StatesHead before self.old → StatesHead (before ++ line.now ∷ []) self.new) }
        ensures fault { IfErr result (IsRefusedLine self.old number line.now) }
    {
        match mark_of(line) {
            Mark::Nothing => Ok(()),
            Mark::Unknown => Err(refusal(number, HeadCause::Unknown)),
            Mark::States(key, value) => self.take_value(alloc, number, key, value),
        }
    }

    /// Takes the value that a mark says of a key.
    fn take_value(
        &mut self,
        alloc: Global,
        number: usize,
        key: Key,
        value: &[u8],
    ) -> Result<(), HeadFault>
        ensures ok { OnOk result (TakesValue self.old self.new key value.now) }
        ensures fault { IfErr result (IsRefusedValue self.old number key value.now) }
    {
        match key {
            Key::Hook => self.take_hook(number, value),
            Key::Maps => self.take_maps(alloc, number, value),
            Key::Format => self.take_format(number, value),
        }
    }

    /// Takes the hook that the line of this number states; refuses a second hook, and a word that names none.
    fn take_hook(&mut self, number: usize, value: &[u8]) -> Result<(), HeadFault>
        ensures ok { OnOk result (TakesValue self.old self.new Key.Hook value.now) }
        ensures fault { IfErr result (IsRefusedValue self.old number Key.Hook value.now) }
    {
        if self.hook.is_some() {
            return Err(refusal(number, HeadCause::Twice(Key::Hook)));
        }
        let Some(hook) = Hook::of_word(value) else {
            return Err(refusal(number, HeadCause::Value(Key::Hook)));
        };
        self.hook = Some(hook);
        Ok(())
    }

    /// Takes the maps that the line of this number states; refuses maps that are stated twice, and a value that names no shapes.
    fn take_maps(&mut self, alloc: Global, number: usize, value: &[u8]) -> Result<(), HeadFault>
        ensures ok { OnOk result (TakesValue self.old self.new Key.Maps value.now) }
        ensures fault { IfErr result (IsRefusedValue self.old number Key.Maps value.now) }
    {
        if self.maps.is_some() {
            return Err(refusal(number, HeadCause::Twice(Key::Maps)));
        }
        let Some(shapes) = shapes_of(alloc, value)? else {
            return Err(refusal(number, HeadCause::Value(Key::Maps)));
        };
        self.maps = Some(shapes);
        Ok(())
    }

    /// Takes the format that the line of this number states; refuses a second format, and a word that names none.
    fn take_format(&mut self, number: usize, value: &[u8]) -> Result<(), HeadFault>
        ensures ok { OnOk result (TakesValue self.old self.new Key.Format value.now) }
        ensures fault { IfErr result (IsRefusedValue self.old number Key.Format value.now) }
    {
        if self.format.is_some() {
            return Err(refusal(number, HeadCause::Twice(Key::Format)));
        }
        let Some(version) = Version::of_word(value) else {
            return Err(refusal(number, HeadCause::Value(Key::Format)));
        };
        self.format = Some(version);
        Ok(())
    }
}
