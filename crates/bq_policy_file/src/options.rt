//! What the options of `asm` ask for.
ghost use Rattle.std.specs.Prelude.{◌≡◌, None, false, IfOk, IfErr};
ghost use Rattle.std.specs.String.{string_bytes};
ghost use Rattle.bq_policy_file.specs.Forms.{AsksForForm, HasOptionsFault, RefusesOptions};

use crate::Answer;
use crate::form::ProgramForm;
use crate::mark::Key;
use crate::shapes_text::shapes_of;
use bq_hooks::{Hook, Version};
use bq_verify::PolicyForm;
use std::alloc::{AllocError, Global};
use std::fmt;
use thiserror::Error;

/// The options of `asm`.
#[derive(Drop)]
pub struct Options {
    /// The choice that the program makes. If it is named, the image of the program is written; otherwise only the program.
    pub hook: Option<Hook>,
    /// The shapes of the program's maps, as in `8:2,16:4`; without it there are none.
    pub maps: Option<String>,
    /// The version of the image; 1 without it.
    pub format: Option<Version>,
}

/// Why options are refused.
#[derive(Clone, Copy, Debug, Error)]
pub enum OptionsFault {
    /// Maps are named without a hook, or by a text that names no shapes, or more than 8.
    Maps,
    /// A version is named without a hook.
    Format,
    /// Memory ran out, which says nothing of the options.
    OutOfMemory,
}

impl fmt::Display for OptionsFault {
    fn fmt<W: fmt::Write>(&self, f: &mut fmt::Formatter<W>) -> fmt::Result {
        f.write_str(match self {
            OptionsFault::Maps => Key::Maps.word(),
            OptionsFault::Format => Key::Format.word(),
            OptionsFault::OutOfMemory => "out of memory",
        })
    }
}

impl From<AllocError> for OptionsFault {
    ghost use Rattle.bq_policy_file.specs.declared.options.OptionsFault.TheVariants.{OutOfMemory};

    ghost from_gives = { λ _ e. e ≡ OutOfMemory };

    fn from(_e: AllocError) -> OptionsFault {
        OptionsFault::OutOfMemory
    }
}

impl Options {
    /// The form that the options ask for. If both faults are there, the error is `Maps`.
    pub fn form(&self, alloc: Global) -> Result<ProgramForm, OptionsFault>
        ensures ok { IfOk result (AsksForForm self.now) }
        ensures err { IfErr result (HasOptionsFault self.now) }
    {
        let Some(hook) = self.hook else {
            return self.program_alone();
        };
        let shapes = match &self.maps {
            None => Vec::new(alloc),
            Some(text) => match shapes_of(alloc, text.as_bytes())? {
                None => return Err(OptionsFault::Maps),
                Some(shapes) => shapes,
            },
        };
        Ok(ProgramForm::Image(PolicyForm {
            hook,
            version: self.format.unwrap_or(Version::First),
            shapes,
        }))
    }

    /// The form without a hook. No other option may be given beside it.
    fn program_alone(&self) -> Result<ProgramForm, OptionsFault>
        requires { self.now.hook ≡ None }
        ensures ok { IfOk result (AsksForForm self.now) }
        ensures err { IfErr result (HasOptionsFault self.now) }
    {
        if self.maps.is_some() {
            return Err(OptionsFault::Maps);
        }
        if self.format.is_some() {
            return Err(OptionsFault::Format);
        }
        Ok(ProgramForm::Program)
    }
}

/// The line that refuses options, for their fault. If memory runs out, that is the error.
pub fn refused_options(alloc: Global, fault: OptionsFault) -> Result<Answer, AllocError>
    ensures line { IfOk result (λ a. (o : Options) → HasOptionsFault o fault → RefusesOptions o (string_bytes a.text)) }
    ensures refused { IfOk result (λ a. a.accepted ≡ false) }
{
    match fault {
        OptionsFault::Maps => Answer::refused(alloc, Key::Maps.word()),
        OptionsFault::Format => Answer::refused(alloc, Key::Format.word()),
        OptionsFault::OutOfMemory => Err(AllocError),
    }
}
