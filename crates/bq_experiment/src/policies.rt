//! The policies at the hooks of all processors.
ghost use Rattle.std.specs.Prelude.{◌≡◌, ℕ, List, [], Some, None, IfOk, IfErr, OnOk, OnErr};
ghost use Rattle.std.specs.Borrow.{Bor};
ghost use Rattle.std.specs.Option.{option_map};
ghost use Rattle.bq_policy_file.specs.Files.{IsPolicy, IsPolicyFault};
ghost use Rattle.bq_simulate.specs.Replays.{IsLoadedFromImage};
ghost use Rattle.bq_simulate.specs.Texts.{image_at};
ghost use Rattle.bq_experiment.specs.PoliciesAndImages.{AddsPolicy, AreOfTheirImages, image_for};
ghost use Rattle.bq_experiment.specs.Taking.{IsFileRefusal, IsRead, IsAttachFault, IsFaultOfFile, IsFaultOfImage, Attaches};

use bq_hooks::Hook;
use bq_installed::Policy;
use bq_load::{LoadFault, load};
use bq_policy_check::{HOOK_UNNAMED, fault_reason};
use bq_policy_file::{Head, PolicyFault, read_policy};
use bq_simulate::Images;
use std::alloc::{AllocError, AllocFailed, Global};
use std::marker::Model;
use thiserror::Error;

/// Why a file is no policy for a hook.
#[derive(Debug, Drop, Error)]
pub enum AttachFault {
    /// The file is no policy: why, in words.
    #[error("{0}")]
    File(String),
    /// The program of the file is not accepted.
    #[error("refused {0}")]
    Program(LoadFault),
    #[error("the policy is for another hook")]
    Hook,
    #[error("another policy is for the same hook")]
    Twice,
    #[error("out of memory")]
    OutOfMemory,
}

/// The policies, and the image of each, in the order in which they came. Each policy is that of the image at its hook.
#[derive(Drop)]
pub struct Policies {
    loaded: Vec<Policy>,
    images: Vec<(Hook, Vec<u8>)>,
}

impl Model for Policies {
    ghost use Rattle.bq_experiment.specs.PoliciesAndImages.{AreOfTheirImages, PoliciesAndImages, with_images};

    ghost Value = { PoliciesAndImages };

    ghost view = { λ p. with_images p.loaded.items p.images.items };

    ghost invariant = { λ p. AreOfTheirImages (with_images p.loaded.items p.images.items) };
}

impl Policies {
    /// Begins with no policy at any hook.
    pub fn new(alloc: Global) -> Policies
        ensures loaded { result.loaded ≡ [] }
        ensures images { result.images ≡ [] }
    {
        Policies {
            loaded: Vec::new(alloc),
            images: Vec::new(alloc),
        }
    }

    /// Returns the policies. Each is that of the image at its hook.
    pub fn loaded(&self) -> &[Policy]
        ensures value { result.now ≡ self.now.loaded }
        ensures of_images { AreOfTheirImages self.now }
    {
        self.loaded.as_slice()
    }

    /// Adds the policy for this hook that a file holds: an image, the hex of one, or an assembler text. Marks at the head of a
    /// text say its maps and its format. A second policy for a hook is refused. If the policy is not added, all is as it was.
    pub fn add(&mut self, alloc: Global, hook: Hook, file: &[u8]) -> Result<(), AttachFault>
        ensures taken { OnOk result (Attaches (IsRead (Some hook) file.now) hook self.old self.new) }
        ensures refused { OnErr result (self.new ≡ self.old) }
        ensures reported { IfErr result (IsAttachFault (IsRead (Some hook) file.now) (IsFileRefusal (Some hook) file.now) self.old) }
    {
        let mut asked = Head::nothing();
        asked.hook = Some(hook);
        self.add_asked(alloc, &asked, file)
    }

    /// Adds the policy that a file holds, as `add` does, for the hook that the file says.
    pub fn add_by_head(&mut self, alloc: Global, file: &[u8]) -> Result<(), AttachFault>
        ensures taken { OnOk result ((hook : Hook) × Attaches (IsRead None file.now) hook self.old self.new) }
        ensures refused { OnErr result (self.new ≡ self.old) }
        ensures reported { IfErr result (IsAttachFault (IsRead None file.now) (IsFileRefusal None file.now) self.old) }
    {
        self.add_asked(alloc, &Head::nothing(), file)
    }

    /// Adds the policy of a file that agrees with what was asked for.
    fn add_asked(&mut self, alloc: Global, asked: &Head, file: &[u8]) -> Result<(), AttachFault>
        ensures taken { OnOk result ((hook : Hook) × Attaches (IsPolicy file.now asked.now) hook self.old self.new) }
        ensures refused { OnErr result (self.new ≡ self.old) }
        ensures reported { IfErr result (IsAttachFault (IsPolicy file.now asked.now) (IsPolicyFault file.now asked.now) self.old) }
    {
        let read = match read_policy(alloc, file, asked) {
            Ok(read) => read,
            Err(fault) => return Err(reported(alloc, file, fault)),
        };
        if self.image_at(read.form.hook).is_some() {
            return Err(AttachFault::Twice);
        }
        let image = read.image(alloc)?;
        let policy = policy_of(alloc, image.as_slice())?;
        self.keep(read.form.hook, image, policy)
    }

    /// Keeps a policy and its image, for a hook at which none is.
    fn keep(&mut self, hook: Hook, image: Vec<u8>, policy: Policy) -> Result<(), AttachFault>
        requires of { IsLoadedFromImage (Some image.items) policy }
        requires hook { policy.hook ≡ hook }
        requires free { image_for self.old.images hook ≡ None }
        ensures adds { OnOk result (AddsPolicy hook image.items policy self.old self.new) }
        ensures refused { OnErr result (self.new ≡ self.old) }
        ensures other { IfErr result (λ fault. fault ≡ AttachFault.OutOfMemory) }
    {
        let count = self.images.len();
        self.images.push((hook, image))?;
        if let Err(_) = self.loaded.push(policy) {
            self.images.truncate(count);
            return Err(AttachFault::OutOfMemory);
        }
        Ok(())
    }

    /// Returns the image at a hook.
    pub fn image_at(&self, hook: Hook) -> Option<&[u8]>
        ensures { option_map (λ (b : Bor (List ℕ)). b.now) result ≡ image_for self.now.images hook }
    {
        'images: for (place, image) in &self.images {
            if *place == hook {
                return Some(image.as_slice());
            }
        }
        None
    }

    /// Returns the images at all hooks.
    pub fn images(&self) -> Images<'_>
        ensures { image_at result ≡ image_for self.now.images }
    {
        Images {
            place: self.image_at(Hook::Place),
            preempt: self.image_at(Hook::Preempt),
            pull: self.image_at(Hook::Pull),
        }
    }
}

impl From<AllocError> for AttachFault {
    ghost use Rattle.std.specs.Prelude.{◌≡◌};
    ghost use Rattle.bq_experiment.specs.declared.policies.AttachFault.TheVariants.{OutOfMemory};

    ghost from_gives = { λ _ e. e ≡ OutOfMemory };

    fn from(_e: AllocError) -> AttachFault {
        AttachFault::OutOfMemory
    }
}

impl<T: Drop> From<AllocFailed<T>> for AttachFault {
    ghost use Rattle.std.specs.Prelude.{◌≡◌};
    ghost use Rattle.bq_experiment.specs.declared.policies.AttachFault.TheVariants.{OutOfMemory};

    ghost from_gives = { λ _ e. e ≡ OutOfMemory };

    fn from(_e: AllocFailed<T>) -> AttachFault {
        AttachFault::OutOfMemory
    }
}

/// Says why the file is no policy for the hook, in words.
fn reported(alloc: Global, file: &[u8], fault: PolicyFault) -> AttachFault
    ensures { IsFaultOfFile fault result }
{
    let why = match fault {
        PolicyFault::Disagrees(_) => return AttachFault::Hook,
        PolicyFault::OutOfMemory => return AttachFault::OutOfMemory,
        PolicyFault::NoHook => String::from_str(alloc, HOOK_UNNAMED),
        fault => fault_reason(alloc, file, fault),
    };
    match why {
        Ok(why) => AttachFault::File(why),
        Err(_) => AttachFault::OutOfMemory,
    }
}

/// Loads the policy of an image.
fn policy_of(alloc: Global, image: &[u8]) -> Result<Policy, AttachFault>
    ensures of { IfOk result (IsLoadedFromImage (Some image.now)) }
    ensures reported { IfErr result (IsFaultOfImage image.now) }
{
    let program = match load(alloc, image) {
        Ok(program) => program,
        Err(LoadFault::OutOfMemory) => return Err(AttachFault::OutOfMemory),
        Err(fault) => return Err(AttachFault::Program(fault)),
    };
    Ok(Policy::new(alloc, program)?)
}
