//! Policies that may be installed.
ghost use Rattle.std.specs.Prelude.{◌≡◌, ◌↔◌, IfOk, IsTrue};
ghost use Rattle.bq_installed.specs.Standing.{WasAccepted};

use crate::same::same_slots;
use bq_bpf::same_shapes;
use bq_hooks::{Hook, Version};
use bq_verify::Verified;
use std::alloc::{AllocError, Global};
use std::marker::Model;
use std::sync::Arc;

/// A verified program that makes a hook's choice. It may be installed at many processors, which share its code. Each of them
/// has its own maps. Contracts see the accepted program.
#[derive(Drop)]
pub struct Policy {
    program: Arc<Verified>,
}

impl Model for Policy {
    ghost use Rattle.std.specs.Arc.{arc_value};
    ghost use Rattle.bq_verify.specs.Accepted.{Accepted};
    ghost use Rattle.bq_installed.specs.Standing.{WasAccepted};

    ghost Value = { Accepted };

    ghost view = { λ p. arc_value p.program };

    ghost invariant = { λ p. WasAccepted (arc_value p.program) };
}

impl Policy {
    /// The policy of a verified program. The only error is that memory runs out.
    pub fn new(alloc: Global, program: Verified) -> Result<Policy, AllocError>
        ensures { IfOk result (λ p. p ≡ program) }
    {
        let _accepted = program.slots();
        let program = Arc::new(alloc, program)?;
        Ok(Policy { program })
    }

    /// Its program, which was accepted.
    pub fn program(&self) -> &Verified
        ensures value { result.now ≡ self.now }
        ensures accepted { WasAccepted self.now }
    {
        &self.program
    }

    /// The hook whose choice it makes.
    pub fn hook(&self) -> Hook
        ensures { result ≡ self.now.hook }
    {
        self.program().hook()
    }

    /// The version of its image, on which the length of a place context depends.
    pub fn version(&self) -> Version
        ensures { result ≡ self.now.version }
    {
        self.program().version()
    }

    /// Whether both are the same program, for the same hook, with the same version, shapes and budget.
    pub fn is_same(&self, other: &Policy) -> bool
        ensures { IsTrue result ↔ (self.now ≡ other.now) }
    {
        let (program, other) = (self.program(), other.program());
        if program.budget() != other.budget() {
            return false;
        }
        if !same_hook(program.hook(), other.hook()) {
            return false;
        }
        if !same_version(program.version(), other.version()) {
            return false;
        }
        if !same_shapes(program.shapes(), other.shapes()) {
            return false;
        }
        same_slots(program.slots(), other.slots())
    }
}

impl Clone for Policy {
    ghost use Rattle.std.specs.Prelude.{◌≡◌};

    ghost is_clone = { λ p q. q ≡ p };

    /// A copy of the policy, to be installed elsewhere. It takes no memory. Fails only if the reference count would overflow.
    fn clone(&self) -> Result<Policy, AllocError> {
        let program = Arc::try_clone(&self.program)?;
        Ok(Policy { program })
    }
}

fn same_hook(hook: Hook, other: Hook) -> bool
    ensures { IsTrue result ↔ (hook ≡ other) }
{
    hook == other
}

fn same_version(version: Version, other: Version) -> bool
    ensures { IsTrue result ↔ (version ≡ other) }
{
    version == other
}
