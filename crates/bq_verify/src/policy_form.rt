//! What a policy has beside its instructions.
ghost use Rattle.std.specs.Prelude.{◌≤◌, length};
ghost use Rattle.bq_bpf.specs.declared.shape.TheConstants.{MAPS};

use bq_bpf::MapShape;
use bq_hooks::{Hook, Version, context_length};

/// What a policy has beside its instructions: its hook, the version of its image, and the shapes of its maps.
#[derive(Drop)]
pub struct PolicyForm {
    /// The hook: which choice the policy makes.
    pub hook: Hook,
    /// The version of the image. The length of the context depends on the version.
    pub version: Version,
    /// The shapes of the maps, in the order of their numbers; at most 8.
    pub shapes: Vec<MapShape>,
    pub ghost few: { length shapes.items ≤ MAPS },
}

impl PolicyForm {
    ghost use Rattle.std.specs.Prelude.{◌≡◌};
    ghost use Rattle.bq_verify.specs.Subjects.{context_size_of};

    /// How many bytes the context of the policy has.
    pub fn context_length(&self) -> usize
        ensures { result ≡ context_size_of self.now }
    {
        context_length(self.hook, self.version)
    }
}
