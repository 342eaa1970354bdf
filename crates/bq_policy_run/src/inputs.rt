//! What a run is given.
ghost use Rattle.std.specs.Prelude.{◌≡◌, ◌≢◌, List, ℕ, IfErr, IfNone, IfOk, IfSome, length, replicate};
ghost use Rattle.std.specs.Result.{OnErr, OnOk};
ghost use Rattle.hex.specs.Hex.{decode_of};
ghost use Rattle.bq_hooks.specs.Hooks.{context_length_of};
ghost use Rattle.bq_bpf.specs.declared.board.TheConstants.{COUNTERS};
ghost use Rattle.bq_console.specs.Words.{GivesNone};
ghost use Rattle.bq_policy_run.specs.Naming.{AreZeroMaps, IsContextNamed};
ghost use Rattle.bq_policy_run.specs.Runs.{ChangesOnlyContext};

use crate::faults::refused;
use bq_bpf::{Env, Plain};
use bq_console::WordsFault;
use bq_hooks::context_length;
use bq_maps::Maps;
use bq_verify::Verified;
use std::alloc::{AllocError, Global};

/// What a run is given beside its program.
#[derive(Drop)]
pub struct Inputs {
    /// The bytes that it is shown.
    pub context: Vec<u8>,
    /// Its maps before the run.
    pub maps: Maps,
    /// The time and the processor.
    pub env: Env,
    /// The counters before the run.
    pub board: Plain,
}

/// Makes the inputs if no option names any: all bytes, maps and counters are 0.
pub fn inputs_of(alloc: Global, verified: &Verified, env: Env) -> Result<Inputs, AllocError>
    ensures context { IfOk result (λ i. i.context.items ≡ replicate (context_length_of verified.now.hook verified.now.version) 0) }
    ensures maps { IfOk result (λ i. AreZeroMaps verified.now.shapes i.maps) }
    ensures env { IfOk result (λ i. i.env ≡ env) }
    ensures board { IfOk result (λ i. i.board ≡ replicate COUNTERS 0) }
{
    let length = context_length(verified.hook(), verified.version());
    let context = vec![in alloc; 0; length]?;
    let maps = Maps::new(alloc, verified.shapes())?;
    let board = Plain::new();
    Ok(Inputs {
        context,
        maps,
        env,
        board,
    })
}

impl Inputs {
    /// Replaces the context by the bytes of a hex text, of the same length. A text is refused only if it writes no such bytes.
    pub fn set_context(&mut self, alloc: Global, text: &str) -> Result<(), WordsFault>
        ensures context { OnOk result (IsContextNamed (Some text.now) (length self.old.context.items) self.new.context.items) }
        ensures refused { IfErr result (GivesNone (IsContextNamed (Some text.now) (length self.old.context.items))) }
        ensures left { OnErr result (self.new ≡ self.old) }
        ensures others { ChangesOnlyContext self.old self.new }
    {
        let Some(bytes) = bytes_named(alloc, text)? else {
            return Err(refused(alloc, "ctx", text, "a context is hex, two digits a byte"));
        };
        let wanted = self.context.len();
        let count = bytes.len();
        if wanted != count {
            let right = format!(in alloc;
                "the context of the hook has {wanted} bytes, not {count}"
            )?;
            return Err(refused(alloc, "ctx", text, &right));
        }
        self.context = bytes;
        Ok(())
    }
}

/// Returns the bytes of a hex text, if it is one.
pub(crate) fn bytes_named(alloc: Global, text: &str) -> Result<Option<Vec<u8>>, AllocError>
    ensures some { IfOk result (λ named. IfSome named (λ bytes. decode_of text.now ≡ Ok bytes.items)) }
    ensures none { IfOk result (λ named. IfNone named ((bytes : List ℕ) → decode_of text.now ≢ Ok bytes)) }
{
    match hex::decode(alloc, text.as_bytes()) {
        Ok(bytes) => Ok(Some(bytes)),
        Err(hex::FromHexError::OutOfMemory) => Err(AllocError),
        Err(_) => Ok(None),
    }
}
