//! Calls of counters.

ghost use Rattle.std.specs.Prelude.{◌<◌, ◌≡◌, OnOk, IsOk, IfErr, ℤ};
ghost use Rattle.bq_transfer.specs.Obligations.{MayBeUnproven};
ghost use Rattle.bq_bpf.specs.Steps.{IsCounterCall};
ghost use Rattle.bq_transfer.specs.Ready.{IsAsking};
ghost use Rattle.bq_states.specs.Certainty.{IsAnswered};
ghost use Rattle.bq_transfer.specs.Transfers.{AsksFrom};

use crate::calls::{answer, is_at_most};
use crate::obligation::Obligation;
use bq_bpf::board::COUNTERS;
use bq_bpf::helper::{ADD_COUNTER, READ_COUNTER};
use bq_insn::{Insn, Width};
use bq_ranges::Range;
use bq_states::abstract_state::AbstractState;

/// The number of the last counter.
const LAST: u64 = COUNTERS as u64 - 1;

/// Changes the abstract state to the one after an add. The error is that it is not shown that register 1 is a counter and
/// register 2 an amount.
fn add(state: &mut AbstractState) -> Result<(), Obligation>
    ensures asks { OnOk result (AsksFrom (Insn.Call ADD_COUNTER) state.old state.new) }
    ensures accepts { IsAsking state.old ADD_COUNTER → IsOk result × IsAnswered state.old state.new }
    ensures obligations { IfErr result (λ obligation. (helper : ℤ) → MayBeUnproven obligation (Insn.Call helper)) }
{
    if !is_at_most(state, 1, LAST) {
        return Err(Obligation::Argument);
    }
    if !is_at_most(state, 2, u64::MAX) {
        return Err(Obligation::Argument);
    }
    answer(state, Range::full(Width::W64));
    Ok(())
}

/// Changes the abstract state to the one after a read. The error is that it is not shown that register 1 is a counter.
fn read(state: &mut AbstractState) -> Result<(), Obligation>
    ensures asks { OnOk result (AsksFrom (Insn.Call READ_COUNTER) state.old state.new) }
    ensures accepts { IsAsking state.old READ_COUNTER → IsOk result × IsAnswered state.old state.new }
    ensures obligations { IfErr result (λ obligation. (helper : ℤ) → MayBeUnproven obligation (Insn.Call helper)) }
{
    if !is_at_most(state, 1, LAST) {
        return Err(Obligation::Argument);
    }
    answer(state, Range::full(Width::W64));
    Ok(())
}

/// The abstract state after a call of a counter.
pub fn ask(state: &mut AbstractState, insn: Insn) -> Result<(), Obligation>
    requires { IsCounterCall insn }
    ensures asks { OnOk result (AsksFrom insn state.old state.new) }
    ensures accepts { (helper : ℤ) → insn ≡ Insn.Call helper → IsAsking state.old helper → IsOk result × IsAnswered state.old state.new }
    ensures obligations { IfErr result (λ obligation. MayBeUnproven obligation insn) }
{
    match insn {
        Insn::Call { helper } => {
            if helper == ADD_COUNTER {
                return add(state);
            }
            read(state)
        }
        _ => unreachable!(),
    }
}
