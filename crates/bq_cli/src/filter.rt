//! What is written for the whole of an input.
ghost use Rattle.std.specs.Prelude.{◌≡◌, IfOk, IfErr, OnOk, OnErr};
ghost use Rattle.std.specs.String.{string_bytes};
ghost use Rattle.std.specs.Io.KnownBytes.{Appends};
ghost use Rattle.bq_streams.specs.Counts.{counted_inner, failures_of};
ghost use Rattle.bq_streams.specs.Writing.{AppendsPart};
ghost use Rattle.bq_streams.specs.Faults.{IsWriteFault};
ghost use Rattle.bq_cli.specs.Filtering.{FiltersAll, AsmFilters, AsmFiltersInPart, FilteringBreaksOff, FilterWrites, IsFaultOf};

use bq_policy_file::{
    Answer, Options, ProgramForm, assembled, checked, disassembled, refused_options,
};
use bq_streams::{Counted, StreamFault, read_whole};
use std::alloc::{AllocError, Global};
use std::io::{Read, Write};

/// What makes one answer of the whole of an input.
#[derive(Drop)]
pub(crate) enum Filter {
    /// The assembler, by the form that it writes a program in.
    Asm(ProgramForm),
    /// The verifier of an image's hex.
    Check,
    /// The disassembler of a program's hex.
    Dis,
}

impl Filter {
    /// Answers an input.
    fn answer(&self, alloc: Global, input: &[u8]) -> Result<Answer, AllocError>
        ensures { IfOk result (λ a. FilterWrites self.now input.now a.accepted (string_bytes a.text)) }
    {
        match self {
            Filter::Asm(form) => assembled(alloc, form, input),
            Filter::Check => checked(alloc, input),
            Filter::Dis => disassembled(alloc, input),
        }
    }
}

/// Reads the whole of an input and writes what a filter answers. True if it accepted the input.
pub(crate) fn answer_all<R: Read, W: Write>(
    alloc: Global,
    filter: &Filter,
    input: &mut Counted<R>,
    output: &mut Counted<W>,
) -> Result<bool, StreamFault>
    ensures ok { IfOk result (FiltersAll (FilterWrites filter.now) (R.remaining (counted_inner input.old)) (R.remaining (counted_inner input.new))
        (W.contents (counted_inner output.old)) (W.contents (counted_inner output.new))) }
    ensures reads { OnOk result (failures_of input.new ≡ failures_of input.old) }
    ensures writes { OnOk result (failures_of output.new ≡ failures_of output.old) }
    ensures part { OnErr result (FilteringBreaksOff (FilterWrites filter.now) (R.remaining (counted_inner input.old)) (R.remaining (counted_inner input.new))
        (W.contents (counted_inner output.old)) (W.contents (counted_inner output.new))) }
    ensures fault { IfErr result (IsFaultOf input.old input.new output.old output.new) }
{
    let whole = read_whole(alloc, input)?;
    let answer = filter.answer(alloc, whole.as_slice())?;
    write_answer(&answer, output)
}

/// Reads an assembler text and writes what answers it in the form that the options ask for. Options that are refused are
/// answered before anything is read.
pub(crate) fn filter_asm<R: Read, W: Write>(
    alloc: Global,
    options: &Options,
    input: &mut Counted<R>,
    output: &mut Counted<W>,
) -> Result<bool, StreamFault>
    ensures ok { IfOk result (AsmFilters options.now (R.remaining (counted_inner input.old)) (R.remaining (counted_inner input.new))
        (W.contents (counted_inner output.old)) (W.contents (counted_inner output.new))) }
    ensures reads { OnOk result (failures_of input.new ≡ failures_of input.old) }
    ensures writes { OnOk result (failures_of output.new ≡ failures_of output.old) }
    ensures part { OnErr result (AsmFiltersInPart options.now (R.remaining (counted_inner input.old)) (R.remaining (counted_inner input.new))
        (W.contents (counted_inner output.old)) (W.contents (counted_inner output.new))) }
    ensures fault { IfErr result (IsFaultOf input.old input.new output.old output.new) }
{
    match options.form(alloc) {
        Ok(form) => answer_all(alloc, &Filter::Asm(form), input, output),
        Err(fault) => {
            let answer = refused_options(alloc, fault)?;
            write_answer(&answer, output)
        }
    }
}

/// Writes an answer. True if it accepts the input.
fn write_answer<W: Write>(answer: &Answer, output: &mut Counted<W>) -> Result<bool, StreamFault>
    ensures ok { IfOk result (λ accepted. (accepted ≡ answer.now.accepted)
        × Appends (W.contents (counted_inner output.old)) (W.contents (counted_inner output.new)) (string_bytes answer.now.text)) }
    ensures kept { OnOk result (failures_of output.new ≡ failures_of output.old) }
    ensures part { OnErr result (AppendsPart (W.contents (counted_inner output.old)) (W.contents (counted_inner output.new)) (string_bytes answer.now.text)) }
    ensures fault { IfErr result (λ e. IsWriteFault e (failures_of output.old) (failures_of output.new)) }
{
    output.write_text(answer.text.as_bytes())?;
    Ok(answer.accepted)
}
