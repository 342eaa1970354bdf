//! What an image lacks, in words.
use bq_bpf::{with_map_limits, with_slots};
use bq_hooks::{with_hooks, with_versions};
use bq_insn::fault::DecodeCause;
use bq_load::LoadFault;

/// Says what is wrong with the bytes of an image.
pub(crate) fn image_fault_text(fault: LoadFault) -> &'static str {
    match fault {
        LoadFault::Magic => "the bytes do not begin with the letters BQPI: this is no image",
        LoadFault::Version => with_versions!("the version, byte 4, is neither ", " nor ", ""),
        LoadFault::Hook => with_hooks!("the hook, byte 5, is not 0 (", "), 1 (", ") or 2 (", ")"),
        LoadFault::Shape => with_map_limits!(
            "the size of a value is not ",
            ", or the number of entries is not ",
            ", or there are more than ",
            " maps"
        ),
        LoadFault::Cut => "the bytes end before the image does",
        LoadFault::Rest => "bytes stand after the program",
        LoadFault::Decode { cause, .. } => spelling_fault_text(cause),
        LoadFault::Refused { .. } => "the program is not shown to be safe",
        LoadFault::OutOfMemory => "out of memory",
    }
}

/// Says what is wrong with the bytes of an instruction.
pub(crate) fn spelling_fault_text(cause: DecodeCause) -> &'static str {
    match cause {
        DecodeCause::Length => with_slots!("a program has ", " slots of 8 bytes"),
        DecodeCause::Opcode =>
            "the first byte names no instruction; docs/INSTRUCTIONS.md has those that there are",
        DecodeCause::Register => "a register is not one of r0 to r10",
        DecodeCause::Field =>
            "a field that the instruction does not use is not 0, in its first slot or in its second",
        DecodeCause::Offset =>
            "the offset names no form of the instruction, or the source field no kind of call or wide load",
        DecodeCause::Imm =>
            "the immediate is no width that a byte order has (docs/INSTRUCTIONS.md)",
        DecodeCause::WideCut => "a wide instruction stands in the last slot, and has no second one",
    }
}
