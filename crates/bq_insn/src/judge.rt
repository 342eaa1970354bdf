//! What is wrong with the instruction that begins at a slot.
ghost use Rattle.std.specs.Prelude.{◌≡◌};
ghost use Rattle.bq_insn.specs.Faults.{is_no_register, is_stray, has_bad_register, has_stray_field, has_stray_second, is_variant, has_no_variant, has_no_width, is_cut, cause_at_slot};

use crate::fault::DecodeCause;
use crate::form::Form;
use crate::slot::Slot;
use crate::uses::{Use, Uses};
use crate::{Operation, Width};

/// The least cause at a slot of this form, with the slot after it if there is one; `None` if there is no fault. The
/// decoder finds an opcode without a form and a wrong length before it asks this.
pub fn cause_at(form: Form, slot: Slot, next: Option<Slot>) -> Option<DecodeCause>
    ensures { result ≡ cause_at_slot form slot next }
{
    if has_bad_register(form.uses(), slot) {
        return Some(DecodeCause::Register);
    }
    if has_stray_field(form.uses(), slot) || has_stray_second(form, slot, next) {
        return Some(DecodeCause::Field);
    }
    if has_no_variant(form, slot) {
        return Some(DecodeCause::Offset);
    }
    if has_no_width(form, slot) {
        return Some(DecodeCause::Imm);
    }
    if is_cut(form, next) {
        return Some(DecodeCause::WideCut);
    }
    None
}

/// Whether a field that names a register is over 10.
fn has_bad_register(uses: Uses, slot: Slot) -> bool
    ensures { result ≡ has_bad_register uses slot }
{
    is_no_register(uses.dst, slot.dst) || is_no_register(uses.src, slot.src)
}

/// Whether the field should name a register, but its number is over 10.
fn is_no_register(used: Use, register: u8) -> bool
    ensures { result ≡ is_no_register used register }
{
    matches!(used, Use::Register) && register > 10
}

/// Whether a field is unused, but is not zero (RFC 9669, section 3.1).
fn has_stray_field(uses: Uses, slot: Slot) -> bool
    ensures { result ≡ has_stray_field uses slot }
{
    is_stray(uses.dst, u32::from(slot.dst))
        || is_stray(uses.src, u32::from(slot.src))
        || is_stray(uses.offset, u32::from(slot.offset))
        || is_stray(uses.imm, slot.imm)
}

/// Whether the field is unused, but is not zero.
fn is_stray(used: Use, value: u32) -> bool
    ensures { result ≡ is_stray used value }
{
    matches!(used, Use::Unused) && value > 0
}

/// Whether a field of a wide instruction's second slot, other than the immediate, is not zero (RFC 9669, section 3.2).
/// In a map reference the immediate must be zero, too (section 5.4).
fn has_stray_second(form: Form, slot: Slot, next: Option<Slot>) -> bool
    ensures { result ≡ has_stray_second form slot next }
{
    match (form, next) {
        (Form::Wide, Some(second)) => {
            second.opcode > 0
                || second.dst > 0
                || second.src > 0
                || second.offset > 0
                || (slot.src == 5 && second.imm > 0)
        }
        _ => false,
    }
}

/// Whether the offset names no variant of the operation, or the source field names no kind of wide instruction or call.
fn has_no_variant(form: Form, slot: Slot) -> bool
    ensures { result ≡ has_no_variant form slot }
{
    match form {
        Form::Alu {
            width,
            op,
            by_register,
        } => !is_variant(width, op, by_register, slot.offset),
        Form::Wide => !(slot.src == 0 || slot.src == 5),
        Form::Call => slot.src != 0,
        _ => false,
    }
}

/// Whether the offset names a variant of the operation (RFC 9669, section 4.1).
fn is_variant(width: Width, op: Operation, by_register: bool, offset: u16) -> bool
    ensures { result ≡ is_variant width op by_register offset }
{
    match (width, op, by_register) {
        (_, Operation::Div | Operation::Rem, _) => offset < 2,
        (_, Operation::Mov, false) => offset == 0,
        (Width::W32, Operation::Mov, true) => offset == 0 || offset == 8 || offset == 16,
        (Width::W64, Operation::Mov, true) => {
            offset == 0 || offset == 8 || offset == 16 || offset == 32
        }
        _ => true,
    }
}

/// Whether the immediate of a byte order is not 16, 32 or 64 (RFC 9669, section 4.2).
fn has_no_width(form: Form, slot: Slot) -> bool
    ensures { result ≡ has_no_width form slot }
{
    matches!(form, Form::End { .. }) && !(slot.imm == 16 || slot.imm == 32 || slot.imm == 64)
}

/// Whether a wide instruction has no second slot.
fn is_cut(form: Form, next: Option<Slot>) -> bool
    ensures { result ≡ is_cut form next }
{
    matches!((form, next), (Form::Wide, None))
}
