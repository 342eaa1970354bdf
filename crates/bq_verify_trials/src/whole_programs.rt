//! The two programs that laws call straight, instruction by instruction, and that they are accepted.

ghost use Rattle.std.specs.Prelude.{◌≡◌};
ghost use Rattle.bq_verify.specs.Worked.{calls_program, worked};

use crate::judging::{are_answered, preempt, shape};
use bq_insn::{Condition, Insn, Operation, Size, Source, Width};
use std::alloc::Global;
use std::process::Abort;

/// The program has that answer beside a map of one entry of 8 bytes.
fn are_worked(rt: &impl Abort, alloc: Global, insns: &[Insn], answer: &str) {
    let insns = insns.to_vec(alloc).expect(rt, "memory");
    are_answered(
        rt,
        alloc,
        insns,
        &preempt(&[shape(rt, 8, 1)]),
        answer,
        "worked",
    );
}

/// The program that the law calls straight.
fn worked_program() -> [Insn; 10]
    ensures { result ≡ worked }
{
    let wide = Width::W64;
    let zero = Source::Imm(0);
    [
        Insn::StoreImm {
            size: Size::Word,
            dst: 10,
            off: -4,
            imm: 0,
        },
        Insn::MapRef { dst: 1, index: 0 },
        Insn::Alu {
            width: wide,
            op: Operation::Mov,
            dst: 2,
            src: Source::Reg(10),
        },
        Insn::Alu {
            width: wide,
            op: Operation::Add,
            dst: 2,
            src: Source::Imm(-4),
        },
        Insn::Call { helper: 1 },
        Insn::Branch {
            width: wide,
            cond: Condition::Equal,
            dst: 0,
            src: zero,
            off: 2,
        },
        Insn::Load {
            size: Size::Double,
            signed: false,
            dst: 0,
            src: 0,
            off: 0,
        },
        Insn::Exit,
        Insn::Alu {
            width: wide,
            op: Operation::Mov,
            dst: 0,
            src: zero,
        },
        Insn::Exit,
    ]
}

// either way has eight instructions
#[test]
fn worked_is_accepted(rt: HostRuntime) {
    are_worked(&rt, rt.alloc(), &worked_program(), "8");
}

/// The program with calls that the law calls straight.
fn calling_program() -> [Insn; 14]
    ensures { result ≡ calls_program }
{
    let wide = Width::W64;
    let mov = Operation::Mov;
    let add = Operation::Add;
    let below = Source::Imm(-8);
    [
        Insn::StoreImm {
            size: Size::Double,
            dst: 10,
            off: -8,
            imm: 0,
        },
        Insn::MapRef { dst: 1, index: 0 },
        Insn::Alu {
            width: wide,
            op: mov,
            dst: 2,
            src: Source::Reg(10),
        },
        Insn::Alu {
            width: wide,
            op: add,
            dst: 2,
            src: below,
        },
        Insn::Alu {
            width: wide,
            op: mov,
            dst: 3,
            src: Source::Reg(10),
        },
        Insn::Alu {
            width: wide,
            op: add,
            dst: 3,
            src: below,
        },
        Insn::Alu {
            width: wide,
            op: mov,
            dst: 4,
            src: Source::Imm(0),
        },
        Insn::Call { helper: 2 },
        Insn::Alu {
            width: wide,
            op: mov,
            dst: 2,
            src: Source::Imm(1),
        },
        Insn::Alu {
            width: wide,
            op: mov,
            dst: 1,
            src: Source::Imm(5),
        },
        Insn::Call { helper: 100 },
        Insn::Alu {
            width: wide,
            op: mov,
            dst: 1,
            src: Source::Imm(5),
        },
        Insn::Call { helper: 101 },
        Insn::Exit,
    ]
}

// one way, of fourteen instructions
#[test]
fn calling_is_accepted(rt: HostRuntime) {
    are_worked(&rt, rt.alloc(), &calling_program(), "14");
}
