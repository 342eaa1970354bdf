//! What a user of the library starts with: programs and their images. Each body stands, word for word, as the example of the call that
//! it shows; `tests/examples.py` compares them.

use crate::failing::Fail;
use arrayvec::ArrayVec;
use bq_asm::assemble;
use bq_bpf::{Env, Plain};
use bq_hooks::{Hook, Version, context_length};
use bq_interp::runs::{run, run_into};
use bq_interp::stack::Stack;
use bq_interp::traced::run_traced;
use bq_load::{Image, ImageReader, load, read_image, write_image};
use bq_maps::Maps;
use bq_verify::{PolicyForm, Program, Verified, known_states, verify};
use std::alloc::Global;

/// The example of `assemble`.
#[test]
fn a_text_is_assembled(rt: HostRuntime) -> Result<(), Fail> {
    let alloc = rt.alloc();
    let insns = assemble(alloc, "mov64 r0, 1 ; gives way\nexit\n")?;
    assert_eq!(rt; insns.len(), 2);
    Ok(())
}

/// The example of `verify`.
#[test]
fn a_program_is_verified(rt: HostRuntime) -> Result<(), Fail> {
    let alloc = rt.alloc();
    let program = Program {
        insns: assemble(alloc, "mov64 r0, 1\nexit\n")?,
        form: PolicyForm {
            hook: Hook::Preempt,
            version: Version::First,
            shapes: Vec::new(alloc),
        },
    };
    let verified = verify(alloc, program)?;
    assert_eq!(rt; verified.budget(), 2);
    Ok(())
}

/// The example of `known_states`.
#[test]
fn what_is_known_at_each_slot(rt: HostRuntime) -> Result<(), Fail> {
    let alloc = rt.alloc();
    let program = Program {
        insns: assemble(alloc, "mov64 r0, 1\nexit\n")?,
        form: PolicyForm {
            hook: Hook::Preempt,
            version: Version::First,
            shapes: Vec::new(alloc),
        },
    };
    let known = known_states(alloc, &program, 1)?;
    assert_eq!(rt; known.at(1).is_some(), true);
    assert_eq!(rt; known.at(2).is_some(), false);
    Ok(())
}

/// The example of `load`.
#[test]
fn an_image_is_loaded(rt: HostRuntime) -> Result<(), Fail> {
    let alloc = rt.alloc();
    let image = [
        0x42, 0x51, 0x50, 0x49, 1, 1, 0, 0, 2, 0, 0, 0, // BQPI, version 1, preempt, no maps, 2 slots
        0xb7, 0, 0, 0, 1, 0, 0, 0, // mov64 r0, 1
        0x95, 0, 0, 0, 0, 0, 0, 0, // exit
    ];
    let verified = load(alloc, &image)?;
    assert_eq!(rt; verified.hook(), Hook::Preempt);
    Ok(())
}

/// The example of `read_image`.
#[test]
fn an_image_is_read(rt: HostRuntime) -> Result<(), Fail> {
    let alloc = rt.alloc();
    let bytes = [
        0x42, 0x51, 0x50, 0x49, 1, 1, 0, 0, 2, 0, 0, 0, // BQPI, version 1, preempt, no maps, 2 slots
        0xb7, 0, 0, 0, 1, 0, 0, 0, // mov64 r0, 1
        0x95, 0, 0, 0, 0, 0, 0, 0, // exit
    ];
    let image = read_image(alloc, &bytes)?;
    assert_eq!(rt; image.form.hook, Hook::Preempt);
    assert_eq!(rt; image.program.len(), 16);
    Ok(())
}

/// The example of `write_image`.
#[test]
fn an_image_is_written(rt: HostRuntime) -> Result<(), Fail> {
    let alloc = rt.alloc();
    let image = Image {
        form: PolicyForm {
            hook: Hook::Preempt,
            version: Version::First,
            shapes: Vec::new(alloc),
        },
        program: Vec::from_slice(alloc, &[0x95, 0, 0, 0, 0, 0, 0, 0])?, // exit
    };
    let mut bytes = Vec::new(alloc);
    write_image(&image, &mut bytes)?;
    let expected = [
        0x42, 0x51, 0x50, 0x49, 1, 1, 0, 0, 1, 0, 0, 0, // BQPI, version 1, preempt, no maps, 1 slot
        0x95, 0, 0, 0, 0, 0, 0, 0, // exit
    ];
    assert_eq!(rt; bytes.as_slice(), expected.as_slice());
    Ok(())
}

/// The example of `ImageReader`.
#[test]
fn an_image_is_loaded_in_pieces(rt: HostRuntime) -> Result<(), Fail> {
    let alloc = rt.alloc();
    let mut reader = ImageReader::new(alloc);
    reader.feed(&[0x42, 0x51, 0x50, 0x49, 1, 1, 0, 0])?; // BQPI, version 1, preempt, no maps
    reader.feed(&[2, 0, 0, 0, 0xb7, 0, 0, 0, 1, 0, 0, 0])?; // 2 slots, mov64 r0, 1
    reader.feed(&[0x95, 0, 0, 0, 0, 0, 0, 0])?; // exit
    let verified = reader.finish_load()?;
    assert_eq!(rt; verified.budget(), 2);
    Ok(())
}

/// The example of `run`, of a program for the hook preempt.
fn answer_of(alloc: Global, verified: &Verified) -> Result<Option<(u64, u32)>, Fail> {
    let context = [0; 56];
    if context.len() != context_length(verified.hook(), verified.version()) {
        return Ok(None);
    }
    let mut maps = Maps::new(alloc, verified.shapes())?;
    let mut stack = Stack::from_bytes([0; 512]);
    let mut board = Plain::new();
    let env = Env {
        now: 1_000,
        processor: 0,
    };
    let ran = run(verified, &context, &mut maps, &mut stack, env, &mut board);
    Ok(Some((ran.r0, ran.steps)))
}

/// The example of `run` answers 1, in two instructions.
#[test]
fn a_program_is_run(rt: HostRuntime) -> Result<(), Fail> {
    let alloc = rt.alloc();
    let program = Program {
        insns: assemble(alloc, "mov64 r0, 1\nexit\n")?,
        form: PolicyForm {
            hook: Hook::Preempt,
            version: Version::First,
            shapes: Vec::new(alloc),
        },
    };
    let verified = verify(alloc, program)?;
    assert_eq!(rt; answer_of(alloc, &verified)?, Some((1, 2)));
    Ok(())
}

/// The example of `run_into`, of a program for the hook preempt.
fn answer_and_calls_of(
    alloc: Global,
    verified: &Verified,
) -> Result<Option<(u64, u32, usize)>, Fail> {
    let context = [0; 56];
    if context.len() != context_length(verified.hook(), verified.version()) {
        return Ok(None);
    }
    let mut maps = Maps::new(alloc, verified.shapes())?;
    let mut stack = Stack::from_bytes([0; 512]);
    let mut board = Plain::new();
    let env = Env {
        now: 1_000,
        processor: 0,
    };
    let mut calls = ArrayVec::new();
    let done = run_into(
        verified, &context, &mut maps, &mut stack, env, &mut board, &mut calls,
    );
    Ok(Some((done.r0, done.steps, calls.len())))
}

/// The example of `run_traced`, of a program for the hook preempt.
fn answer_and_snapshots_of(
    alloc: Global,
    verified: &Verified,
) -> Result<Option<(u64, usize)>, Fail> {
    let context = [0; 56];
    if context.len() != context_length(verified.hook(), verified.version()) {
        return Ok(None);
    }
    let mut maps = Maps::new(alloc, verified.shapes())?;
    let mut stack = Stack::from_bytes([0; 512]);
    let mut board = Plain::new();
    let env = Env {
        now: 1_000,
        processor: 0,
    };
    let mut snapshots = Vec::new(alloc);
    let ran = run_traced(
        verified,
        &context,
        &mut maps,
        &mut stack,
        env,
        &mut board,
        &mut snapshots,
    )?;
    Ok(Some((ran.r0, snapshots.len())))
}

/// The examples of `run_into` and `run_traced`: one call of a counter, and three states.
#[test]
fn a_run_reports_its_calls_and_its_steps(rt: HostRuntime) -> Result<(), Fail> {
    let alloc = rt.alloc();
    let program = Program {
        insns: assemble(alloc, "mov64 r1, 3\ncall 101\nexit\n")?,
        form: PolicyForm {
            hook: Hook::Preempt,
            version: Version::First,
            shapes: Vec::new(alloc),
        },
    };
    let verified = verify(alloc, program)?;
    assert_eq!(rt; answer_and_calls_of(alloc, &verified)?, Some((0, 3, 1)));
    assert_eq!(rt; answer_and_snapshots_of(alloc, &verified)?, Some((0, 3)));
    Ok(())
}
