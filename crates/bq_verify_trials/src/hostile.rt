//! Hostile images: each byte of a worked image is set to each value. What is accepted of them takes at most its budget, on
//! contexts of zeros and of ff. That it does so on every context is proved; the test is of the code as it is built.

use crate::asserting::is_true;
use crate::images::COUNTING;
use bq_bpf::{Env, Plain};
use bq_hooks::context_length;
use bq_interp::{Ran, Stack, run};
use bq_load::load;
use bq_maps::Maps;
use bq_verify::Verified;
use std::alloc::Global;
use std::process::Abort;

/// Runs the program on a context and a stack of that byte, and fresh maps.
fn run_on(rt: &impl Abort, alloc: Global, verified: &Verified, byte: u8) -> Ran {
    let length = context_length(verified.hook(), verified.version());
    let context = vec![in alloc; byte; length].expect(rt, "memory");
    let mut maps = Maps::new(alloc, verified.shapes()).expect(rt, "memory");
    let env = Env {
        now: u64::from(byte),
        processor: u32::from(byte),
    };
    run(
        verified,
        context.as_slice(),
        &mut maps,
        &mut Stack::from_bytes([byte; 512]),
        env,
        &mut Plain::new(),
    )
}

/// A run took at least one instruction and at most its budget.
fn is_within(rt: &impl Abort, steps: u32, budget: u32, at: usize) {
    assert!(rt;
        steps >= 1 && steps <= budget,
        "byte {at}: {steps} of {budget}"
    );
}

/// On contexts of zeros and of ff, the program keeps within its budget.
fn within_budget(rt: &impl Abort, alloc: Global, verified: &Verified, at: usize) {
    for byte in &[0x00, 0xff] {
        let ran = run_on(rt, alloc, verified, *byte);
        is_within(rt, ran.steps, verified.budget(), at);
    }
}

/// Whether the image is accepted; it keeps within its budget then.
fn accepts(rt: &impl Abort, alloc: Global, image: &[u8], at: usize) -> bool {
    let Ok(verified) = load(alloc, image) else {
        return false;
    };
    within_budget(rt, alloc, &verified, at);
    true
}

/// How many values of the byte at that place are accepted.
fn accepted_values(rt: &impl Abort, alloc: Global, image: &mut [u8; 136], at: usize) -> u32 {
    let mut accepted = 0u32;
    for byte in 0..=255 {
        if let Some(place) = image.get_mut(at) {
            *place = byte;
        }
        if accepts(rt, alloc, image.as_slice(), at) {
            accepted = accepted.saturating_add(1);
        }
    }
    accepted
}

/// No image that has one other byte makes a run exceed its budget.
#[test]
fn each_byte_of_an_image_may_be_any(rt: HostRuntime) {
    let mut accepted = 0u32;
    for at in 0..136 {
        let mut image = COUNTING;
        accepted = accepted.saturating_add(accepted_values(&rt, rt.alloc(), &mut image, at));
    }
    // each byte as it was is accepted, at least
    is_true(&rt, accepted >= 136);
}
