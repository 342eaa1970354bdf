//! Policies are asked at their hooks: what they answer, in how many steps, and which maps and counters they see.

use crate::asserting::{is_number, is_true};
use bq_asm::assemble;
use bq_bpf::{CounterCall, Env, MapShape, Plain};
use bq_hooks::{Hook, Version, context_length};
use bq_installed::{Hooks, Installed, Policy, Scratch};
use bq_verify::{PolicyForm, Program, verify};
use std::alloc::Global;
use std::process::Abort;

/// `ldmap r1, 0`, looks entry 0 up, answers its value, and adds one to it.
const COUNTS: &str = "\
stw [r10-4], 0
ldmap r1, 0
mov64 r2, r10
add64 r2, -4
call 1
jne64 r0, 0, found
mov64 r0, 2
exit
found:
ldxdw r3, [r0+0]
mov64 r4, r3
add64 r4, 1
stxdw [r0+0], r4
mov64 r0, r3
exit
";

/// Adds 5 to counter 3, and answers 0.
const ADDS: &str = "\
mov64 r1, 3
mov64 r2, 5
call 100
mov64 r0, 0
exit
";

/// The policy for the hook preempt, beside maps of these shapes.
fn policy(rt: &impl Abort, alloc: Global, text: &str, shapes: &[MapShape]) -> Policy {
    assert!(rt; shapes.len() <= 8);
    let program = Program {
        insns: assemble(alloc, text).expect(rt, "a program"),
        form: PolicyForm {
            hook: Hook::Preempt,
            version: Version::First,
            shapes: shapes.to_vec(alloc).expect(rt, "memory"),
        },
    };
    let verified = verify(alloc, program).expect(rt, "not accepted");
    Policy::new(alloc, verified).expect(rt, "memory")
}

/// A place at which a policy stands, as generation 1.
fn installed(rt: &impl Abort, alloc: Global, policy: &Policy) -> Installed {
    let policy = policy.clone().expect(rt, "memory");
    Installed::new(alloc, Some(policy), 1).expect(rt, "memory")
}

/// What stands there answers on a context of zeros.
fn ask(installed: &mut Installed, scratch: &mut Scratch, board: &mut Plain) -> Option<(u64, u32)> {
    let context = [0; 160];
    let length = {
        let policy = installed.policy()?;
        context_length(policy.hook(), policy.version())
    };
    if length != 56 {
        return None;
    }
    let env = Env {
        now: 0,
        processor: 0,
    };
    let done = installed.ask(&context[..56], env, scratch, board);
    Some((done.r0, done.steps))
}

/// The installed policy gives that answer, which is a value and the number of steps.
fn answers(
    rt: &impl Abort,
    installed: &mut Installed,
    scratch: &mut Scratch,
    board: &mut Plain,
    answer: (u64, u32),
) {
    is_true(rt, ask(installed, scratch, board) == Some(answer));
}

/// Where one policy stands twice each counts on its own.
fn count_apart(
    rt: &impl Abort,
    first: &mut Installed,
    second: &mut Installed,
    scratch: &mut Scratch,
) {
    let mut board = Plain::new();
    is_number(rt, first.generation(), 1);
    answers(rt, first, scratch, &mut board, (0, 12));
    answers(rt, first, scratch, &mut board, (1, 12));
    answers(rt, second, scratch, &mut board, (0, 12));
    answers(rt, first, scratch, &mut board, (2, 12));
    is_true(rt, scratch.calls().is_empty());
}

/// At two places stands one policy.
fn stands_twice(rt: &impl Abort, alloc: Global, counts: &Policy) {
    let mut first = installed(rt, alloc, counts);
    let mut second = installed(rt, alloc, counts);
    count_apart(rt, &mut first, &mut second, &mut Scratch::new());
}

/// Each place at which a policy is installed has maps of its own.
#[test]
fn maps_of_their_own(rt: HostRuntime) {
    let one_entry = MapShape::new(8, 1).expect(&rt, "a shape");
    let counts = policy(&rt, rt.alloc(), COUNTS, &[one_entry]);
    stands_twice(&rt, rt.alloc(), &counts);
}

/// A run added 5 to counter 3.
fn added_five(rt: &impl Abort, calls: &[CounterCall]) {
    let second = CounterCall::Add {
        counter: 3,
        amount: 5,
        answer: 5,
    };
    is_number(rt, calls.len() as u64, 1);
    is_true(rt, calls.first() == Some(&second));
}

/// A policy that adds 5 to counter 3 is asked twice.
fn adds_twice(rt: &impl Abort, installed: &mut Installed, scratch: &mut Scratch) {
    let mut board = Plain::new();
    answers(rt, installed, scratch, &mut board, (0, 5));
    answers(rt, installed, scratch, &mut board, (0, 5));
    added_five(rt, scratch.calls());
    is_number(rt, board.value(3), 10);
    scratch.clear();
    is_true(rt, scratch.calls().is_empty());
}

/// All runs share the counters, and the calls of the last run are kept.
#[test]
fn counters_of_all(rt: HostRuntime) {
    let adds = policy(&rt, rt.alloc(), ADDS, &[]);
    adds_twice(
        &rt,
        &mut installed(&rt, rt.alloc(), &adds),
        &mut Scratch::new(),
    );
}

/// At its hook a policy of generation 7 stands.
fn equip(rt: &impl Abort, alloc: Global, hooks: &mut Hooks, policy: Policy) {
    let hook = policy.hook();
    let installed = Installed::new(alloc, Some(policy), 7).expect(rt, "memory");
    hooks.install(hook, installed);
}

/// What is installed at the hooks once this policy is, and its version.
fn preempt_alone_is_equipped(rt: &impl Abort, hooks: &Hooks) {
    is_number(rt, hooks.generation(Hook::Preempt), 7);
    is_number(rt, hooks.generation(Hook::Place), 0);
    is_true(rt, hooks.version(Hook::Preempt) == Some(Version::First));
    is_true(rt, hooks.version(Hook::Pull).is_none());
}

/// At hooks where nothing stands a policy is installed.
fn are_equipped(rt: &impl Abort, alloc: Global, hooks: &mut Hooks) {
    is_number(rt, hooks.generation(Hook::Preempt), 0);
    equip(rt, alloc, hooks, policy(rt, alloc, ADDS, &[]));
    preempt_alone_is_equipped(rt, hooks);
}

/// A policy is installed at its own hook only.
#[test]
fn three_hooks(rt: HostRuntime) {
    are_equipped(&rt, rt.alloc(), &mut Hooks::new());
}
