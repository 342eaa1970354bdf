//! Two loads at once, one of a policy with a map: the one that drew the greater number stays.

use crate::asserting::{is_number, is_true};
use crate::gate::Point;
use crate::images::{COUNTING, ZERO};
use crate::play::{Script, Step};
use crate::script::{AllPlayed, run_script};
use bq_hooks::Hook;
use bq_parts::{Event, Refusal, Reply};
use std::process::Abort;

/// Two seats load at once.
static LOADS: Script<'static> = Script {
    before: &[],
    at_once: &[&[Step::Load(&ZERO)], &[Step::Load(&COUNTING)]],
    after: &[],
};

/// Returns how many events are draws, installs of the first number, and of the second. An install of the first may be refused as older; there
/// is no other event.
fn counted(rt: &impl Abort, outcome: &AllPlayed) -> (u32, u32, u32) {
    let closed = &outcome.closed;
    let (mut draws, mut first, mut second) = (0u32, 0u32, 0u32);
    for place in 0..closed.len() {
        match closed.logged(place) {
            Some((Event::Draw, _, _)) => draws = draws.wrapping_add(1),
            Some(
                (
                    Event::Install { generation: 1, .. },
                    Ok(Reply::Installed) | Err(Refusal::Older(2)),
                    _,
                ),
            ) => first = first.wrapping_add(1),
            Some((Event::Install { generation: 2, .. }, Ok(Reply::Installed), _)) => {
                second = second.wrapping_add(1);
            }
            _ => panic!(rt; "another event, or another answer"),
        }
    }
    (draws, first, second)
}

/// Each of the four processors has the policy of the second number.
fn is_newer_everywhere(rt: &impl Abort, outcome: &AllPlayed) {
    let core = &outcome.closed.core;
    is_number(rt, core.processors() as u64, 4);
    for processor in 0..core.processors() {
        is_number(rt, core.cpu(processor as u8).generation(Hook::Preempt), 2);
    }
}

/// Two draws and eight installs stand in the history, each with a receipt.
fn are_loaded(rt: &impl Abort, outcome: &AllPlayed) {
    is_true(rt, counted(rt, outcome) == (2, 4, 4));
    is_number(rt, outcome.confirmed(), 10);
    is_newer_everywhere(rt, outcome);
}

/// Where two loads meet, the policy of the greater number stands at each processor in the end.
#[test]
fn two_loads_at_once_leave_the_newer_policy(rt: HostRuntime) {
    are_loaded(&rt, &run_script(&rt, rt.alloc(), Point::Nowhere, &LOADS));
}
