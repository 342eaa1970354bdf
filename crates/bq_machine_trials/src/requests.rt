//! The calls of a machine, as values.

use bq_disc::RunQueue;
use bq_history::{Naming, Receipt};
use bq_machine::{Admission, Clock, Machine};
use bq_parts::Refusal;
use bq_recording::MachineSeat;
use bq_shared::{Counting, Record};
use std::alloc::Global;
use std::sync::Wait;

/// A call of a machine, except those that load policies or read counters.
#[derive(Clone, Copy)]
pub enum Request {
    Admit { admission: Admission },
    Retire { task: u16 },
    Wake { processor: u8, task: u16 },
    Drain { processor: u8 },
    Tick { processor: u8 },
    Block { processor: u8 },
    Pull { processor: u8, from: u8 },
}

/// The receipts of a call: a wake that ends has two.
#[derive(Drop)]
pub struct Receipts {
    pub first: Receipt<Record>,
    pub second: Option<Receipt<Record>>,
}

/// Makes the call by this seat.
pub fn call<Q: RunQueue + Drop, K: Clock + Drop, N: Naming + Counting, R: Wait, const P: usize>(
    rt: &R,
    alloc: Global,
    machine: &Machine<Q, K, N, P>,
    seat: &mut MachineSeat<N>,
    request: Request,
) -> Result<Receipts, Refusal> {
    let first = match request {
        Request::Admit { admission } => machine.admit(rt, alloc, seat, admission),
        Request::Retire { task } => machine.retire(rt, alloc, seat, task),
        Request::Wake { processor, task } => {
            let woken = machine.wake(rt, alloc, seat, processor, task)?;
            return Ok(Receipts {
                first: woken.begin,
                second: woken.end,
            });
        }
        Request::Drain { processor } => machine.drain(rt, alloc, seat, processor),
        Request::Tick { processor } => machine.tick(rt, alloc, seat, processor),
        Request::Block { processor } => machine.block(rt, alloc, seat, processor),
        Request::Pull { processor, from } => machine.pull(rt, alloc, seat, processor, from),
    };
    Ok(Receipts {
        first: first?,
        second: None,
    })
}
