//! An answer in little memory, as records and receipts keep it.
ghost use Rattle.std.specs.Prelude.{◌≡◌, ◌↔◌, true, false, IsTrue, Ok, Err, is_err, is_some};
ghost use Rattle.bq_parts.specs.declared.reply.Reply.TheVariants as reply;
ghost use Rattle.bq_shared.specs.PackedReplies.{has_loads};

use bq_hooks::{By, Loads};
use bq_parts::{Refusal, Reply};
use std::marker::Model;

/// A reply or a refusal. Loads are in a box of their own, so that the other answers take no memory for them.
#[derive(Drop)]
pub enum PackedReply {
    Admitted,
    Retired,
    Drawn {
        generation: u64,
    },
    Installed,
    Begun {
        task: u16,
        loads: Box<Loads>,
    },
    Placed {
        task: u16,
        to: u8,
        by: By,
        steps: u32,
    },
    Drained {
        count: u32,
        run: Option<u16>,
        by: By,
        steps: u32,
    },
    Ticked {
        run: Option<u16>,
        by: By,
        steps: u32,
    },
    Blocked {
        task: u16,
        run: Option<u16>,
    },
    Pulled {
        task: Option<u16>,
        run: Option<u16>,
        by: By,
        steps: u32,
    },
    Refused(Refusal),
}

/// The answer to an event, in little memory. Contracts see the answer as it is unpacked.
#[derive(Drop)]
pub struct PackedAnswer {
    packed: PackedReply,
}

impl Model for PackedAnswer {
    ghost use Rattle.std.specs.Prelude.{Result};
    ghost use Rattle.bq_parts.specs.declared.reply.Reply.{Reply as ReplyValue};
    ghost use Rattle.bq_parts.specs.declared.refusal.Refusal.{Refusal as RefusalValue};
    ghost use Rattle.bq_shared.specs.PackedReplies.{unpacked_answer};

    ghost Value = { Result ReplyValue RefusalValue };

    ghost view = { λ a. unpacked_answer a.packed };
}

impl PackedAnswer {
    /// Packs an answer without loads.
    pub fn of(answer: &Result<Reply, Refusal>) -> PackedAnswer
        requires { has_loads answer.now ≡ false }
        ensures { result ≡ answer.now }
    {
        PackedAnswer::pack(answer, None)
    }

    /// Packs a refusal.
    pub fn refused(refusal: Refusal) -> PackedAnswer
        ensures { result ≡ Err refusal }
    {
        PackedAnswer {
            packed: PackedReply::Refused(refusal),
        }
    }

    /// Packs the answer to a tick: the task that runs from then on, who chose, and how many steps the policy took.
    #[inline(always)]
    pub fn ticked(run: Option<u16>, by: By, steps: u32) -> PackedAnswer
        ensures { result ≡ Ok (reply.Ticked run by steps) }
    {
        PackedAnswer {
            packed: PackedReply::Ticked { run, by, steps },
        }
    }

    /// Packs an answer. Its loads, if it has any, go into `room`.
    pub fn with_room(answer: &Result<Reply, Refusal>, room: Box<Loads>) -> PackedAnswer
        ensures { result ≡ answer.now }
    {
        PackedAnswer::pack(answer, Some(room))
    }

    /// Packs an answer case by case. Its loads, if it has any, go into `room`, which may be None if it has none.
    fn pack(answer: &Result<Reply, Refusal>, room: Option<Box<Loads>>) -> PackedAnswer
        requires { has_loads answer.now ≡ true → is_some room ≡ true }
        ensures { result ≡ answer.now }
    {
        let packed = match answer {
            Ok(Reply::Admitted) => PackedReply::Admitted,
            Ok(Reply::Retired) => PackedReply::Retired,
            Ok(Reply::Drawn { generation }) => PackedReply::Drawn {
                generation: *generation,
            },
            Ok(Reply::Installed) => PackedReply::Installed,
            Ok(Reply::Begun { task, loads }) => {
                let Some(mut room) = room else { unreachable!() };
                *room = loads.copy();
                PackedReply::Begun {
                    task: *task,
                    loads: room,
                }
            }
            Ok(
                Reply::Placed {
                    task,
                    to,
                    by,
                    steps,
                },
            ) => PackedReply::Placed {
                task: *task,
                to: *to,
                by: *by,
                steps: *steps,
            },
            Ok(
                Reply::Drained {
                    count,
                    run,
                    by,
                    steps,
                },
            ) => PackedReply::Drained {
                count: *count,
                run: *run,
                by: *by,
                steps: *steps,
            },
            Ok(Reply::Ticked { run, by, steps }) => PackedReply::Ticked {
                run: *run,
                by: *by,
                steps: *steps,
            },
            Ok(Reply::Blocked { task, run }) => PackedReply::Blocked {
                task: *task,
                run: *run,
            },
            Ok(
                Reply::Pulled {
                    task,
                    run,
                    by,
                    steps,
                },
            ) => PackedReply::Pulled {
                task: *task,
                run: *run,
                by: *by,
                steps: *steps,
            },
            Err(refusal) => PackedReply::Refused(*refusal),
        };
        PackedAnswer { packed }
    }

    /// Unpacks the answer.
    pub fn unpack(&self) -> Result<Reply, Refusal>
        ensures { result ≡ self.now }
    {
        let reply = match &self.packed {
            PackedReply::Admitted => Reply::Admitted,
            PackedReply::Retired => Reply::Retired,
            PackedReply::Drawn { generation } => Reply::Drawn {
                generation: *generation,
            },
            PackedReply::Installed => Reply::Installed,
            PackedReply::Begun { task, loads } => Reply::Begun {
                task: *task,
                loads: loads.copy(),
            },
            PackedReply::Placed {
                task,
                to,
                by,
                steps,
            } => Reply::Placed {
                task: *task,
                to: *to,
                by: *by,
                steps: *steps,
            },
            PackedReply::Drained {
                count,
                run,
                by,
                steps,
            } => Reply::Drained {
                count: *count,
                run: *run,
                by: *by,
                steps: *steps,
            },
            PackedReply::Ticked { run, by, steps } => Reply::Ticked {
                run: *run,
                by: *by,
                steps: *steps,
            },
            PackedReply::Blocked { task, run } => Reply::Blocked {
                task: *task,
                run: *run,
            },
            PackedReply::Pulled {
                task,
                run,
                by,
                steps,
            } => Reply::Pulled {
                task: *task,
                run: *run,
                by: *by,
                steps: *steps,
            },
            PackedReply::Refused(refusal) => return Err(*refusal),
        };
        Ok(reply)
    }

    /// Returns whether the answer is a refusal.
    pub fn is_err(&self) -> bool
        ensures { result ≡ is_err self.now }
    {
        matches!(&self.packed, PackedReply::Refused(_))
    }

    /// Compares two answers. Returns whether they are equal.
    pub fn is_same(&self, other: &PackedAnswer) -> bool
        ensures { IsTrue result ↔ (self.now ≡ other.now) }
    {
        match (&self.packed, &other.packed) {
            // Most answers are to ticks, so these are compared here; others are unpacked.
            (
                PackedReply::Ticked { run, by, steps },
                PackedReply::Ticked {
                    run: their_run,
                    by: their_by,
                    steps: their_steps,
                },
            ) => run == their_run && by == their_by && steps == their_steps,
            _ => is_same_answer(&self.unpack(), &other.unpack()),
        }
    }
}

/// Compares two answers that are unpacked. Returns whether they are equal.
fn is_same_answer(answer: &Result<Reply, Refusal>, other: &Result<Reply, Refusal>) -> bool
    ensures { IsTrue result ↔ (answer.now ≡ other.now) }
{
    answer == other
}
