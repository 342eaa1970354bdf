//! The parts of the world, as the holders know them.

use bq_parts::{Inbox, Lobby};
use std::marker::Model;

/// For contracts only, so no value exists at run time: a processor as the world sees it.
pub struct CpuState;

impl Model for CpuState {
    ghost use Rattle.bq_parts.specs.Processors.{Processor, new_processor};

    ghost Value = { Processor };

    ghost view = { λ _. new_processor };
}

/// For contracts only, so no value exists at run time: a part of the world.
pub enum WorldPart {
    Cpu(u8, CpuState),
    Inbox(u8, Inbox),
    Lobby(Lobby),
}
