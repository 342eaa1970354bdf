//! The parts of the world: a processor, an inbox, the lobby of the sleeping tasks, and what each event does to the parts
//! that it touches.
//! Promises that each share call does what its event does to the parts that it is given. Each choice in it is the policy's if
//! that is permitted, and otherwise the discipline's own. So a caller that has only those parts, as a world or a lock does,
//! makes the step.
//! Uses the queues of bq_disc only by their contract, bq_hooks for what is chosen, and bq_installed for answers.
#![tactic(auto)]

pub mod carried;
pub mod cpu;
mod deciding;
pub mod event;
pub mod hook_decision;
pub mod inbox;
pub mod installing;
pub mod lobby;
pub mod lobby_entry;
pub mod pulling;
pub mod refusal;
pub mod reply;
pub mod running;
pub mod unlinked;
pub mod waking;

pub use carried::Carried;
pub use cpu::Cpu;
pub use event::Event;
pub use hook_decision::HookDecision;
pub use inbox::Inbox;
pub use lobby::{Lobby, new_task};
pub use lobby_entry::LobbyEntry;
pub use refusal::Refusal;
pub use reply::Reply;
pub use unlinked::Unlinked;
pub use waking::Placement;
