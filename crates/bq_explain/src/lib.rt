//! Explains what the verifier and a keeper's limits answer to a policy: as a value and, written from the value, in words. A keeper
//! is the person who runs bqsim on a host for other people's programs.
//!
//! The explanation of an accepted policy has its numbers. The one of a refused policy has the place, the need that is not met,
//! the state that is known there, the instructions that made the registers, and what helps. The state is the one that
//! `known_states` keeps of one pass; it holds in every run that comes to the slot.
#![tactic(auto)]

mod access_advice;
mod advice;
mod advice_texts;
mod after;
mod explanation;
mod graph_fault;
mod join_point;
mod limits;
mod makers;
mod measure;
mod program_point;
mod refusal;
mod state_text;
mod summary;
mod text;
mod trail;
mod trail_text;
mod verdict;
mod ways;

pub use access_advice::{AccessRange, Reach};
pub use advice::{Advice, Missing};
pub use advice_texts::advice_text;
pub use explanation::{Detail, Explanation, explain};
pub use graph_fault::GraphFault;
pub use join_point::{IncomingWay, JoinPoint};
pub use limits::{ExceededLimit, Limits};
pub use measure::Measure;
pub use program_point::{ProgramPoint, index_at};
pub use refusal::{ExplainedRefusal, Finding};
pub use summary::{Summary, maps_text};
pub use text::{explanation_text, finding_text};
pub use trail::{ClobberedRegisters, RegisterMaker, Trail};
pub use verdict::{Verdict, judge, verdict_line};
