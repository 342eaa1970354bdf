//! Compiled programs: their instructions in an order in which every jump goes forward, and the assembler text of these.
//!
//! `import` takes the bytes of a compiled program's text section and answers a copy of the program: each instruction goes on
//! to copies of what it goes on to there. By `laws` a copy has the same runs, step for step, and the same budget.
#![tactic(auto)]

mod backward;
pub mod fault;
mod kept;
mod landings;
pub mod laws;
mod linked;
mod noted;
pub mod order;
mod putting;
mod reached;
pub mod reason;
mod search;
pub mod section;
mod text;

pub use fault::Disorder;
pub use order::Ordered;
pub use reason::SlotReason;
pub use section::{ImportFault, import};
pub use text::{ImportRefusal, ImportSettings, ImportedText, imported, imported_text};
