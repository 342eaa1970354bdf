//! Why a task runs: the tasks of a processor as a choice saw them, and the discipline's reason for the running one. The form `why`
//! puts this into words.
//! Promises that a task which the form calls eligible is eligible by the definition, that the choice, the mean, the task passed
//! over, and a pull's sizes and tasks are the definition's, and that the form names a policy exactly when the answer does.
//! Builds on the definitions of the two disciplines, on a trace's machine, and on the words of bq_report.
#![tactic(auto)]

pub mod answers;
mod asked;
mod choice_text;
pub mod choices;
pub mod event_text;
pub mod laws;
mod move_text;
pub mod presence;
pub mod pull_facts;
pub mod reasons;
mod rival_text;
pub mod rivals;
pub mod task_row;
pub mod texts;
pub mod why_text;

pub use answers::answer;
pub use choices::choose_task;
pub use event_text::{RefusalText, RefusedEvent};
pub use presence::{list_present, list_waiting};
pub use pull_facts::{OwnPull, PullFacts, pull_facts_between};
pub use reasons::{Reason, choice_reason};
pub use rivals::{passed_over, tied_with};
pub use task_row::{TaskRow, make_rows, measured_from};
pub use why_text::{Occurrence, WhyForm, processor_and_time};
