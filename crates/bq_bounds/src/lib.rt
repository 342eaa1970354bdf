//! How near a processor comes to the bounds of fairness, charge by charge.
//! Promises that what is measured is exact, that the greatest is kept, and that no measure passes its bound (laws).
//! Builds on bq_fairness for what fairness is, and on the definitions of one processor.
#![tactic(auto)]

pub mod bounds;
pub mod charge;
pub mod glance;
pub mod lags;
pub mod laws;
pub mod running_task;
pub mod seen;
pub mod stretch;
pub mod totals;
pub mod watch;

pub use bounds::Bounds;
pub use charge::Charge;
pub use glance::Glance;
pub use lags::Lags;
pub use running_task::RunningTask;
pub use seen::how_it_stands;
pub use stretch::Stretch;
pub use watch::Watch;
