//! The words after `simulate`, as they were given.

use bq_timeline::ShownWords;

/// The words after `simulate`.
#[derive(Drop)]
pub struct StudyWords {
    pub machine: MachineWords,
    /// The number of seeds with which it is run.
    pub seeds: Option<String>,
    pub hooks: HookWords,
    /// What it is compared with: files of policies, or `none`.
    pub against: Vec<String>,
    /// The form in which it is shown, and the file of the workload.
    pub shown: ShownWords,
}

/// What replaces the workload's own machine.
#[derive(Drop)]
pub struct MachineWords {
    pub discipline: Option<String>,
    pub processors: Option<String>,
    pub duration: Option<String>,
    pub seed: Option<String>,
}

/// The policies at the hooks: files, or `none`.
#[derive(Drop)]
pub struct HookWords {
    pub place: Option<String>,
    pub preempt: Option<String>,
    pub pull: Option<String>,
}
