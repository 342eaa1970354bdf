//! A glance at a processor: bounds on its tasks' virtual runtimes and on their mean, known without a look at each task.

/// What is known of a processor's tasks without a look at each.
#[derive(Clone, Copy)]
pub struct Glance {
    /// No task of the processor has a lesser virtual runtime.
    pub least: u64,
    /// The mean of the tasks' virtual runtimes is no greater.
    pub mean: u64,
}
