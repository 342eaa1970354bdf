//! What every form does.

use crate::names::Names;
use bq_schedule::{Change, Schedule};
use std::alloc::AllocError;

/// A form in which a schedule is shown. It adds to a text what is ready, and the caller may write that text out and clear it at any
/// time. Its only error is that memory ran out.
///
/// ```text
/// form.begin(&schedule, &names, &mut text)?;
/// // for each event that admits a task:
/// form.admit(task)?;
/// // for each event and its answer:
/// let change = schedule.add_answer(&event, &answer);
/// form.add_change(&change, &schedule, &names, &mut text)?;
/// // once the trace is over:
/// form.end(&schedule, &names, &mut text)?;
/// ```
pub trait ScheduleForm: Drop {
    /// Begins the text, with a schedule to which nothing has happened.
    fn begin(
        &mut self,
        schedule: &Schedule,
        names: &Names,
        text: &mut String,
    ) -> Result<(), AllocError>;

    /// Notes that a task is admitted. A form with letters or colours for tasks gives the task the next one.
    fn admit(&mut self, _task: u16) -> Result<(), AllocError> {
        Ok(())
    }

    /// Adds what one answer changed to what the form shows. `schedule` is the schedule after that answer.
    fn add_change(
        &mut self,
        change: &Change,
        schedule: &Schedule,
        names: &Names,
        text: &mut String,
    ) -> Result<(), AllocError>;

    /// Ends the text, with the schedule of the whole trace.
    fn end(
        &mut self,
        schedule: &Schedule,
        names: &Names,
        text: &mut String,
    ) -> Result<(), AllocError>;
}
