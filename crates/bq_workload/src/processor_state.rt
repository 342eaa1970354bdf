//! A processor as a simulation keeps it.
ghost use Rattle.std.specs.Prelude.{◌≡◌};
ghost use Rattle.bq_workload.specs.Accounts.{processor_at_rest, is_past, rests_past};

/// What a simulation knows of a processor: what runs there and since when, how many tasks it has, when it ticks and when it looks
/// for a task next.
#[derive(Clone, Copy)]
pub struct ProcessorState {
    /// The task that runs.
    pub run: Option<u16>,
    /// Since when its time is not counted yet.
    pub since: u64,
    /// How many tasks run there or wait in the queue.
    pub size: u32,
    /// When it ticks next; none if nothing runs.
    pub tick: Option<u64>,
    /// When it looks next for a task to pull; none if there is no other processor.
    pub look: Option<u64>,
}

impl ProcessorState {
    /// A processor that runs nothing, and looks next for a task to pull at this instant, if it looks at all.
    pub fn new(look: Option<u64>) -> ProcessorState
        ensures { result ≡ processor_at_rest look }
    {
        ProcessorState {
            run: None,
            since: 0,
            size: 0,
            tick: None,
            look,
        }
    }

    /// Whether it neither ticks nor looks for a task to pull until the end.
    pub fn rests_past(&self, end: u64) -> bool
        ensures { result ≡ rests_past end self.now }
    {
        is_past(self.tick, end) && is_past(self.look, end)
    }
}

/// Whether a time is after the end; true if there is no time.
fn is_past(time: Option<u64>, end: u64) -> bool
    ensures { result ≡ is_past end time }
{
    match time {
        Some(time) => end < time,
        None => true,
    }
}
