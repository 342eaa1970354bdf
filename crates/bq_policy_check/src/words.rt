//! The words after a command, as they were given.

/// The words that name a policy: its file, and what is said beside it.
#[derive(Drop)]
pub struct PolicyWords {
    /// The file; standard input without it, or as `-`.
    pub file: Option<String>,
    /// The choice that the program makes.
    pub hook: Option<String>,
    /// The shapes of its maps.
    pub maps: Option<String>,
    /// The version of its image.
    pub format: Option<String>,
    /// The most bytes that are read.
    pub max_bytes: Option<String>,
}

/// The words after `check`.
#[derive(Drop)]
pub struct CheckWords {
    /// The words that describe each policy; the file in them is the first of the files.
    pub policy: PolicyWords,
    /// All files, in their order.
    pub files: Vec<String>,
    /// Whether a refusal is explained, and an accepted policy described in full.
    pub is_explained: bool,
    /// Whether the answer is JSON.
    pub is_json: bool,
    /// The keeper's own limits.
    pub limits: LimitWords,
    /// The file to which the image of an accepted policy goes.
    pub image: Option<String>,
}

/// The words that limit what a policy may take and use.
#[derive(Drop)]
pub struct LimitWords {
    /// The most instructions of a run.
    pub steps: Option<String>,
    /// The helpers that may be called.
    pub helpers: Option<String>,
    /// The hooks that a policy may be for.
    pub hooks: Option<String>,
    /// The most maps.
    pub maps: Option<String>,
    /// The most bytes that the values of all maps have.
    pub map_bytes: Option<String>,
    /// The most instructions that call a counter.
    pub counters: Option<String>,
}

/// The way in which a run is reported.
#[derive(Drop)]
pub struct ReportWords {
    /// Whether each instruction is shown.
    pub is_traced: bool,
    /// The number of runs, of which the last is shown.
    pub repeat: Option<String>,
}

/// The words after `run`.
#[derive(Drop)]
pub struct RunWords {
    pub policy: PolicyWords,
    pub report: ReportWords,
    /// The bytes of the context, in hex.
    pub context: Option<String>,
    /// Fields of the context by their names, as `task=3,mask=0x6`.
    pub fields: Vec<String>,
    /// Entries of maps, as `0:0=0a00`.
    pub entries: Vec<String>,
    /// Counters, as `3=10`.
    pub counters: Vec<String>,
    /// The time in nanoseconds.
    pub time: Option<String>,
    /// The processor that asks.
    pub processor: Option<String>,
}

/// The words after `dis`.
#[derive(Drop)]
pub struct DisWords {
    pub policy: PolicyWords,
    /// Whether each instruction has its slot and its bytes beside it.
    pub has_slots: bool,
}
