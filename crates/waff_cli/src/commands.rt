//! What the table of commands has of each: its name, files, options and help.
/// A command of the program.
#[derive(Clone, Copy)]
pub struct CommandWords {
    pub name: &'static str,
    /// The title of its group in the help of the program, which begins with the commands of none.
    pub group: Option<&'static str>,
    pub about: &'static str,
    /// Its words: those for files, and then its options.
    pub words: &'static [Word],
    /// What its long help ends with: an example, what is printed, and the exit statuses.
    pub help: &'static str,
}

/// A word of a command for a file.
#[derive(Clone, Copy)]
pub struct FileWord {
    pub id: &'static str,
    pub name: &'static str,
    pub help: &'static str,
}

/// A word for a file, or an option, of a command.
#[derive(Clone, Copy)]
pub enum Word {
    /// A word for a file.
    File(FileWord),
    /// One that may be left out.
    FileOrNone(FileWord),
    /// One that may be given more than once.
    Files(FileWord),
    /// `--workers` for planners' workers, which has to be given or not.
    PlanWorkers(bool),
    /// `--workers` for several numbers of planners' workers.
    SweepWorkers,
    /// `--workers` for threads of a replay.
    Threads,
    /// `--rule`.
    Rule,
    /// `--names`, with its help.
    Names(&'static str),
    /// `--clients`.
    Clients,
    /// `--figures`.
    Figures,
    /// `--worst`.
    Worst,
    /// `--shared`.
    Shared,
    /// `--steps`.
    Steps,
    /// A word of `run` alone.
    Run(RunWord),
    /// `--as`.
    Picture,
    /// `--from`.
    From,
    /// `--to`.
    To,
}

/// A word of `run` for where and how messages are run.
#[derive(Clone, Copy)]
pub enum RunWord {
    /// The folder of the files of cells.
    Folder,
    /// `--cell`.
    Cell,
    /// `--tick`.
    Tick,
    /// `--over`.
    Over,
    /// `--fill`.
    Fill,
    /// `--sync-writes`.
    SyncWrites,
    /// `--sync`.
    SyncNames,
    /// `--trace`.
    Trace,
    /// `--partial`.
    Partial,
}

/// The words for files of all commands, in the order in which each command has its own.
pub static FILE_WORDS: [&str; 5] = ["HIER", "OTHER", "TRACE", "HIERS", "PLAN"];

/// Numbers of workers of a sweep.
pub const MAX_SWEPT: usize = 64;

/// Messages of the greatest latency: no trace has more messages.
pub const MAX_WORST: u32 = 1_048_576;

/// Steps in which spaces get locks one after another: no hierarchy has more spaces.
pub const MAX_STEPS: u32 = 256;

/// How many steps there are unless another number is asked for.
pub const STEPS: u32 = 8;

/// The rules by which a free worker takes a message.
pub static RULES: [&str; 2] = ["arrival", "longest"];

/// What a plan is drawn as.
pub static PICTURES: [&str; 2] = ["svg", "events"];
