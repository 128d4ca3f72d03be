//! The rows of the table of commands.
use crate::commands::{CommandWords, FileWord, RunWord, Word};

/// A help with the exit statuses behind it: what 0 means, or these, and then those of refusals.
macro_rules! with_statuses {
    ($help:literal) => {
        with_statuses!($help, "Exit status:\n  0  done")
    };
    ($help:literal, $statuses:literal) => {
        concat!(
            $help,
            "\n\n",
            $statuses,
            "\n  2  bad arguments",
            "\n  3  a file is refused",
            "\n  4  something could not be read or written, or memory was refused",
        )
    };
}

const PLANS: &str = "Plans:";

const LIMITING: &str = "What limits a trace:";

const TREES: &str = "Trees:";

const MACHINE: &str = "This machine:";

const FAULTS: &str = "Faults:";

/// How many commands there are.
pub const COUNT: usize = 17;

/// The command of this place in the order of the help, by groups. It is found by a `match`, and is no
/// static, since a proof reads that byte by byte.
pub fn command(place: usize) -> Option<CommandWords> {
    match place {
        0 => Some(PLAN),
        1 => Some(SWEEP),
        2 => Some(LIMITS),
        3 => Some(ASSIGN),
        4 => Some(NEEDS),
        5 => Some(CHECK),
        6 => Some(RATE),
        7 => Some(DRAW),
        8 => Some(WHERE),
        9 => Some(WAITS),
        10 => Some(WHY),
        11 => Some(LOCKS),
        12 => Some(COMPARE),
        13 => Some(RANK),
        14 => Some(REPLAY),
        15 => Some(RUN),
        16 => Some(EXPLAIN),
        _ => None,
    }
}

const HIERARCHY_FILE: FileWord = FileWord {
    id: "HIER",
    name: "HIER",
    help: "The hierarchy, a TOML file",
};

const TRACE_FILE: FileWord = FileWord {
    id: "TRACE",
    name: "TRACE",
    help: "The trace, a CSV file",
};

const PLAN_FILE: FileWord = FileWord {
    id: "PLAN",
    name: "PLAN",
    help: "The text of the plan, a CSV file",
};

const OTHER_FILE: FileWord = FileWord {
    id: "OTHER",
    name: "HIER",
    help: "The hierarchy of the other model, a TOML file",
};

const RANKED_FILES: FileWord = FileWord {
    id: "HIERS",
    name: "HIER",
    help: "The hierarchies, TOML files, 64 at most",
};

const PLAN: CommandWords = CommandWords {
    name: "plan",
    group: None,
    about: "Prints a plan without a limit on workers, or for a number of them",
    words: &[
        Word::File(HIERARCHY_FILE),
        Word::File(TRACE_FILE),
        Word::PlanWorkers(false),
        Word::Rule,
    ],
    help: with_statuses!(
        "\
Example: waff plan hier.toml trace.csv --workers 8

A line for each message:
  message   its number, from 1
  affinity  the affinity in which it runs
  start     the tick at which it starts
  finish    the tick at which it has finished
  worker    its worker, from 1; - without --workers

Then a line each:
  workers   K, or -
  total     the sum of all costs
  length    the last finish
  chain     messages of which each excludes the one before, or awaits it, as
            the next of its client does
  release   of a trace with releases: that of the first of the chain; of one
            with clients the ticks in which nothing of the chain runs: the
            release of its first, or the think time if that is greater and no
            message of the client is before it, and the think times and gaps
            between messages of the chain
  cost      the cost of the chain
  bound     two numbers, the left never above the right: without --workers the
            length, and release + cost; with --workers K * length, and
            total + K * release + (K - 1) * cost
Without --workers no plan in arrival order is shorter: none in which of two
messages that exclude each other the first one runs first. Where the trace has
clients, none that serves the messages in the same order."
    ),
};

const SWEEP: CommandWords = CommandWords {
    name: "sweep",
    group: None,
    about: "Prints how long the trace takes, by the number of workers",
    words: &[
        Word::File(HIERARCHY_FILE),
        Word::File(TRACE_FILE),
        Word::SweepWorkers,
        Word::Rule,
    ],
    help: with_statuses!(
        "\
Example: waff sweep hier.toml trace.csv --workers 2,4,8

A line for each number of workers (by default 1, 2, 3, 4, 6, 8, 12, 16, 24, 32,
48 and 64), and one for any number:
  workers   how many; - for any number
  length    the length of the plan in ticks
  speedup   the total cost / the length
  busy      the part of the workers' time that is work
  least     no plan for as many workers is shorter than this
  over      the length / least, rounded up
  waits     the ticks that messages wait in all
  mean      the mean latency, from a release to the finish
  p50, p99  a latency that 50 and 99 of 100 messages do not exceed
  latency   the greatest latency
Plans in arrival order are what least and over compare with: of two messages
that exclude each other the first one of the trace runs first. With clients they
compare with plans in any order; waits and latencies count from the issue."
    ),
};

const LIMITS: CommandWords = CommandWords {
    name: "limits",
    group: None,
    about: "Prints what limits a trace: workers, clients, data, tree or order",
    words: &[
        Word::File(HIERARCHY_FILE),
        Word::File(TRACE_FILE),
        Word::SweepWorkers,
        Word::Rule,
    ],
    help: with_statuses!(
        "\
Example: waff limits hier.toml trace.csv --workers 4,8

A line for each limit, work and plan for each number of workers:
  work     the total cost / K, rounded up
  clients  the last finish where no message waits but for its own client
  after    of a trace with the column after: the last finish where no message
           waits but for its own client and for those in its after
  writes   the greatest cost of messages that write a common cell, with that of
           the longest one that only reads it
  data     the greatest cost of messages that touch a common cell
  tree     the greatest cost of messages at or above a common affinity
  locks    of a hierarchy with locks: the greatest cost of messages that need
           one lock one after another
  order    the length of the plan without a limit on workers
  plan     the length of the plan for K workers
Its columns:
  limit    one of these names
  workers  K, or -
  length   in ticks
  speedup  the total / the length
  at       the client, the message, the cell or the affinity that limits so; -
           for none
In any service order no plan is shorter than the lines above order. No tree of
these spaces goes below writes, and none without further shared locks below
data: if data is more than writes, readers of one cell should share it.
In arrival order no plan is shorter than order. Where the trace has clients, no
plan is that keeps the service order of the plan without a limit on workers."
    ),
};

const ASSIGN: CommandWords = CommandWords {
    name: "assign",
    group: Some(PLANS),
    about: "Prints the affinity in which each message runs",
    words: &[Word::File(HIERARCHY_FILE), Word::File(TRACE_FILE)],
    help: with_statuses!(
        "\
Example: waff assign hier.toml trace.csv

A line for each message:
  message   its number, from 1
  name      its name
  affinity  the lowest that is at or above the owners of all its cells without
            locks; - for none"
    ),
};

const NEEDS: CommandWords = CommandWords {
    name: "needs",
    group: Some(PLANS),
    about: "Prints for which earlier messages each message has to wait",
    words: &[Word::File(HIERARCHY_FILE), Word::File(TRACE_FILE)],
    help: with_statuses!(
        "\
Example: waff needs hier.toml trace.csv

A line for each message:
  message  its number, from 1
  needs    the earlier messages that have to finish before it starts, with
           spaces between them; nothing where it may start at once
Each earlier message that excludes it is one of them, or has finished before one
of them starts. Earlier is by number, also where a trace has clients."
    ),
};

const CHECK: CommandWords = CommandWords {
    name: "check",
    group: Some(PLANS),
    about: "Prints the first fault of a plan, or how good the plan is",
    words: &[
        Word::File(HIERARCHY_FILE),
        Word::File(TRACE_FILE),
        Word::File(PLAN_FILE),
    ],
    help: with_statuses!(
        "\
Example: waff plan hier.toml trace.csv | waff check hier.toml trace.csv -

One line. A fault of the plan:
  overlap      two messages that exclude each other run at one time
  toomany      more messages than workers run at a tick
  worker       a message has no worker, or a worker two messages at a tick
  affinity     a message has another affinity than its own
  finish       a finish is not the start plus the cost
  totals       the summary has another sum
  notachain    a message of the chain does not exclude the one before, and does
               not await it, as the next of its client does
  early        a message starts before its release, or before its client has
               thought for the first time
  client       a message starts before its client has thought after the answer
               to the one before
  after        a message starts before one in its after has finished, or before
               the gap behind that has passed
No fault:
  shortest     no plan in arrival order is shorter; where the trace has clients,
               no plan for as many workers, in any order
  tight        no plan is shorter that serves the messages in the same order
  withinbound  at most twice as long as any plan for as many workers in arrival
               order; where the trace has clients, as any that serves in the
               same order
  obeys        nothing more is known
In arrival order, of two messages that exclude each other the first one of the
trace runs first. Only traces with clients have the verdicts client and tight,
and only those with the column after the verdict after. waff explain says the
same in words.",
        "\
Exit status:
  0  no fault in the plan
  1  a fault in the plan"
    ),
};

const RATE: CommandWords = CommandWords {
    name: "rate",
    group: Some(PLANS),
    about: "Prints how good a plan is, whoever made it",
    words: &[
        Word::File(HIERARCHY_FILE),
        Word::File(TRACE_FILE),
        Word::File(PLAN_FILE),
    ],
    help: with_statuses!(
        "\
Example: waff rate hier.toml trace.csv plan.csv

A line each:
  verdict   what waff check prints
  workers   how many; - for any number
  total     the sum of all costs
  length    the last finish
  speedup   the total / the length
  busy      the part of the workers' time that is work
  least     no plan for as many workers is shorter than this
  over      the length / least, rounded up
  waits     the ticks that messages wait in all
  mean      the mean latency, from a release to the finish
  p50, p99  a latency that 50 and 99 of 100 messages do not exceed
  latency   the greatest latency
Least and over compare with plans in arrival order: of two messages that exclude
each other the first one of the trace runs first. With clients they compare with
plans in any order, and waits and latencies count from the issue.",
        "\
Exit status:
  0  no fault in the plan
  1  a fault in the plan"
    ),
};

const DRAW: CommandWords = CommandWords {
    name: "draw",
    group: Some(PLANS),
    about: "Prints a picture of a plan",
    words: &[
        Word::File(HIERARCHY_FILE),
        Word::File(TRACE_FILE),
        Word::File(PLAN_FILE),
        Word::Picture,
        Word::From,
        Word::To,
    ],
    help: with_statuses!(
        "\
Example: waff draw hier.toml trace.csv plan.csv --from 100 --to 200 >part.svg

The pictures:
  svg     for a browser
  events  for a viewer of traces"
    ),
};

const WHERE: CommandWords = CommandWords {
    name: "where",
    group: Some(LIMITING),
    about: "Prints where the time goes, by affinity, by name or by client",
    words: &[
        Word::File(HIERARCHY_FILE),
        Word::File(TRACE_FILE),
        Word::PlanWorkers(false),
        Word::Rule,
        Word::Names("A line for each name of messages"),
        Word::Clients,
        Word::Figures,
    ],
    help: with_statuses!(
        "\
Example: waff where hier.toml trace.csv --names

A line for each affinity:
  affinity  its name
  parent    its parent's name; - for the root
  messages  how many messages run in it
  cost      their cost
  below     the cost of those in it or below it
  chain     the cost of those in it on the chain of the plan without a limit on
            workers, or of that for K workers
With --names a line for each name of messages:
  name      the name
  messages  how many have it
  cost      their cost
  chain     the cost of those on that chain
With --clients a line for each client, with the same columns:
  client    the client; - for messages of none
With --figures six columns more, of that plan and the messages of the line:
  running   their cost / the length: how many run at once on average, where
            busy of waff sweep is a share of the workers
  waits     the ticks from their issues to their starts
  mean, p50, p99, latency  of their latencies, as in waff sweep
Messages below an affinity are in lines of their own."
    ),
};

const WAITS: CommandWords = CommandWords {
    name: "waits",
    group: Some(LIMITING),
    about: "Prints who waits for whom, and how long",
    words: &[
        Word::File(HIERARCHY_FILE),
        Word::File(TRACE_FILE),
        Word::PlanWorkers(false),
        Word::Rule,
        Word::Names("By the names of messages too"),
        Word::Worst,
    ],
    help: with_statuses!(
        "\
Example: waff waits hier.toml trace.csv --workers 8

A line for each pair of affinities of which one waits for the other, in the plan
without a limit on workers, or in that for K workers:
  affinity  that of the messages that wait
  for       that of the messages they wait for; - for a worker
  by        under locks alone: the space of the lock they wait for; - for a
            worker and for affinities that exclude each other
  messages  how many wait so
  ticks     how long they wait in all
  longest   how long one of them waits
With --names a line for each two names and their affinities:
  name         that of the messages that wait
  affinity     theirs
  forname      that of the messages they wait for; - for a worker
  foraffinity  that of those; - for a worker
  by, messages, ticks, longest  as above, of these messages
With --worst a line for each of N messages, that of the greatest latency first:
  message, name, affinity, client  its own; - for no client
  issue    the tick at which it is issued, without clients its release
  ready    the tick from which it waits for a worker alone
  start, finish, latency  of the plan; the latency is the finish - the issue
  for, forname, foraffinity  what it waits for until it is ready; - for none
  by       under locks alone: the cell whose lock it waits for; - as above"
    ),
};

const WHY: CommandWords = CommandWords {
    name: "why",
    group: Some(LIMITING),
    about: "Prints why messages run high in the tree, above other affinities",
    words: &[
        Word::File(HIERARCHY_FILE),
        Word::File(TRACE_FILE),
        Word::Names("A line for each name of messages too"),
    ],
    help: with_statuses!(
        "\
Example: waff why hier.toml trace.csv

A line for all messages of which the same is true, if they run in an affinity
below which others lie; the greatest cost first:
  affinity  in which they run
  first     the owner of their first cell
  second    the owner of the first cell that lifts them so high; - where the
            first cell alone does
  messages  how many they are
  cost      what they cost
  message   the first of them, by its number
  cell      the first cell of that message
  other     its cell of the second owner, or -
With --names a line for each name too, which stands behind the affinity:
  name      that of the messages
Cells are in the order of their spaces in the hierarchy, then of their indices."
    ),
};

const LOCKS: CommandWords = CommandWords {
    name: "locks",
    group: Some(LIMITING),
    about: "Prints which spaces are worth locks, and what these would give",
    words: &[
        Word::File(HIERARCHY_FILE),
        Word::File(TRACE_FILE),
        Word::PlanWorkers(false),
        Word::Rule,
        Word::Shared,
        Word::Steps,
    ],
    help: with_statuses!(
        "\
Example: waff locks hier.toml trace.csv --workers 8 --shared

A line for the hierarchy as it is, one for each space that could get locks
(one), one for each of at most N steps (then), and one with locks for all of
them (all). Each step adds to those before it the space with which the plan is
shortest, even where that gains nothing: two may gain only together. No step is
promised to be the best choice in the end. N bounds the time, which grows with
spaces times N. Its columns:
  what      as it is, one, then or all
  space     the one that gets locks: exclusive ones, or with --shared such as
            messages that only read a cell share; - for none or all
  tree      the greatest cost of messages at or above a common affinity
  locks     the greatest cost of messages that need one lock one after another
  order     the length of the plan without a limit on workers
  plan      the length of the plan for K workers; - without --workers
  speedup   the total / plan, without --workers the total / order
  messages  how many messages use a lock
  alone     how many locks messages use alone, each message counted by itself
  shared    how many they share
Taking a lock costs nothing here, and it is held for as long as its message
runs: weigh what is gained against the locks that are taken. Messages then never
exclude more of each other, but a plan for K workers may become longer all the
same."
    ),
};

const COMPARE: CommandWords = CommandWords {
    name: "compare",
    group: Some(TREES),
    about: "Compares a classical and a hierarchical tree on one trace",
    words: &[
        Word::File(FileWord {
            help: "A hierarchy, a TOML file",
            ..HIERARCHY_FILE
        }),
        Word::File(OTHER_FILE),
        Word::File(TRACE_FILE),
        Word::PlanWorkers(true),
    ],
    help: with_statuses!(
        "\
Example: waff compare classical.toml hier.toml trace.csv --workers 8

A line for each hierarchy:
  model        classical or hierarchical
  length       of its plan without a limit on workers
  release      of a trace with releases: that of that plan's chain
  chain        the cost of that plan's chain
  list         the length of its plan for K workers
  listrelease  of a trace with releases: that of that plan's chain
  listchain    the cost of that plan's chain
  left, right  the two sides of that plan's bound
Then:
  refines      yes where no two messages exclude each other under the
               hierarchical one alone, else no; - where one of them has locks"
    ),
};

const RANK: CommandWords = CommandWords {
    name: "rank",
    group: Some(TREES),
    about: "Prints how several trees serve one trace",
    words: &[
        Word::File(TRACE_FILE),
        Word::Files(RANKED_FILES),
        Word::PlanWorkers(true),
        Word::Rule,
    ],
    help: with_statuses!(
        "\
Example: waff rank trace.csv one.toml two.toml --workers 8

A line for each hierarchy:
  hierarchy   its number, from 1
  model       classical or hierarchical
  affinities  how many it has
  length      of its plan without a limit on workers
  list        the length of its plan for K workers
  least       no plan for K workers is shorter than this
  over        list / least, rounded up
  waits       the ticks that messages wait in all
  mean        the mean latency, from a release to the finish
  p50, p99    a latency that 50 and 99 of 100 messages do not exceed
  latency     the greatest latency
Least and over are among plans in arrival order, in which of two messages that
exclude each other the first one of the trace runs first; with clients among
plans in any order. With clients waits and latencies count from the issue."
    ),
};

const REPLAY: CommandWords = CommandWords {
    name: "replay",
    group: Some(MACHINE),
    about: "Runs the messages on threads, and prints the cells at the end",
    words: &[
        Word::File(HIERARCHY_FILE),
        Word::File(TRACE_FILE),
        Word::Threads,
    ],
    help: with_statuses!(
        "\
Example: waff replay hier.toml trace.csv --workers 4

A line for each cell that is not 0 after all messages:
  cell   its space and its index
  value  the number that it holds
The text is the same for every number of workers."
    ),
};

const RUN: CommandWords = CommandWords {
    name: "run",
    group: Some(MACHINE),
    about: "Runs the messages on files, and prints the plan of what happened",
    words: &[
        Word::File(HIERARCHY_FILE),
        Word::File(TRACE_FILE),
        Word::Run(RunWord::Folder),
        Word::PlanWorkers(true),
        Word::Run(RunWord::Cell),
        Word::Run(RunWord::Tick),
        Word::Run(RunWord::Over),
        Word::Run(RunWord::Fill),
        Word::Run(RunWord::SyncWrites),
        Word::Run(RunWord::SyncNames),
        Word::Run(RunWord::Trace),
        Word::Run(RunWord::Partial),
    ],
    help: with_statuses!(
        "\
Files DIR/SPACE.N are written over, whatever they hold: SPACE is a space, N a
place of the list of its map, from 0. Files that no run of waff has made want
--over: a run leaves a mark, the file DIR/.waff.

Example: waff run hier.toml trace.csv disk --workers 4 --trace measured.csv

Runs the messages of the trace on K threads, with reads and writes of these
files, in the order of the tree, and prints the plan of what happened, with the
starts and costs that were measured. The costs of the trace count for nothing;
its releases and think times are waited for, and what messages await. FILE is
the trace with the measured costs, for which waff check finds the plan to obey;
it is FILE.part until all is written.

Reads of what was never written touch no device: see --fill. What lies in the
page cache is read from there. A message that takes more than 1000000 ticks ends
the run with status 3: then the trace needs a larger tick.

Of a run that breaks off, by such a message or by a file that fails, nothing is
told, and no FILE is made. With --partial the messages that had ended are told,
and FILE is the trace cut down to them; then the line of the fault follows, and
its status. A signal ends a run at once, and nothing is told: where files have a
limit of size, trap '' XFSZ in the shell makes a fault of its signal.",
        "Exit status:\n  0  done"
    ),
};

const EXPLAIN: CommandWords = CommandWords {
    name: "explain",
    group: Some(FAULTS),
    about: "Explains the first fault, or the verdict on the plan, in plain words",
    words: &[
        Word::File(HIERARCHY_FILE),
        Word::FileOrNone(TRACE_FILE),
        Word::FileOrNone(PLAN_FILE),
    ],
    help: with_statuses!(
        "\
Example: waff explain hier.toml trace.csv plan.csv

The line that the other commands print, then:
  where    the file, and the place in it
  message  each message that a verdict names, where the trace has clients with
           its client, think time and issue, and with those that it awaits
  found    what stands there
  why      of an overlap: by what the two messages exclude each other
  wanted   what should stand there",
        "\
Exit status, that of the fault or the verdict:
  0  nothing is wrong
  1  a fault in the plan"
    ),
};
