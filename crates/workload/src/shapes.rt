// What the jobs and the calls of a list are drawn from.

// Which tasks of a job send to which.
#[derive(Clone, Copy, PartialEq, Eq)]
pub enum Graph {
    Independent,
    Chain,
    Fork,
    Join,
    Tree,
    Lattice,
    Random,
}

#[derive(Clone, Copy)]
pub struct Shape {
    // Without one, each job draws its own.
    pub graph: Option<Graph>,
    // The most tasks of a job.
    pub tasks: u64,
    // A volume is below this.
    pub volume: u64,
    // The longest run time, and how many of 8 machines cannot run a task.
    pub run: u64,
    pub unable: u64,
    // Run times that make the machines' costs equal.
    pub tied: bool,
    // A deadline is the clock, this lead, this lag for each task before it, and a draw below the slack.
    pub lead: u64,
    pub lag: u64,
    pub slack: u64,
    // Dispatch and scheduling times are below these.
    pub dispatch: u64,
    pub scheduling: u64,
    // Jobs are numbered from 1 to this.
    pub numbers: u64,
    // One job in so many has figures out of range, and one in so many has figures at their limits. With `None`, no job has.
    pub faults: Option<u64>,
    pub limits: Option<u64>,
    // How many of 16 calls are submissions, and of the others how many of 16 withdrawals and clock moves; the rest are looks.
    pub submissions: u64,
    pub withdrawals: u64,
    pub advances: u64,
    // The longest clock move, and whether the clock also goes to the starts and finishes of jobs.
    pub step: u64,
    pub jumps: bool,
}

// What the others vary.
const USUAL: Shape = Shape {
    graph: None,
    tasks: 6,
    volume: 6,
    run: 9,
    unable: 2,
    tied: false,
    lead: 20,
    lag: 8,
    slack: 40,
    dispatch: 3,
    scheduling: 3,
    numbers: 90,
    faults: Some(40),
    limits: None,
    submissions: 9,
    withdrawals: 6,
    advances: 5,
    step: 12,
    jumps: true,
};

// Many short jobs with early deadlines, on few machines.
pub const DENSE: Shape = Shape {
    tasks: 3,
    unable: 5,
    lead: 6,
    lag: 3,
    slack: 16,
    numbers: 80,
    step: 4,
    ..USUAL
};

pub const CHAINS: Shape = Shape {
    graph: Some(Graph::Chain),
    tasks: 12,
    ..USUAL
};

pub const FORKS: Shape = Shape {
    graph: Some(Graph::Fork),
    tasks: 9,
    lead: 30,
    lag: 4,
    ..USUAL
};

pub const JOINS: Shape = Shape {
    graph: Some(Graph::Join),
    tasks: 9,
    lead: 30,
    lag: 5,
    ..USUAL
};

pub const TREES: Shape = Shape {
    graph: Some(Graph::Tree),
    tasks: 16,
    lead: 40,
    lag: 5,
    ..USUAL
};

pub const LATTICES: Shape = Shape {
    graph: Some(Graph::Lattice),
    tasks: 16,
    lead: 40,
    lag: 10,
    numbers: 60,
    step: 30,
    ..USUAL
};

pub const RANDOM_GRAPHS: Shape = Shape {
    graph: Some(Graph::Random),
    tasks: 10,
    volume: 3,
    lead: 60,
    lag: 10,
    slack: 80,
    step: 30,
    ..USUAL
};

// Equal costs, starts and deadlines.
pub const TIES: Shape = Shape {
    tasks: 5,
    volume: 2,
    tied: true,
    lead: 60,
    lag: 0,
    slack: 2,
    dispatch: 0,
    scheduling: 0,
    step: 20,
    ..USUAL
};

// Figures out of range, in every other job.
pub const OUT_OF_RANGE: Shape = Shape {
    tasks: 16,
    lead: 60,
    lag: 10,
    faults: Some(2),
    limits: Some(9),
    submissions: 12,
    ..USUAL
};

// The largest figures.
pub const LARGE_FIGURES: Shape = Shape {
    tasks: 16,
    volume: 1_001,
    run: 1_000_000,
    lead: 4_000_000,
    lag: 900_000,
    slack: 3_000_000,
    dispatch: 200_000,
    scheduling: 1_000_001,
    limits: Some(4),
    step: 2_000_000,
    ..USUAL
};

// A register that stays nearly full of short jobs.
pub const CROWDED: Shape = Shape {
    tasks: 2,
    unable: 1,
    lead: 2_000,
    lag: 10,
    dispatch: 2,
    scheduling: 2,
    numbers: 900,
    faults: Some(60),
    submissions: 11,
    withdrawals: 9,
    advances: 2,
    step: 3,
    jumps: false,
    ..USUAL
};

// The same with tasks that send to each other.
pub const CROWDED_GRAPHS: Shape = Shape {
    tasks: 6,
    numbers: 500,
    submissions: 9,
    ..CROWDED
};
