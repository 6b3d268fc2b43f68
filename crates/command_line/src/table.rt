//! The commands, with their files and their options. Rows are tuples, since a contract can name no
//! constant that holds a struct with references.

/// The numbers that an option takes, and its default.
#[derive(Clone, Copy)]
pub struct Bounds {
    pub least: u64,
    pub most: u64,
    pub default: u64,
}

/// What an option takes.
#[derive(Clone, Copy)]
pub enum Takes {
    Number(Bounds),
    /// The name of a kind, or `mixed`.
    Kind,
    /// The name of what is tried first.
    TryFirst,
    /// It is a flag.
    Nothing,
}

/// A file: its name, and its help.
pub type FileRow = (&'static str, &'static str);

/// An option: its name, its help, and what it takes.
pub type OptionRow = (&'static str, &'static str, Takes);

/// A command: its name, what it does, its files in their order, and its options.
pub type CommandRow = (
    &'static str,
    &'static str,
    &'static [FileRow],
    &'static [OptionRow],
);

/// The values of `--workers`.
pub const WORKERS: Bounds = Bounds {
    least: 1,
    most: 16,
    default: 1,
};

/// The values of `--steps`.
pub const STEPS: Bounds = Bounds {
    least: 0,
    most: 1_000_000_000,
    default: 1_000_000,
};

/// The values of `--objects`.
pub const OBJECTS: Bounds = Bounds {
    least: 1,
    most: 16,
    default: 1,
};

/// The values of `--clients`.
pub const CLIENTS: Bounds = Bounds {
    least: 1,
    most: 32,
    default: 2,
};

/// The values of `--calls`: how many calls each client makes.
pub const CALLS: Bounds = Bounds {
    least: 0,
    most: 10_000,
    default: 100,
};

/// The values of `--seed`.
pub const SEED: Bounds = Bounds {
    least: 0,
    most: 18_446_744_073_709_551_615,
    default: 0,
};

/// The values of `--shards`.
pub const SHARDS: Bounds = Bounds {
    least: 1,
    most: 10_000,
    default: 64,
};

const HISTORY: FileRow = (
    "HISTORY",
    "a history, one map for each event, as Jepsen writes it; import makes one from a Jepsen store",
);

const CHECK: CommandRow = (
    "check",
    "checks a history against certificates, one order of operations for each object",
    &[
        HISTORY,
        (
            "CERTS",
            "a file of certificates, one order of operations for each object",
        ),
    ],
    &[(
        "workers",
        "how many threads share the check, 1 to 16 (default 1)",
        Takes::Number(WORKERS),
    )],
);

const SEARCH: CommandRow = (
    "search",
    "searches for an order for each object, or shows that there is none",
    &[HISTORY],
    &[
        (
            "steps",
            "the most steps for each object, 0 to 1000000000 (default 1000000)",
            Takes::Number(STEPS),
        ),
        (
            "first",
            "try operations by their number or by their return: number, return (default number)",
            Takes::TryFirst,
        ),
    ],
);

const REFUTE: CommandRow = (
    "refute",
    "checks reasons why a history is not linearizable",
    &[
        HISTORY,
        (
            "REASONS",
            "a file of reasons, each a small part of the history that has no valid order",
        ),
    ],
    &[(
        "steps",
        "the most steps for each reason, 0 to 1000000000 (default 1000000)",
        Takes::Number(STEPS),
    )],
);

const VERIFY: CommandRow = (
    "verify",
    "checks orders and reasons from any source, and judges the history by them",
    &[
        HISTORY,
        (
            "EVIDENCE",
            "a file of orders, reasons and searches for objects of the history",
        ),
    ],
    &[
        (
            "steps",
            "limit of a search if the evidence names none, 0 to 1000000000 (default 1000000)",
            Takes::Number(STEPS),
        ),
        (
            "workers",
            "how many threads read the history, 1 to 16 (default 1)",
            Takes::Number(WORKERS),
        ),
    ],
);

const RUN: CommandRow = (
    "run",
    "runs clients on objects and judges what they did",
    &[],
    &[
        (
            "kind",
            "the kind of all objects: queue, stack, heap, register, map, mutex, set, counter or lock; or mixed, which is the first five in turn (default queue)",
            Takes::Kind,
        ),
        (
            "objects",
            "how many objects, 1 to 16 (default 1)",
            Takes::Number(OBJECTS),
        ),
        (
            "clients",
            "how many clients, 1 to 32 (default 2)",
            Takes::Number(CLIENTS),
        ),
        (
            "calls",
            "how many calls each client makes, 0 to 10000 (default 100)",
            Takes::Number(CALLS),
        ),
        ("seed", "seed of the calls (default 0)", Takes::Number(SEED)),
    ],
);

const SIMULATE: CommandRow = (
    "simulate",
    "plays a schedule and judges its record",
    &[("SCHEDULE", "a file with the steps of the clients")],
    &[],
);

const SPLIT: CommandRow = (
    "split",
    "divides a history of any length into shards, each a history of its own, by objects",
    &[
        HISTORY,
        ("FOLDER", "the folder for the shards; created if missing"),
    ],
    &[(
        "shards",
        "how many shards, 1 to 10000 (default 64)",
        Takes::Number(SHARDS),
    )],
);

const MERGE: CommandRow = (
    "merge",
    "verifies each shard of a history by its evidence, and judges the full history",
    &[(
        "FOLDER",
        "the folder with the shards, and the evidence of each",
    )],
    &[
        (
            "steps",
            "limit of a search if the evidence names none, 0 to 1000000000 (default 1000000)",
            Takes::Number(STEPS),
        ),
        (
            "trust-statuses",
            "checks nothing: trusts the exit statuses of judge in the files N.status; ignores --steps",
            Takes::Nothing,
        ),
    ],
);

/// The commands of the bench, as help lists them.
pub const BENCH_COMMANDS: [CommandRow; 4] = [CHECK, SEARCH, RUN, SIMULATE];

/// The commands of the verifier, as help lists them.
pub const HISTORY_COMMANDS: [CommandRow; 6] = [CHECK, SEARCH, REFUTE, VERIFY, SPLIT, MERGE];
