//! The limits of tables, plans and runs. Each stands here once, and in the definitions in `specs/Limits.antt`.

/// The most columns of a relation, and of a node's output.
pub const MAX_COLUMNS: usize = 64;

/// The most declared keys of a relation.
pub const MAX_KEYS: usize = 16;

/// The most relations of a catalog.
pub const MAX_RELATIONS: usize = 256;

/// The most rows of a relation.
pub const MAX_ROWS: usize = 100_000_000;

/// The most bytes of a text that is read: a table, a catalog, a plan or a bundle.
pub const MAX_TEXT_BYTES: usize = 1 << 40;

/// The most nodes of a plan.
pub const MAX_NODES: u32 = 1000;

/// The most levels of a plan, from the root down to a scan.
pub const MAX_LEVELS: u32 = 64;

/// The most names of sizes that a plan declares.
pub const MAX_SIZE_NAMES: usize = 16;

/// The most workers of a worker group, and so the most that a size name is bound to.
pub const MAX_GROUP_WORKERS: u32 = 64;

/// The most workers of a run, all worker groups together.
pub const MAX_WORKERS: u32 = 256;

/// The most rows of a packet.
pub const MAX_PACKET_ROWS: u32 = 4096;

/// The most rows of a morsel.
pub const MAX_MORSEL_ROWS: u32 = 1_000_000;

/// The most packets by which a producer may run ahead of a consumer.
pub const MAX_SLACK: u32 = 1024;

/// The most rows of a relation that `gen` makes.
pub const MAX_GENERATED_ROWS: u64 = 10_000_000;

/// The most threads that read or write a table.
pub const MAX_THREADS: usize = 64;
