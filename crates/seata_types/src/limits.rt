//! The limits of scenarios, statements, texts and bytes, each with its unit, and the defaults of a
//! scenario. They are this project's own.

/// Input of one call, in bytes.
pub const INPUT_BYTES: usize = 4_194_304;
/// Input of the word that judges a printed history, in bytes.
pub const HISTORY_BYTES: usize = 67_108_864;
/// Resources of a scenario.
pub const RESOURCES: usize = 32;
/// Tables of a resource.
pub const TABLES: usize = 16;
/// Columns of a table.
pub const COLUMNS: usize = 8;
/// Columns of a table's key; the least is 1.
pub const KEY_PARTS: usize = 4;
/// Rows of a resource over all its tables, at the opening and later.
pub const RESOURCE_ROWS: usize = 4_096;
/// Different rows that one call touches or reads.
pub const CALL_ROWS: usize = 256;
/// Managers of a scenario.
pub const MANAGERS: usize = 256;
/// Calls of a manager.
pub const CALLS: usize = 32;
/// Local transactions of a scenario.
pub const LOCALS: usize = 256;
/// Statements of one list.
pub const STATEMENTS: usize = 16;
/// A statement's source text, in bytes.
pub const STATEMENT_BYTES: usize = 2_000;
/// A text as a value, in bytes.
pub const TEXT_BYTES: usize = 120;
/// The name of a table or a column, in bytes.
pub const NAME_BYTES: usize = 32;
/// The name of a node, in bytes.
pub const NODE_NAME_BYTES: usize = 16;
/// NOT and parentheses that are open at once in a condition.
pub const NESTING: usize = 16;
/// Members of a schedule.
pub const SCHEDULE_MEMBERS: usize = 20_000;
/// Single steps that the members of a schedule stand for, and so the entries of a history.
pub const STEPS: usize = 20_000;
/// A timeout, a retry, a wait or the age at which a session is forgotten, in ticks; the least is 1,
/// of that age 0.
pub const TICKS: u64 = 1_000_000_000;
/// How often a resource tries for the global lock; the least is 1.
pub const LOCK_TRIES: u32 = 1_000;
/// How many messages a manager may be told to send.
pub const SILENT: u32 = 1_000_000;
/// How many calls of its disk a node may be told to make before it stops.
pub const STOP_CALLS: u32 = 1_000_000;
/// A node's disk in bytes, at the least and at the most.
pub const DISK_LEAST: u64 = 4_096;

pub const DISK_MOST: u64 = 16_777_216;
/// The disk that keeps a scenario, in bytes.
pub const SCENARIO_DISK: u64 = 8_388_608;
/// The body of a frame or of a journal's record, in bytes.
pub const BODY_BYTES: usize = 1_048_576;
/// Items of a list and bytes of a text in a field, whose count has two bytes.
pub const FIELD_ITEMS: usize = 65_535;
/// Acts that a snapshot stands for are fewer.
pub const ACTS: u32 = 2_147_483_648;
/// Steps that a node may make.
pub const NODE_STEPS: u32 = 4_294_967_294;
/// The latest tick at which a coordinator's clock starts.
pub const LATEST_START: u64 = 4_611_686_018_427_387_904;
/// The latest tick at which a node takes a step.
pub const LATEST_MOMENT: u64 = 9_223_372_036_854_775_808;
/// Bytes that a reader asks for at once where it reads an input piece by piece.
pub const PIECE_BYTES: usize = 65_536;

/// A scenario's timeout where it names none, in ticks.
pub const DEFAULT_TIMEOUT: u64 = 60_000;
/// How often a resource tries for the global lock where the scenario doesn't say.
pub const DEFAULT_LOCK_TRIES: u32 = 30;
/// The ticks until a session is asked again, where the scenario doesn't say.
pub const DEFAULT_RETRY: u64 = 1_000;
/// A node's disk in bytes where the scenario doesn't say.
pub const DEFAULT_DISK: u64 = 4_194_304;
