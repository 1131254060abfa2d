//! The words of the whole system: identities, rows, statements, statuses, messages and acts.
//! Each is plain data. What runs here makes, compares and copies them, with memory that the caller
//! hands over, and reads the tables of statuses; nothing here keeps state.
#![tactic(auto)]

pub mod acts;
pub mod boxes;
pub mod conditions;
pub mod copies;
pub mod errors;
pub mod ids;
pub mod limits;
pub mod lists;
pub mod messages;
pub mod rows;
pub mod sharing;
pub mod statements;
pub mod statuses;
pub mod texts;

pub use acts::{Act, Durable};
pub use boxes::Boxed;
pub use conditions::{Cond, CondNode, Op};
pub use copies::{Duplicate, NoMemory};
pub use errors::{Full, NodeError, OpenError, StmtError, StoreError, Why};
pub use ids::{BranchId, Leg, Place, Ticket, Xid};
pub use lists::List;
pub use messages::{CallAnswer, Input, Message, Outgoing, Registered, Step};
pub use rows::{Image, ReadRow, Row, RowKey, Value};
pub use sharing::Shared;
pub use statements::{Action, Expr, Sign, Stmt, Term, Work};
pub use statuses::{BranchKind, BranchStatus, Decision, Ending, GlobalStatus, may_follow};
pub use texts::Text;
