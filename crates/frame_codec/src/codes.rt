//! The type codes of the messages, after Seata's; calls and their answers have this project's own.

pub(crate) const BEGIN: u16 = 1;

pub(crate) const BEGUN: u16 = 2;

pub(crate) const BRANCH_COMMIT: u16 = 3;

pub(crate) const BRANCH_COMMITTED: u16 = 4;

pub(crate) const BRANCH_ROLLBACK: u16 = 5;

pub(crate) const BRANCH_ROLLBACKED: u16 = 6;

pub(crate) const GLOBAL_COMMIT: u16 = 7;

pub(crate) const COMMIT_STATUS: u16 = 8;

pub(crate) const GLOBAL_ROLLBACK: u16 = 9;

pub(crate) const ROLLBACK_STATUS: u16 = 10;

pub(crate) const REGISTER: u16 = 11;

pub(crate) const REGISTER_ANSWER: u16 = 12;

pub(crate) const GLOBAL_STATUS: u16 = 15;

pub(crate) const STATUS_ANSWER: u16 = 16;

pub(crate) const LOCK_QUERY: u16 = 21;

pub(crate) const LOCK_ANSWER: u16 = 22;

pub(crate) const CALL: u16 = 201;

pub(crate) const ANSWER: u16 = 202;
