//! The first byte of a record. A branch's is 16 above that of records whose keys have the older layout.

pub(crate) const BEGUN: u8 = 1;

pub(crate) const OLD_GRANTED: u8 = 2;

pub(crate) const DECIDED: u8 = 3;

pub(crate) const RETRYING: u8 = 4;

pub(crate) const ENDED: u8 = 5;

pub(crate) const FAILED: u8 = 6;

pub(crate) const FINISHED: u8 = 7;

pub(crate) const FORGOT: u8 = 8;

pub(crate) const GRANTED: u8 = 18;
