//! The first byte of a record. That of a record with images is 16 above that of records whose keys have the older layout,
//! where there was one.

pub(crate) const BOOT: u8 = 1;

pub(crate) const OLD_COMMITTED: u8 = 2;

pub(crate) const UNDONE: u8 = 3;

pub(crate) const MARKED: u8 = 4;

pub(crate) const CLEARED: u8 = 5;

pub(crate) const OLD_TRIED: u8 = 6;

pub(crate) const OLD_CONFIRMED: u8 = 7;

pub(crate) const OLD_CANCELLED: u8 = 8;

pub(crate) const SUSPENDED: u8 = 9;

pub(crate) const COMMITTED: u8 = 18;

pub(crate) const TRIED: u8 = 22;

pub(crate) const CONFIRMED: u8 = 23;

pub(crate) const CANCELLED: u8 = 24;

pub(crate) const LOCAL_COMMITTED: u8 = 26;

pub(crate) const OUTSIDE: u8 = 27;
