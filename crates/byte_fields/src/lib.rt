//! Fields as bytes, both ways: numbers, texts, values, rows, keys, images and reads.
//! What is appended is read back whatever follows it, and the first fault of bytes that are no
//! field has its kind and its place.
#![tactic(auto)]

mod appending;
mod codes;
mod cursor;
mod errors;
mod fields;
mod items;
mod keys;
mod layouts;
mod lists;
mod putting;
mod reading;
mod rows;
mod writing;

pub use errors::FieldError;
pub use fields::Fields;
pub use items::{Item, take_list, take_long_list};
pub use layouts::KeyLayout;
pub use putting::{
    put_images, put_key, put_keys, put_kind, put_leg, put_option_row, put_reads, put_row, put_text,
    put_ticket, put_u8, put_u16, put_u32, put_u64, put_value,
};
