//! The public reader: one field after the other.
ghost use Rattle.std.specs.Prelude.{◌≡◌, ◌+◌, ◌<◌, ◌^◌, [], ◌∷◌, length};
ghost use Rattle.std.specs.Int.{w8, w16, w32, w64, to_be_bytes};
ghost use Rattle.byte_fields.specs.Layout.{FitsText, FitsValue, FitsRow, FitsOptionRow, FitsKey, FitsKeys, FitsImages, FitsReads, FitsKeyIn, FitsKeysIn, FitsImagesIn, FitsReadsIn, FitsTicket, text_bytes, value_bytes, row_bytes, option_row_bytes, key_bytes, keys_bytes, images_bytes, reads_bytes, key_bytes_in, keys_bytes_in, images_bytes_in, reads_bytes_in, ticket_bytes};
ghost use Rattle.byte_fields.specs.Reading.{Takes, number_at, text_at, value_at, row_at, option_row_at, key_at, keys_at, images_at, reads_at, key_in, keys_in, images_in, reads_in, ticket_at};
ghost use Rattle.byte_fields.specs.Exactness.{ReadsExactly};
ghost use Rattle.byte_fields.specs.Parts.{xid_bytes, FitsXid, xid_at, branch_bytes, FitsBranch, branch_at, leg_bytes, FitsLeg, leg_at, kind_code, kind_at, truth_code, truth_at, status_at, branch_status_at};
ghost use Rattle.seata_types.specs.Statuses.{code_of, branch_code_of};

use crate::cursor::Cursor;
use crate::errors::FieldError;
use crate::layouts::KeyLayout;
use crate::{codes, keys, lists, reading, rows};
use seata_types::{
    BranchId, BranchKind, BranchStatus, GlobalStatus, Image, Leg, List, ReadRow, Row, RowKey, Text,
    Ticket, Value, Xid,
};
use std::alloc::Global;
use std::marker::Model;

/// Reads one field after the other. Contracts see a place: how many bytes stand before it, and
/// those from it on.
///
/// Of each call `exact` says what it answers, by a reader of `specs/`, and `layout` says of that
/// reader that what fits is read back whatever follows it, and that what is read fits and stands
/// there.
#[derive(Drop)]
pub struct Fields<'a> {
    cursor: Cursor<'a>,
}

impl<'a> Model for Fields<'a> {
    ghost use Rattle.byte_fields.specs.Reading.{Position};
    ghost use Rattle.byte_fields.specs.Cursors.{position};

    ghost Value = { Position };

    ghost view = { λ f. position f.cursor };
}

impl<'a> Fields<'a> {
    /// A reader of these bytes from their beginning.
    pub fn new(bytes: &'a [u8]) -> Fields<'a>
        ensures { result ≡ record { at = 0; rest = bytes.now } }
    {
        let cursor = Cursor { at: 0, rest: bytes };
        Fields { cursor }
    }

    /// A reader of these bytes, before which `at` others stand.
    pub fn starting_at(at: usize, bytes: &'a [u8]) -> Fields<'a>
        requires { at + length bytes.now < 2 ^ 64 }
        ensures { result ≡ record { at = at; rest = bytes.now } }
    {
        let cursor = Cursor { at, rest: bytes };
        Fields { cursor }
    }

    /// The place: how many bytes stand before it.
    pub fn at(&self) -> usize
        ensures { result ≡ self.now.at }
    {
        self.cursor.at
    }

    /// Takes one byte.
    #[tactic(auto, using(crate::proofs::Numbers::byte_exact))]
    pub fn take_u8(&mut self) -> Result<u8, FieldError>
        ensures exact { Takes (number_at w8) self.old self.new result }
        ensures layout { ReadsExactly (number_at w8) (λ n. n ∷ []) (λ n. n < 2 ^ 8) }
    {
        let (number, after) = reading::byte(self.cursor)?;
        self.cursor = after;
        Ok(number)
    }

    /// Takes two bytes, the high one first.
    #[tactic(auto, using(crate::proofs::Numbers::two_bytes_exact))]
    pub fn take_u16(&mut self) -> Result<u16, FieldError>
        ensures exact { Takes (number_at w16) self.old self.new result }
        ensures layout { ReadsExactly (number_at w16) (to_be_bytes w16) (λ n. n < 2 ^ 16) }
    {
        let (number, after) = reading::two_bytes(self.cursor)?;
        self.cursor = after;
        Ok(number)
    }

    /// Takes four bytes, the highest one first.
    #[tactic(auto, using(crate::proofs::Numbers::four_bytes_exact))]
    pub fn take_u32(&mut self) -> Result<u32, FieldError>
        ensures exact { Takes (number_at w32) self.old self.new result }
        ensures layout { ReadsExactly (number_at w32) (to_be_bytes w32) (λ n. n < 2 ^ 32) }
    {
        let (number, after) = reading::four_bytes(self.cursor)?;
        self.cursor = after;
        Ok(number)
    }

    /// Takes eight bytes, the highest one first.
    #[tactic(auto, using(crate::proofs::Numbers::eight_bytes_exact))]
    pub fn take_u64(&mut self) -> Result<u64, FieldError>
        ensures exact { Takes (number_at w64) self.old self.new result }
        ensures layout { ReadsExactly (number_at w64) (to_be_bytes w64) (λ n. n < 2 ^ 64) }
    {
        let (number, after) = reading::eight_bytes(self.cursor)?;
        self.cursor = after;
        Ok(number)
    }

    /// Takes two bytes of length, and as many of UTF-8 without control characters.
    #[tactic(auto, using(crate::proofs::Texts::text_exact))]
    pub fn take_text(&mut self, alloc: Global) -> Result<Text, FieldError>
        ensures exact { Takes text_at self.old self.new result }
        ensures layout { ReadsExactly text_at text_bytes FitsText }
    {
        let (text, after) = reading::text(alloc, self.cursor)?;
        self.cursor = after;
        Ok(text)
    }

    /// Takes 0 and a number as a two's complement of eight bytes, or 1 and a text of at most 120.
    #[tactic(auto, using(crate::proofs::Values::value_exact))]
    pub fn take_value(&mut self, alloc: Global) -> Result<Value, FieldError>
        ensures exact { Takes value_at self.old self.new result }
        ensures layout { ReadsExactly value_at value_bytes FitsValue }
    {
        let (value, after) = reading::value(alloc, self.cursor)?;
        self.cursor = after;
        Ok(value)
    }

    /// Takes two bytes of count, and as many values.
    #[tactic(auto, using(crate::proofs::Records::row_exact))]
    pub fn take_row(&mut self, alloc: Global) -> Result<Row, FieldError>
        ensures exact { Takes row_at self.old self.new result }
        ensures layout { ReadsExactly row_at row_bytes FitsRow }
    {
        let (row, after) = rows::row(alloc, self.cursor)?;
        self.cursor = after;
        Ok(row)
    }

    /// Takes 0, or 1 and a row.
    #[tactic(auto, using(crate::proofs::Records::option_row_exact))]
    pub fn take_option_row(&mut self, alloc: Global) -> Result<Option<Row>, FieldError>
        ensures exact { Takes option_row_at self.old self.new result }
        ensures layout { ReadsExactly option_row_at option_row_bytes FitsOptionRow }
    {
        let (row, after) = rows::option_row(alloc, self.cursor)?;
        self.cursor = after;
        Ok(row)
    }

    /// Takes a resource of two bytes, a table, and the count and the values of its key columns, one to
    /// four.
    #[tactic(auto, using(crate::proofs::KeyLaws::written_key_exact))]
    pub fn take_key(&mut self, alloc: Global) -> Result<RowKey, FieldError>
        ensures exact { Takes key_at self.old self.new result }
        ensures layout { ReadsExactly key_at key_bytes FitsKey }
    {
        let (found, after) = keys::key(alloc, KeyLayout::Counted, self.cursor)?;
        self.cursor = after;
        Ok(found)
    }

    /// Takes two bytes of count, and as many keys in rising order.
    #[tactic(auto, using(crate::proofs::Records::written_keys_exact))]
    pub fn take_keys(&mut self, alloc: Global) -> Result<List<RowKey>, FieldError>
        ensures exact { Takes keys_at self.old self.new result }
        ensures layout { ReadsExactly keys_at keys_bytes FitsKeys }
    {
        let (found, after) = lists::list::<RowKey>(alloc, KeyLayout::Counted, self.cursor)?;
        self.cursor = after;
        Ok(found)
    }

    /// Takes two bytes of count, and as many images in rising order of their keys: of each the key,
    /// the row before and the row after, each of which may be absent. A key out of order is met
    /// before its rows.
    #[tactic(auto, using(crate::proofs::Records::written_images_exact))]
    pub fn take_images(&mut self, alloc: Global) -> Result<List<Image>, FieldError>
        ensures exact { Takes images_at self.old self.new result }
        ensures layout { ReadsExactly images_at images_bytes FitsImages }
    {
        let (found, after) = lists::list::<Image>(alloc, KeyLayout::Counted, self.cursor)?;
        self.cursor = after;
        Ok(found)
    }

    /// Takes two bytes of count, and as many reads in rising order of their keys: of each the key
    /// and the row. A key out of order is met before its row.
    #[tactic(auto, using(crate::proofs::Records::written_reads_exact))]
    pub fn take_reads(&mut self, alloc: Global) -> Result<List<ReadRow>, FieldError>
        ensures exact { Takes reads_at self.old self.new result }
        ensures layout { ReadsExactly reads_at reads_bytes FitsReads }
    {
        let (found, after) = lists::list::<ReadRow>(alloc, KeyLayout::Counted, self.cursor)?;
        self.cursor = after;
        Ok(found)
    }

    /// Takes a key in the older layout, with one value and no count of them.
    #[tactic(auto, using(crate::proofs::KeyLaws::key_exact))]
    pub fn take_old_key(&mut self, alloc: Global) -> Result<RowKey, FieldError>
        ensures exact { Takes (key_in KeyLayout.Single) self.old self.new result }
        ensures layout { ReadsExactly (key_in KeyLayout.Single) (key_bytes_in KeyLayout.Single) (FitsKeyIn KeyLayout.Single) }
    {
        let (found, after) = keys::key(alloc, KeyLayout::Single, self.cursor)?;
        self.cursor = after;
        Ok(found)
    }

    /// Takes keys as `take_keys` does, in the older layout.
    #[tactic(auto, using(crate::proofs::Records::keys_exact))]
    pub fn take_old_keys(&mut self, alloc: Global) -> Result<List<RowKey>, FieldError>
        ensures exact { Takes (keys_in KeyLayout.Single) self.old self.new result }
        ensures layout { ReadsExactly (keys_in KeyLayout.Single) (keys_bytes_in KeyLayout.Single) (FitsKeysIn KeyLayout.Single) }
    {
        let (found, after) = lists::list::<RowKey>(alloc, KeyLayout::Single, self.cursor)?;
        self.cursor = after;
        Ok(found)
    }

    /// Takes images as `take_images` does, with keys in the older layout.
    #[tactic(auto, using(crate::proofs::Records::images_exact))]
    pub fn take_old_images(&mut self, alloc: Global) -> Result<List<Image>, FieldError>
        ensures exact { Takes (images_in KeyLayout.Single) self.old self.new result }
        ensures layout { ReadsExactly (images_in KeyLayout.Single) (images_bytes_in KeyLayout.Single) (FitsImagesIn KeyLayout.Single) }
    {
        let (found, after) = lists::list::<Image>(alloc, KeyLayout::Single, self.cursor)?;
        self.cursor = after;
        Ok(found)
    }

    /// Takes reads as `take_reads` does, with keys in the older layout.
    #[tactic(auto, using(crate::proofs::Records::reads_exact))]
    pub fn take_old_reads(&mut self, alloc: Global) -> Result<List<ReadRow>, FieldError>
        ensures exact { Takes (reads_in KeyLayout.Single) self.old self.new result }
        ensures layout { ReadsExactly (reads_in KeyLayout.Single) (reads_bytes_in KeyLayout.Single) (FitsReadsIn KeyLayout.Single) }
    {
        let (found, after) = lists::list::<ReadRow>(alloc, KeyLayout::Single, self.cursor)?;
        self.cursor = after;
        Ok(found)
    }

    /// Takes a boot and the count since it, four bytes each.
    #[tactic(auto, using(crate::proofs::Records::ticket_exact))]
    pub fn take_ticket(&mut self) -> Result<Ticket, FieldError>
        ensures exact { Takes ticket_at self.old self.new result }
        ensures layout { ReadsExactly ticket_at ticket_bytes FitsTicket }
    {
        let (ticket, after) = reading::ticket(self.cursor)?;
        self.cursor = after;
        Ok(ticket)
    }
    /// Takes keys in either layout.
    #[tactic(auto, using(crate::proofs::Records::keys_exact))]
    pub fn take_keys_in(
        &mut self,
        alloc: Global,
        layout: KeyLayout,
    ) -> Result<List<RowKey>, FieldError>
        ensures exact { Takes (keys_in layout) self.old self.new result }
        ensures layout { ReadsExactly (keys_in layout) (keys_bytes_in layout) (FitsKeysIn layout) }
    {
        let (found, after) = lists::list::<RowKey>(alloc, layout, self.cursor)?;
        self.cursor = after;
        Ok(found)
    }

    /// Takes images whose keys have either layout.
    #[tactic(auto, using(crate::proofs::Records::images_exact))]
    pub fn take_images_in(
        &mut self,
        alloc: Global,
        layout: KeyLayout,
    ) -> Result<List<Image>, FieldError>
        ensures exact { Takes (images_in layout) self.old self.new result }
        ensures layout { ReadsExactly (images_in layout) (images_bytes_in layout) (FitsImagesIn layout) }
    {
        let (found, after) = lists::list::<Image>(alloc, layout, self.cursor)?;
        self.cursor = after;
        Ok(found)
    }

    /// Takes reads whose keys have either layout.
    #[tactic(auto, using(crate::proofs::Records::reads_exact))]
    pub fn take_reads_in(
        &mut self,
        alloc: Global,
        layout: KeyLayout,
    ) -> Result<List<ReadRow>, FieldError>
        ensures exact { Takes (reads_in layout) self.old self.new result }
        ensures layout { ReadsExactly (reads_in layout) (reads_bytes_in layout) (FitsReadsIn layout) }
    {
        let (found, after) = lists::list::<ReadRow>(alloc, layout, self.cursor)?;
        self.cursor = after;
        Ok(found)
    }

    /// Takes a transaction, eight bytes.
    #[tactic(auto, using(crate::proofs::PartLaws::xid_exact))]
    pub fn take_xid(&mut self) -> Result<Xid, FieldError>
        ensures exact { Takes xid_at self.old self.new result }
        ensures layout { ReadsExactly xid_at xid_bytes FitsXid }
    {
        let (found, after) = codes::xid(self.cursor)?;
        self.cursor = after;
        Ok(found)
    }

    /// Takes a branch, eight bytes.
    #[tactic(auto, using(crate::proofs::PartLaws::branch_exact))]
    pub fn take_branch(&mut self) -> Result<BranchId, FieldError>
        ensures exact { Takes branch_at self.old self.new result }
        ensures layout { ReadsExactly branch_at branch_bytes FitsBranch }
    {
        let (found, after) = codes::branch(self.cursor)?;
        self.cursor = after;
        Ok(found)
    }

    /// Takes a branch behind its transaction, eight bytes each.
    #[tactic(auto, using(crate::proofs::PartLaws::leg_exact))]
    pub fn take_leg(&mut self) -> Result<Leg, FieldError>
        ensures exact { Takes leg_at self.old self.new result }
        ensures layout { ReadsExactly leg_at leg_bytes FitsLeg }
    {
        let (found, after) = codes::leg(self.cursor)?;
        self.cursor = after;
        Ok(found)
    }

    /// Takes the mode of a branch: 0 for AT, 1 for TCC.
    #[tactic(auto, using(crate::proofs::PartLaws::kind_exact))]
    pub fn take_kind(&mut self) -> Result<BranchKind, FieldError>
        ensures exact { Takes kind_at self.old self.new result }
        ensures layout { ReadsExactly kind_at (λ kind. kind_code kind ∷ []) (λ kind. Unit {0}) }
    {
        let (found, after) = codes::kind(self.cursor)?;
        self.cursor = after;
        Ok(found)
    }

    /// Takes 0 for false, or 1 for true.
    #[tactic(auto, using(crate::proofs::PartLaws::truth_exact))]
    pub fn take_truth(&mut self) -> Result<bool, FieldError>
        ensures exact { Takes truth_at self.old self.new result }
        ensures layout { ReadsExactly truth_at (λ truth. truth_code truth ∷ []) (λ truth. Unit {0}) }
    {
        let (found, after) = codes::truth(self.cursor)?;
        self.cursor = after;
        Ok(found)
    }

    /// Takes the number of a global status of Seata, 0 to 15.
    #[tactic(auto, using(crate::proofs::PartLaws::status_exact))]
    pub fn take_status(&mut self) -> Result<GlobalStatus, FieldError>
        ensures exact { Takes status_at self.old self.new result }
        ensures layout { ReadsExactly status_at (λ status. code_of status ∷ []) (λ status. Unit {0}) }
    {
        let (found, after) = codes::status(self.cursor)?;
        self.cursor = after;
        Ok(found)
    }

    /// Takes the number of a branch status of Seata, 0 to 10.
    #[tactic(auto, using(crate::proofs::PartLaws::branch_status_exact))]
    pub fn take_branch_status(&mut self) -> Result<BranchStatus, FieldError>
        ensures exact { Takes branch_status_at self.old self.new result }
        ensures layout { ReadsExactly branch_status_at (λ status. branch_code_of status ∷ []) (λ status. Unit {0}) }
    {
        let (found, after) = codes::branch_status(self.cursor)?;
        self.cursor = after;
        Ok(found)
    }
}
