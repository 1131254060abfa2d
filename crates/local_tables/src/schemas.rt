//! What a resource's tables are like, and what calls on them answer.
use seata_types::{BranchKind, Duplicate, Image, List, NoMemory, ReadRow, StmtError, Text};
use std::alloc::Global;

/// The type of a column.
#[derive(Clone, Copy, PartialEq, Eq)]
pub enum ColType {
    Int,
    Text,
}

impl Duplicate for ColType {
    fn copy(&self, _alloc: Global) -> Result<Self, NoMemory> {
        Ok(*self)
    }
}

/// A table: its name, its mode, its columns in order, and the places of its key columns among them, counted from 0, in
/// key order. A key has one to four columns.
#[derive(Drop)]
pub struct TableDef {
    pub name: Text,
    pub mode: BranchKind,
    pub columns: List<(Text, ColType)>,
    pub key: List<u16>,
}

impl Duplicate for TableDef {
    fn copy(&self, alloc: Global) -> Result<Self, NoMemory> {
        Ok(TableDef {
            name: self.name.copy(alloc)?,
            mode: self.mode,
            columns: self.columns.copy(alloc)?,
            key: self.key.copy(alloc)?,
        })
    }
}

/// The tables of a resource.
#[derive(Drop)]
pub struct Schema {
    pub tables: List<TableDef>,
}

impl Duplicate for Schema {
    fn copy(&self, alloc: Global) -> Result<Self, NoMemory> {
        Ok(Schema {
            tables: self.tables.copy(alloc)?,
        })
    }
}

/// Whether images are done, which puts their afters, or undone, which puts their befores.
#[derive(Clone, Copy, PartialEq, Eq)]
pub enum Way {
    Do,
    Undo,
}

/// What a call does, after Seata's undo log: an image for each row that it touches, a read for each row that it reads,
/// both in order of keys, and how many rows each of its statements touches.
#[derive(Drop)]
pub struct Effect {
    pub images: List<Image>,
    pub reads: List<ReadRow>,
    pub touched: List<u32>,
}

/// Why a call has no effect: the first statement without a meaning, counted from 1, or want of memory.
#[derive(Drop)]
pub enum EffectError {
    At { index: u16, why: StmtError },
    NoMemory,
}
