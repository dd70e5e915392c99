// Sheets read over a name table that is empty at first.
ghost use Rattle.std.specs.Prelude.{◌≡◌, replicate, get_or, IfOk};
ghost use Rattle.edition.specs.Files.{ReadAll};

use anyhow::{Result, bail};
use edition::intake::{Unready, read_all};
use edition::model::{File, Room, Sheet};
use names::tables::NameTable;
use rules::{POOL_BYTES, TABLE_WORDS};
use std::alloc::Global;

/// A pool and a table of names.
#[derive(Drop)]
pub struct Tables {
    pub pool: Vec<u8>,
    pub table: Vec<u32>,
}

impl Tables {
    /// No name is held.
    pub fn new(alloc: Global) -> Result<Tables>
        ensures pool { IfOk result (λ t. t.pool.items ≡ replicate 8192 0) }
        ensures table { IfOk result (λ t. t.table.items ≡ replicate 257 0) }
    {
        Ok(Tables {
            pool: vec![in alloc; 0; POOL_BYTES]?,
            table: vec![in alloc; 0; TABLE_WORDS]?,
        })
    }

    /// The names that are held.
    pub fn names(&self) -> Result<NameTable<'_>>
        ensures { IfOk result (λ t. (t.pool.now ≡ self.now.pool.items) × (t.table.now ≡ self.now.table.items)) }
    {
        match NameTable::new(&self.pool, &self.table) {
            Ok(names) => Ok(names),
            Err(why) => bail!("the name table is refused with {}", why.number()),
        }
    }

    /// How many names are held.
    pub fn count(&self) -> usize
        ensures { result ≡ get_or self.now.table.items 0 0 }
    {
        match self.table.first() {
            Some(count) => *count as usize,
            None => 0,
        }
    }

    /// Reads files, one after another.
    pub fn read<'a>(
        &mut self,
        alloc: Global,
        files: &[File<'a>],
        room: &mut Room,
    ) -> Result<Vec<Sheet<'a>>>
        ensures { IfOk result
            (λ xs. ReadAll self.old.pool.items self.old.table.items files.now xs.items self.new.pool.items self.new.table.items) }
    {
        match read_all(alloc, &mut self.pool, &mut self.table, files, room) {
            Ok(sheets) => Ok(sheets),
            Err(Unready::Names(why)) => bail!("the name table is refused with {}", why.number()),
            Err(Unready::Memory(why)) => Err(why.into()),
        }
    }
}
