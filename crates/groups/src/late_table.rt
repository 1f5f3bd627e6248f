// A hash table that is made with its first room.
ghost use Rattle.std.specs.Prelude.{◌≡◌, ◌≤◌, ◌<◌, ◌+◌, ◌↔◌, ℕ, IfOk, IsSome, IsTrue, MatchOption, OnOk, Some, min, nat_eq};
ghost use Rattle.std.specs.FinMap as map;
ghost use Rattle.std.specs.HashMap as hash;
ghost use Rattle.groups.specs.LateTable.{TableState, none_made, state_of};

use std::alloc::{AllocError, Global};
use std::collections::HashMap;
use std::marker::Model;

/// Entries by numbers, in a hash table that is made when room for one is first reserved. Until then
/// it takes two words of its owner, and no memory.
///
/// An entry goes into reserved room, so that no entry is refused once something has changed.
#[derive(Drop)]
pub struct LateTable<V> {
    alloc: Global,
    table: Option<Box<HashMap<u64, V>>>,
}

impl<V> Model for LateTable<V> {
    ghost use Rattle.std.specs.Prelude.{option_map};
    ghost use Rattle.groups.specs.LateTable.{TableState, state_in, table_code};

    ghost Value = { TableState V };

    ghost coded = { table_code V.code };

    ghost view = { λ t. state_in (option_map (λ table. table.value) t.table) };
}

impl<V: Copy> LateTable<V> {
    /// No entry, and room for none. Takes no memory.
    pub fn new(alloc: Global) -> LateTable<V>
        ensures { result ≡ none_made }
    {
        LateTable { alloc, table: None }
    }

    /// The table, if it is made, for work on all entries at once. No entry is left here until
    /// [`put_back`](LateTable::put_back).
    pub fn take(&mut self) -> Option<Box<HashMap<u64, V>>>
        ensures taken { MatchOption result (self.old ≡ none_made)
            (λ table. self.old ≡ state_of table.value) }
        ensures left { self.new ≡ none_made }
    {
        self.table.take()
    }

    /// Keeps the table in the place of its own.
    pub fn put_back(&mut self, table: Box<HashMap<u64, V>>)
        ensures { self.new ≡ state_of table.value }
    {
        self.table = Some(table);
    }

    /// Whether it has no entry.
    #[inline(always)]
    pub fn is_empty(&self) -> bool
        ensures { IsTrue result ↔ (self.now.entries ≡ map.empty) }
    {
        match &self.table {
            Some(table) => table.is_empty(),
            None => true,
        }
    }

    /// The entry at the number, if it has one there.
    #[inline(always)]
    pub fn get(&self, number: u64) -> Option<V>
        ensures { result ≡ map.get self.now.entries number }
    {
        match &self.table {
            Some(table) => table.get(&number).copied(),
            None => None,
        }
    }

    /// Makes room for that many more entries.
    ///
    /// # Errors
    ///
    /// `AllocError` if memory is refused. The entries are then as they were.
    pub fn reserve(&mut self, more: usize) -> Result<(), AllocError>
        ensures entries { self.new.entries ≡ self.old.entries }
        ensures room { self.old.room ≤ self.new.room }
        ensures ok { OnOk result (more ≤ self.new.room) }
    {
        if let Some(table) = &mut self.table {
            reserve_in(&mut **table, more)?;
            return Ok(());
        }
        if more > 0 {
            self.table = Some(made(self.alloc, more)?);
        }
        Ok(())
    }

    /// Enters the item at the number in reserved room, which takes no memory.
    pub fn insert_reserved(&mut self, number: u64, item: V)
        requires { 0 < self.old.room }
        ensures entries { self.new.entries ≡ map.insert self.old.entries number item }
        ensures room { self.old.room ≤ self.new.room + 1 }
    {
        match &mut self.table {
            Some(table) => insert_in(&mut **table, number, item),
            None => unreachable!(),
        }
    }

    /// Writes the item over the entry at the number, which takes neither memory nor room.
    pub fn write_over(&mut self, number: u64, item: V)
        requires { IsSome (map.get self.old.entries number) }
        ensures entries { self.new.entries ≡ map.insert self.old.entries number item }
        ensures room { self.new.room ≡ self.old.room }
    {
        match &mut self.table {
            Some(table) => write_in(&mut **table, number, item),
            None => unreachable!(),
        }
    }

    /// Strikes the entry at the number, if it has one there, which takes no memory.
    pub fn remove(&mut self, number: u64)
        ensures entries { self.new.entries ≡ map.remove self.old.entries number }
        ensures room { self.old.room ≤ self.new.room }
    {
        let Some(table) = &mut self.table else {
            return;
        };
        remove_in(&mut **table, number);
    }

    /// Gives memory back, but for the entries and that many more if it has room for them.
    pub fn shrink_to(&mut self, room: usize)
        ensures entries { self.new.entries ≡ self.old.entries }
        ensures room { min room self.old.room ≤ self.new.room }
    {
        if room == 0 && self.is_empty() {
            self.table = None;
            return;
        }
        if let Some(table) = &mut self.table {
            shrink_in(&mut **table, room);
        }
    }

    /// Gives memory back if a quarter of the table would do for the entries and that many more.
    /// Twice as much stays, so that entries that come and go move the table only when it has halved
    /// or doubled.
    pub fn give_back(&mut self, room: usize)
        requires { room ≤ self.old.room }
        ensures entries { self.new.entries ≡ self.old.entries }
        ensures room { room ≤ self.new.room }
    {
        if room == 0 && self.is_empty() {
            self.table = None;
            return;
        }
        if let Some(table) = &mut self.table {
            give_back_in(&mut **table, room);
        }
    }
}

// A table with no entry, and with room for so many.
fn made<V: Copy>(alloc: Global, room: usize) -> Result<Box<HashMap<u64, V>>, AllocError>
    ensures { IfOk result (λ table. ((state_of table.value).entries ≡ map.empty)
        × (room ≤ (state_of table.value).room)) }
{
    let table = HashMap::with_capacity(alloc, room)?;
    Ok(Box::new(alloc, table)?)
}

// Makes room in the table for that many more entries.
fn reserve_in<V: Copy>(table: &mut HashMap<u64, V>, more: usize) -> Result<(), AllocError>
    ensures entries { (state_of table.new).entries ≡ (state_of table.old).entries }
    ensures room { (state_of table.old).room ≤ (state_of table.new).room }
    ensures ok { OnOk result (more ≤ (state_of table.new).room) }
{
    table.reserve(more)
}

// Enters the item where there is room, which needs no memory.
fn insert_in<V: Copy>(table: &mut HashMap<u64, V>, number: u64, item: V)
    requires { 0 < (state_of table.old).room }
    ensures entries { (state_of table.new).entries
        ≡ map.insert (state_of table.old).entries number item }
    ensures room { (state_of table.old).room ≤ (state_of table.new).room + 1 }
{
    match table.insert(number, item) {
        Ok(_) => {}
        Err(_) => unreachable!(),
    }
}

// Writes the item over an entry, which needs neither memory nor room.
fn write_in<V: Copy>(table: &mut HashMap<u64, V>, number: u64, item: V)
    requires { IsSome (map.get (state_of table.old).entries number) }
    ensures entries { (state_of table.new).entries
        ≡ map.insert (state_of table.old).entries number item }
    ensures room { (state_of table.new).room ≡ (state_of table.old).room }
{
    match table.get_mut(&number) {
        Some(entry) => *entry = item,
        None => unreachable!(),
    }
}

// Strikes the entry, if there is one.
fn remove_in<V: Copy>(table: &mut HashMap<u64, V>, number: u64)
    ensures entries { (state_of table.new).entries
        ≡ map.remove (state_of table.old).entries number }
    ensures room { (state_of table.old).room ≤ (state_of table.new).room }
{
    table.remove(&number);
}

// Shrinks the table to its entries and that many more.
fn shrink_in<V: Copy>(table: &mut HashMap<u64, V>, room: usize)
    ensures entries { (state_of table.new).entries ≡ (state_of table.old).entries }
    ensures room { min room (state_of table.old).room ≤ (state_of table.new).room }
{
    let wanted = table.len().saturating_add(room);
    if wanted < table.capacity() {
        table.shrink_to(wanted);
    }
}

// Gives memory back if a quarter of the table would do for its entries and that many more.
fn give_back_in<V: Copy>(table: &mut HashMap<u64, V>, room: usize)
    requires { room ≤ (state_of table.old).room }
    ensures entries { (state_of table.new).entries ≡ (state_of table.old).entries }
    ensures room { room ≤ (state_of table.new).room }
{
    let capacity = table.capacity();
    let wanted = table.len() + room;
    if wanted < capacity / 4 {
        table.shrink_to(2 * wanted);
    }
}
