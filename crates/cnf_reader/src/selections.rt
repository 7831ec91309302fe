//! The selections under which a file is read.

ghost use Rattle.std.specs.Prelude.{◌≡◌, ◌∷◌, [], IfOk, OnOk, Some, drop};
ghost use Rattle.std.specs.List.{list_any};
ghost use Rattle.cnf_reader.specs.Faults.{same_name, selects, is_selected};
ghost use Rattle.cnf_reader.specs.Selecting.{table_of};
ghost use Rattle.cnf_reader.specs.Sound.{AreFewNames};

use crate::numbers::intern;
use mg_word::{Items, Name, NoMemory, Symbols};
use std::alloc::Global;
use std::marker::Model;
use std::str::from_utf8;

/// The names that an include has, with a table of them in which a name is looked up. Contracts see
/// the names.
#[derive(Drop)]
struct Selected {
    names: Items<Name>,
    table: Symbols,
}

impl Model for Selected {
    ghost use Rattle.std.specs.Prelude.{◌≡◌, List};
    ghost use Rattle.mg_word.specs.declared.clause.Name.{Name};
    ghost use Rattle.cnf_reader.specs.Selecting.{table_of};
    ghost use Rattle.cnf_reader.specs.Sound.{AreNames};

    ghost Value = { List Name };

    ghost view = { λ s. s.names };

    ghost invariant = { λ s. (s.table ≡ table_of s.names) × AreNames s.names };
}

impl Selected {
    // The selection of these names.
    fn new(alloc: Global, names: Items<Name>) -> Result<Selected, NoMemory>
        requires { AreFewNames 16777216 (Some names) }
        ensures { IfOk result (λ selected. selected ≡ names) }
    {
        let table = make_table(alloc, names.as_slice())?;
        Ok(Selected { names, table })
    }

    // Whether the name is one of them. All of them are texts.
    fn has(&self, name: &Name) -> Result<bool, NoMemory>
        ensures { IfOk result (λ has. has ≡ list_any (λ other. same_name other name.now) self.now) }
    {
        let table = &self.table;
        let Ok(text) = from_utf8(name.text.as_slice()) else {
            return Ok(false);
        };
        let found = table.find(text, 0, name.kind)?;
        Ok(found.is_some())
    }
}

// The table of the names.
fn make_table(alloc: Global, names: &[Name]) -> Result<Symbols, NoMemory>
    requires { AreFewNames 16777216 (Some names.now) }
    ensures { IfOk result (λ table. table ≡ table_of names.now) }
{
    let mut table = Symbols::new(alloc)?;
    for name in names {
        let _number = intern(&mut table, name.text.as_slice(), 0, name.kind)?;
    }
    Ok(table)
}

/// The selections of the files that are open: for each the names that its include has, where it has
/// a list of names. Contracts see them as a list, that of the innermost file first.
#[derive(Drop)]
pub struct Selections {
    lists: Vec<Option<Selected>>,
}

impl Model for Selections {
    ghost use Rattle.std.specs.Prelude.{List, Option};
    ghost use Rattle.mg_word.specs.declared.clause.Name.{Name};

    ghost Value = { List (Option (List Name)) };

    ghost view = { λ s. s.lists.items };
}

impl Selections {
    /// No file is open. It takes no memory.
    pub fn empty(alloc: Global) -> Selections
        ensures { result ≡ [] }
    {
        Selections {
            lists: Vec::new(alloc),
        }
    }

    /// Opens a file with this selection.
    pub fn push(&mut self, names: Option<Items<Name>>) -> Result<(), NoMemory>
        requires { AreFewNames 16777216 names }
        ensures { OnOk result (self.new ≡ names ∷ self.old) }
    {
        let list = make_list(*self.lists.allocator(), names)?;
        self.lists.insert(0, list)?;
        Ok(())
    }

    /// Closes the innermost file.
    pub fn close(&mut self)
        ensures { self.new ≡ drop 1 self.old }
    {
        if !self.lists.is_empty() {
            let _closed = self.lists.remove(0);
        }
    }

    /// Whether each selection has the name.
    pub fn have(&self, name: &Name) -> Result<bool, NoMemory>
        ensures { IfOk result (λ have. have ≡ is_selected self.now name.now) }
    {
        for names in &self.lists {
            if !selects(name, names)? {
                return Ok(false);
            }
        }
        Ok(true)
    }
}

// The selection of these names, where an include has a list of them.
fn make_list(alloc: Global, names: Option<Items<Name>>) -> Result<Option<Selected>, NoMemory>
    requires { AreFewNames 16777216 names }
    ensures { IfOk result (λ list. list ≡ names) }
{
    match names {
        None => Ok(None),
        Some(names) => Ok(Some(Selected::new(alloc, names)?)),
    }
}

// Whether the names have this one.
fn selects(name: &Name, names: &Option<Selected>) -> Result<bool, NoMemory>
    ensures { IfOk result (λ has. has ≡ selects name.now names.now) }
{
    match names {
        None => Ok(true),
        Some(names) => names.has(name),
    }
}
