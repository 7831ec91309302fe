//! The clause of a statement that is kept.

ghost use Rattle.std.specs.Prelude.{◌≡◌, ◌+◌, ◌<◌, ◌≤◌, length, true, OnOk};
ghost use Rattle.cnf_reader.specs.Faults.{is_selected};
ghost use Rattle.cnf_reader.specs.Keeping.{keep as kept_with};
ghost use Rattle.cnf_reader.specs.Parts.{Stays};
ghost use Rattle.cnf_reader.specs.Sound.{IsReady, IsSoundKept, count_items};

use crate::kept::Kept;
use crate::numbers::number_literals;
use crate::pending::Pending;
use crate::selections::Selections;
use mg_word::{Clause, Items, NoMemory, Place};
use std::alloc::Global;

/// Keeps the clause of the statement, where each selection has its name.
#[tactic(auto, unfolding(crate::specs::Keeping::keep))]
pub fn keep(
    alloc: Global,
    selections: &Selections,
    kept: &mut Kept,
    number: u32,
    pending: Pending,
) -> Result<(), NoMemory>
    requires sound { IsSoundKept kept.old }
    requires file { number < length kept.old.files }
    requires ready { IsReady pending }
    requires room { length kept.old.symbols + count_items pending.draft.literals ≤ 4294967295 }
    requires few { is_selected selections.now pending.name ≡ true → length kept.old.clauses < 20000 }
    ensures kept { OnOk result (kept.new ≡ kept_with selections.now kept.old number pending.entry) }
    ensures stays { OnOk result (Stays kept.old kept.new) }
    ensures files { OnOk result (kept.new.files ≡ kept.old.files) }
    ensures sound { OnOk result (IsSoundKept kept.new) }
    ensures grown { OnOk result (length kept.new.symbols ≤ length kept.old.symbols + count_items pending.entry.draft.literals) }
{
    let Pending {
        position: _,
        line,
        column,
        name,
        draft,
        words: _,
        item: _,
        chosen: _,
        conclude,
        asked: _,
    } = pending;
    if !selections.have(&name)? {
        return Ok(());
    }
    let literals = number_literals(alloc, &mut kept.symbols, draft.literals())?;
    let clause = Clause {
        name,
        place: Place {
            file: number,
            line,
            column,
        },
        literals: Items::new(literals),
        variables: draft.into_variables(),
        conclude,
    };
    kept.clauses.push(clause)?;
    Ok(())
}
