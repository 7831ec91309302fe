//! Arrow forms `A1,..,An -> B1;..;Bm`, and their ground instances.

ghost use Rattle.std.specs.Prelude.{◌≡◌, IfOk};

use crate::{Items, Lit, NoMemory, PatLit, Subst};

/// An arrow form: where all premises hold, some conclusion has to.
#[derive(Debug, Drop)]
pub struct Form {
    /// The index of its clause, from 0.
    pub clause: u32,
    /// How many variables its clause has.
    pub variables: u32,
    pub premises: Items<PatLit>,
    pub conclusions: Items<PatLit>,
}

/// A ground instance of a form.
#[derive(Debug, Drop)]
pub struct Inst {
    /// The number of its form, from 1.
    pub form: u32,
    pub subst: Subst,
    pub premises: Items<Lit>,
    pub conclusions: Items<Lit>,
}

// An equal list of literals.
fn copy_lits(lits: &Items<Lit>) -> Result<Items<Lit>, NoMemory>
    ensures { IfOk result (λ copied. copied ≡ lits.now) }
{
    let mut copied = Vec::with_capacity(lits.allocator(), lits.as_slice().len())?;
    for lit in lits.as_slice() {
        copied.push(lit.copy()?)?;
    }
    Ok(Items::new(copied))
}

impl Inst {
    /// An equal instance.
    pub fn copy(&self) -> Result<Inst, NoMemory>
        ensures { IfOk result (λ inst. inst ≡ self.now) }
    {
        Ok(Inst {
            form: self.form,
            subst: self.subst.copy()?,
            premises: copy_lits(&self.premises)?,
            conclusions: copy_lits(&self.conclusions)?,
        })
    }
}
