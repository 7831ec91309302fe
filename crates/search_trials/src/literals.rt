//! Literals without arguments: each is a sign and a symbol.

use mg_word::{Inst, Items, Lit, LitSet, NoMemory, Subst, Word};
use std::alloc::Global;

pub const P: (bool, u32) = (false, 0);

pub const Q: (bool, u32) = (false, 1);

pub const R: (bool, u32) = (false, 2);

pub const NOT_P: (bool, u32) = (true, 0);

pub const NOT_Q: (bool, u32) = (true, 1);

pub const NOT_R: (bool, u32) = (true, 2);

/// The literal of the sign and the symbol.
pub fn lit_of(alloc: Global, signed: (bool, u32)) -> Result<Lit, NoMemory> {
    let (negative, symbol) = signed;
    Ok(Lit {
        negative,
        word: Word::new(vec![in alloc; symbol]?),
    })
}

/// These literals, in order.
pub fn lits_of(alloc: Global, signed: &[(bool, u32)]) -> Result<Vec<Lit>, NoMemory> {
    let mut lits = Vec::new(alloc);
    for one in signed {
        lits.push(lit_of(alloc, *one)?)?;
    }
    Ok(lits)
}

/// The set of these literals.
pub fn set_of(alloc: Global, signed: &[(bool, u32)]) -> Result<LitSet, NoMemory> {
    LitSet::from_lits(lits_of(alloc, signed)?)
}

/// The instance of a form without variables that has these premises and conclusions.
pub fn inst_of(
    alloc: Global,
    premises: &[(bool, u32)],
    conclusions: &[(bool, u32)],
) -> Result<Inst, NoMemory> {
    Ok(Inst {
        form: 1,
        subst: Subst::new(Vec::new(alloc)),
        premises: Items::new(lits_of(alloc, premises)?),
        conclusions: Items::new(lits_of(alloc, conclusions)?),
    })
}
