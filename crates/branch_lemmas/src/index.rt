//! The lemmas that are kept, numbered from 1.

ghost use Rattle.std.specs.Prelude.{◌≡◌, ◌<◌, ◌≤◌, ◌+◌, [], ◌∷◌, ◌++◌, IfOk, IfSome, IsOkAnd, OnOk, OnErr, length};
ghost use Rattle.std.specs.List.{position};
ghost use Rattle.std.specs.Option.{option_copied};
ghost use Rattle.mg_word.specs.Words.{numbered};
ghost use Rattle.mg_meaning.specs.Folding.{applies};
ghost use Rattle.branch_lemmas.specs.Applying.{first_applying};

use crate::Lemma;
use mg_word::{Lit, LitSet, NoMemory};
use std::alloc::Global;
use std::marker::Model;

/// How many lemmas are kept at most.
pub const MOST_LEMMAS: u32 = 10_000;

/// How many literals a kept lemma has at most, inside and outside together.
pub const MOST_LITERALS: usize = 8;

/// Kept lemmas: contracts see their list.
#[derive(Debug, Drop)]
pub struct LemmaIndex {
    lemmas: Vec<Lemma>,
}

impl Model for LemmaIndex {
    ghost use Rattle.std.specs.Prelude.{List, ◌≤◌, length};
    ghost use Rattle.mg_meaning.specs.Folding.{Pair};
    ghost use Rattle.branch_lemmas.specs.declared.index.TheConstants.{MOST_LEMMAS};

    ghost Value = { List Pair };

    ghost view = { λ index. index.lemmas.items };

    ghost invariant = { λ index. length index.lemmas.items ≤ MOST_LEMMAS };
}

// The index of the first lemma that closes a branch with these literals and this barred set.
fn first_index(lemmas: &[Lemma], lits: &[Lit], barred: &LitSet) -> Option<usize>
    ensures within { IfSome result (λ index. index < length lemmas.now) }
    ensures first { result ≡ position (λ lemma. applies lemma lits.now barred.now) lemmas.now }
{
    lemmas.iter().position(|lemma| lemma.applies(lits, barred))
}

impl LemmaIndex {
    /// The empty index.
    pub fn new(alloc: Global) -> Result<LemmaIndex, NoMemory>
        ensures { IsOkAnd result (λ index. index ≡ []) }
    {
        Ok(LemmaIndex {
            lemmas: Vec::new(alloc),
        })
    }

    /// How many lemmas there are.
    pub fn len(&self) -> u32
        ensures { result ≡ length self.now }
    {
        self.lemmas.len() as u32
    }

    /// Adds a lemma last, and answers its number. After want of memory the index is as before.
    pub fn add(&mut self, lemma: Lemma) -> Result<u32, NoMemory>
        requires { length self.old < MOST_LEMMAS }
        ensures number { IfOk result (λ number. number ≡ length self.new) }
        ensures ok { OnOk result (self.new ≡ self.old ++ lemma ∷ []) }
        ensures err { OnErr result (self.new ≡ self.old) }
    {
        self.lemmas.push(lemma)?;
        Ok(self.lemmas.len() as u32)
    }

    /// Adds these lemmas last, in order. After want of memory the index is as before.
    pub fn add_all(&mut self, lemmas: Vec<Lemma>) -> Result<(), NoMemory>
        requires { length self.old + length lemmas.items ≤ MOST_LEMMAS }
        ensures ok { OnOk result (self.new ≡ self.old ++ lemmas.items) }
        ensures err { OnErr result (self.new ≡ self.old) }
    {
        let mut lemmas = lemmas;
        self.lemmas.append(&mut lemmas)?;
        Ok(())
    }

    /// The lemma with this number, if there is one.
    pub fn get(&self, number: u32) -> Option<&Lemma>
        ensures { option_copied result ≡ numbered self.now number }
    {
        if number == 0 {
            return None;
        }
        self.lemmas.get(number as usize - 1)
    }

    /// The least number of a lemma that closes a branch with these literals and this barred set. It takes no memory.
    pub fn first_match(&self, lits: &[Lit], barred: &LitSet) -> Option<u32>
        ensures { result ≡ first_applying self.now lits.now barred.now }
    {
        let index = first_index(self.lemmas.as_slice(), lits, barred)?;
        Some(index as u32 + 1)
    }
}
