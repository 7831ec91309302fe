//! The brackets that an annotation has open.

ghost use Rattle.std.specs.Prelude.{◌≡◌, List, [], ◌∷◌, OnOk, OnErr, MatchOption, drop};
ghost use Rattle.cnf_grammar.specs.declared.brackets.Bracket.{Bracket};
ghost use Rattle.cnf_grammar.specs.Spelling.{closing};

use mg_word::NoMemory;
use std::alloc::Global;
use std::marker::Model;

/// A kind of brackets.
#[derive(Clone, Copy, Debug, PartialEq, Eq)]
pub enum Bracket {
    Round,
    Square,
}

impl Bracket {
    /// The mark that closes it.
    pub fn closing(self) -> u8
        ensures { result ≡ closing self }
    {
        match self {
            Bracket::Round => b')',
            Bracket::Square => b']',
        }
    }
}

/// The kinds of the brackets that are open. Contracts see them as a list, the innermost first.
#[derive(Debug, Drop)]
pub struct Brackets {
    open: Vec<Bracket>,
}

impl Model for Brackets {
    ghost use Rattle.std.specs.Prelude.{List, reverse};
    ghost use Rattle.cnf_grammar.specs.declared.brackets.Bracket.{Bracket};

    ghost Value = { List Bracket };

    ghost view = { λ brackets. reverse brackets.open.items };
}

impl Brackets {
    /// No bracket. It takes no memory.
    pub fn empty(alloc: Global) -> Brackets
        ensures { result ≡ [] }
    {
        Brackets {
            open: Vec::new(alloc),
        }
    }

    /// Opens a bracket.
    pub fn push(&mut self, bracket: Bracket) -> Result<(), NoMemory>
        ensures ok { OnOk result (self.new ≡ bracket ∷ self.old) }
        ensures err { OnErr result (self.new ≡ self.old) }
    {
        self.open.push(bracket)?;
        Ok(())
    }

    /// Has this one bracket open, in position of all others.
    pub fn restart(&mut self, bracket: Bracket) -> Result<(), NoMemory>
        ensures ok { OnOk result (self.new ≡ bracket ∷ []) }
        ensures err { OnErr result (self.new ≡ self.old) }
    {
        if self.open.is_empty() {
            return self.push(bracket);
        }
        self.open.truncate(1);
        self.open[0] = bracket;
        Ok(())
    }

    /// Closes the innermost bracket, if one is open.
    pub fn close(&mut self)
        ensures { self.new ≡ drop 1 self.old }
    {
        let _closed = self.open.pop();
    }

    /// Closes all brackets.
    pub fn clear(&mut self)
        ensures { self.new ≡ [] }
    {
        self.open.clear();
    }

    /// The kind of the innermost bracket that is open.
    pub fn innermost(&self) -> Option<Bracket>
        ensures { MatchOption result (self.now ≡ []) (λ bracket. (outer : List Bracket) × (self.now ≡ bracket ∷ outer)) }
    {
        self.open.last().copied()
    }
}
