//! A matcher to which atoms of one argument are pushed.

ghost use Rattle.std.specs.Prelude.{◌≡◌, ◌<◌, ◌∷◌, [], IsTrue, OnErr, OnOk, false};
ghost use Rattle.std.specs.Bool.{OnTrue};
ghost use Rattle.mg_word.specs.Words.{fits};
ghost use Rattle.ramified_match.specs.Matcher.{CanPush, pushed};

use mg_meaning::holds_lit;
use mg_word::{Kind, Lit, NoMemory, Problem, Symbols, Word};
use ramified_match::{Mark, Match, Matcher, NewMatches, Steps};
use small_problems::problem_of;
use std::alloc::Global;
use std::marker::{Brand, Model};
use std::sync::Arc;
use std::sync::ledger::{Blank, Ledger};
use std::test::Fail;

/// A step, with what it has to come to.
pub enum Step<'a> {
    /// The atom of a predicate and a constant, and how many matches it brings.
    Push(&'a str, &'a str, usize),
    /// A form, how many of its first premises, and how many matches these have.
    Count(u32, u32, usize),
    /// How many literals are kept.
    PopTo(u32),
}

/// A matcher with the literals that it holds.
pub struct Trial {
    problem: Arc<Problem>,
    matcher: Matcher,
    lits: Vec<Lit>,
}

impl Model for Trial {
    ghost use Rattle.std.specs.Prelude.{◌≡◌};
    ghost use Rattle.ramified_match.specs.Matcher.{MatcherData};

    ghost Value = { MatcherData };

    ghost view = { λ trial. trial.matcher };

    ghost invariant = { λ trial. (trial.lits.items ≡ trial.matcher.lits) × (trial.problem.value ≡ trial.matcher.problem) };
}

/// A function of its own, so that dropping a trial is one step for whoever does.
impl Drop for Trial {
    fn drop(self) {
        let Trial {
            problem: _,
            matcher: _,
            lits: _,
        } = self;
    }
}

// Whether the predicate takes one argument, and the constant none.
fn makes_atom(symbols: &Symbols, predicate: u32, constant: u32) -> bool
    ensures { OnTrue result (IsTrue (fits symbols.now (predicate ∷ constant ∷ []))) }
{
    predicate < symbols.len()
        && constant < symbols.len()
        && symbols.arity(predicate) == 1
        && symbols.arity(constant) == 0
}

// Pushes the literal, with a counter that nothing reads.
fn push_counted<L: Ledger>(
    matcher: &mut Matcher,
    lit: &Lit,
    blank: Blank,
) -> Result<NewMatches, NoMemory>
    requires can { CanPush matcher.old lit.now }
    requires name { blank.name ≡ L.name }
    requires parts { blank.parts ≡ L.parts }
    requires some { 0 < blank.parts }
    ensures ok { OnOk result (matcher.new ≡ pushed matcher.old lit.now) }
    ensures err { OnErr result (matcher.new ≡ matcher.old) }
{
    let mut steps = Steps::<L>::new(blank);
    matcher.push(lit, &mut steps)
}

impl Trial {
    /// A matcher of the text's problem that holds nothing.
    pub fn new(alloc: Global, text: &str) -> Result<Trial, Fail> {
        let problem = Arc::new(alloc, problem_of(alloc, text)?)?;
        let matcher = Matcher::new(alloc, Arc::try_clone(&problem)?)?;
        Ok(Trial {
            problem,
            matcher,
            lits: Vec::new(alloc),
        })
    }

    /// The number of a symbol.
    pub fn symbol(&self, name: &str, arity: u32) -> Result<u32, Fail> {
        match self.problem.symbols.find(name, arity, Kind::Word)? {
            Some(number) => Ok(number),
            None => Err(Fail::from("no such symbol")),
        }
    }

    // Whether the atom of the predicate and the constant may be pushed.
    fn can_push(&self, lit: &Lit, predicate: u32, constant: u32) -> bool
        requires { lit.now ≡ record { negative = false; word = predicate ∷ constant ∷ [] } }
        ensures { OnTrue result (CanPush self.now lit.now) }
    {
        self.matcher.mark().depth < u32::MAX
            && makes_atom(&self.problem.symbols, predicate, constant)
            && !holds_lit(self.lits.as_slice(), lit)
    }

    /// Pushes the atom of the predicate and the constant: the matches that it brings.
    pub fn push(
        &mut self,
        alloc: Global,
        predicate: u32,
        constant: u32,
    ) -> Result<Vec<Match>, Fail> {
        let lit = Lit {
            negative: false,
            word: Word::new(vec![in alloc; predicate, constant]?),
        };
        if !self.can_push(&lit, predicate, constant) {
            return Err(Fail::from("no atom that may be pushed"));
        }
        let held = lit.copy()?;
        self.lits.reserve(1)?;
        let brought = push_counted::<Brand>(&mut self.matcher, &lit, Blank::new(1))?;
        self.lits.push_reserved(held);
        Ok(brought.matches)
    }

    // Keeps the first so many literals.
    fn pop_to(&mut self, depth: u32) {
        if depth <= self.matcher.mark().depth {
            self.matcher.pop_to(Mark { depth });
            self.lits.truncate(depth as usize);
        }
    }

    /// How many matches the form's first premises have.
    pub fn count(&self, form: u32, prefix: u32) -> Result<usize, Fail> {
        if form == 0 {
            return Err(Fail::from("forms are numbered from 1"));
        }
        let Some(found) = self.problem.forms.as_slice().get(form as usize - 1) else {
            return Err(Fail::from("no such form"));
        };
        if prefix as usize > found.premises.as_slice().len() {
            return Err(Fail::from("no such premise"));
        }
        Ok(self.matcher.prefix_matches(form, prefix)?.len())
    }

    // Whether the step comes to what it says.
    fn takes(&mut self, alloc: Global, step: &Step) -> Result<bool, Fail> {
        match step {
            Step::Push(predicate, constant, brought) => {
                let predicate = self.symbol(predicate, 1)?;
                let constant = self.symbol(constant, 0)?;
                Ok(self.push(alloc, predicate, constant)?.len() == *brought)
            }
            Step::Count(form, prefix, count) => Ok(self.count(*form, *prefix)? == *count),
            Step::PopTo(depth) => {
                self.pop_to(*depth);
                Ok(true)
            }
        }
    }

    /// Whether the steps, one after another, come to what they say.
    pub fn takes_all(&mut self, alloc: Global, steps: &[Step]) -> Result<bool, Fail> {
        for step in steps {
            if !self.takes(alloc, step)? {
                return Ok(false);
            }
        }
        Ok(true)
    }
}
