//! Whether a set of literals satisfies a problem.

ghost use Rattle.std.specs.Prelude.{◌↔◌, IfOk, IsTrue};
ghost use Rattle.mg_meaning.specs.Satisfaction.{Satisfies};

use mg_meaning::is_satisfying;
use mg_word::{LitSet, NoMemory, Problem};
use std::alloc::Global;

/// Whether the set holds no literal beside its complement and, of each instance of each form, a conclusion wherever it
/// holds all premises. A set with a literal that is none of the problem's satisfies no problem.
pub fn satisfies(alloc: Global, problem: &Problem, set: &LitSet) -> Result<bool, NoMemory>
    ensures { IfOk result (λ answer. IsTrue answer ↔ Satisfies set.now problem.now) }
{
    is_satisfying(alloc, problem, set.as_slice())
}
