//! A text with a problem, and one of each kind without.

use small_problems::{NoProblem, problem_of};
use std::test::Fail;

#[test]
fn texts_have_their_problems(rt: HostRuntime) -> Result<(), Fail> {
    let alloc = rt.alloc();
    let problem = problem_of(alloc, "cnf(a,axiom,p(a)). cnf(b,axiom,~p(X)|q(X)).")?;
    assert_eq!(rt; problem.symbols.len(), 3);
    assert_eq!(rt; problem.forms.as_slice().len(), 2);
    assert!(rt; matches!(problem_of(alloc, "cnf(a,axiom"), Err(NoProblem::Unread(_))));
    assert!(rt;
        matches!(
            problem_of(alloc, "cnf(a,axiom,p(X))."),
            Err(NoProblem::Unformed(_))
        )
    );
    Ok(())
}
