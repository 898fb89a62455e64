// The checker over the theory of this crate, alone and joined with itself.
use crate::truth::TruthRule;
use calculus::{Fault, Joined, Refusal, Sequent, Step, check as check_derivation};
use formulas::refusals::Notice;
use std::test::Fail;
use vocabulary::store::Vocabulary;

const NOTHING: Step = Step {
    rule: 0,
    goal: 0,
    start: 0,
    count: 0,
    first: 0,
    second: 0,
    a: 0,
    b: 0,
    c: 0,
};

// ⊤ from its hypotheses.
const TOP: Step = Step {
    rule: 100,
    goal: 1,
    start: 0,
    count: 1,
    ..NOTHING
};

#[test]
fn rising_hypotheses(rt: HostRuntime) {
    assert!(rt; Sequent::new(0, &[1, 2, 3]).is_some());
    assert!(rt; Sequent::new(0, &[1, 1]).is_none());
    assert!(rt; Sequent::new(0, &[2, 1]).is_none());
    assert!(rt; Sequent::new(0, &[0, 1, 2, 3, 4, 5, 6, 7, 8, 9, 10, 11, 12, 13, 14, 15]).is_some());
    assert!(rt;
        Sequent::new(
            0,
            &[0, 1, 2, 3, 4, 5, 6, 7, 8, 9, 10, 11, 12, 13, 14, 15, 16],
        )
        .is_none()
    );
}

#[test]
fn own_theory(rt: HostRuntime) -> Result<(), Fail> {
    let mut v = Vocabulary::new(rt.alloc())?;
    v.enter_formula(2, 0, 0)?;
    v.enter_formula(3, 0, 0)?;
    let theory = Joined(TruthRule, TruthRule);
    let Ok(root) = check_derivation(&theory, &v, &[TOP], &[0]) else {
        return Err(Fail::new("refused"));
    };
    assert_eq!(rt; root.goal(), 1);
    let wrong = Step { goal: 0, ..TOP };
    let Err(refusal) = check_derivation(&TruthRule, &v, &[TOP, wrong], &[0]) else {
        return Err(Fail::new("accepted"));
    };
    let fault = Fault::NoInstance;
    assert_eq!(rt; refusal, Refusal { fault, step: 1 });
    let notice = Notice::from(refusal);
    assert_eq!(rt; (notice.number, notice.place), (25, 1));
    Ok(())
}
