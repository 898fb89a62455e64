use book::{Book, Refused};
use calculus::Step;
use calculus_tests::truth::TruthRule;
use formulas::calls::Call;
use states::{Refusal, State};
use std::process::Abort;
use std::test::*;

// ⊤, which is formula 0, from itself.
const TOP: Step = Step {
    rule: 100,
    goal: 0,
    start: 0,
    count: 1,
    first: 0,
    second: 0,
    a: 0,
    b: 0,
    c: 0,
};

// A book with ⊤ given as entry 0 and concluded from it as entry 1.
fn begun(rt: &(impl Abort + AllocGlobal)) -> Result<Book, Fail> {
    let mut b = Book::begin(rt.alloc(), 7, &TruthRule)?;
    assert_eq!(rt; b.enter(Call::EnterFormula(3, 0, 0))?, 0);
    assert_eq!(rt; b.give(0)?, 0);
    assert_eq!(rt; b.conclude(&TruthRule, &[TOP], &[0], &[0])?, 1);
    Ok(b)
}

// What was granted; a hold that comes back is discarded.
fn granted<T>(answer: Result<T, Refused>) -> Result<T, Fail> {
    match answer {
        Ok(given) => Ok(given),
        Err(Refused { refusal: _, hold }) => {
            hold.discard();
            Err(Fail::new("refused"))
        }
    }
}

fn state_of(b: &Book, e: u16) -> Result<State, Fail> {
    Ok(b.ask_entry(e)?.state)
}

#[test]
fn withdrawn(rt: HostRuntime) -> Result<(), Fail> {
    let mut b = begun(&rt)?;
    let h = b.hold(0)?;
    let (expected, h) = b.preview(h);
    assert_eq!(rt; granted(b.withdraw(h))?, (1, 1));
    assert_eq!(rt; expected, Ok((1, 1)));
    assert_eq!(rt; state_of(&b, 0)?, State::Withdrawn);
    assert_eq!(rt; state_of(&b, 1)?, State::Fallen);
    assert_eq!(rt; b.ask_predicate(0)?, None);
    Ok(())
}

#[test]
fn held(rt: HostRuntime) -> Result<(), Fail> {
    let mut b = begun(&rt)?;
    assert_eq!(rt; b.ask_predicate(0)?, Some(0));
    let h = b.hold(0)?;
    let refused = b.conclude(&TruthRule, &[TOP], &[0], &[1]);
    granted(b.lift(h))?;
    assert_eq!(rt; refused, Err(Refusal::CitationHeld(0)));
    assert_eq!(rt; state_of(&b, 0)?, State::Standing);
    assert_eq!(rt; b.conclude(&TruthRule, &[TOP], &[0], &[1])?, 2);
    Ok(())
}
