// Derivations that are right and wrong, as scripts: at least one of each for every rule.
use crate::running::{all_answer, answers, in_session};
use script::Session;
use std::alloc::AllocError;
use std::process::Abort;
use std::test::*;

// Variables x and y, and a set S. The formulas: 0 x, 1 y, 2 P = x∈S, 3 Q = y∈S, 4 ⊥, 5 ⊤, 6 ¬P, 7 ¬Q, 8 P∧Q, 9 P∨Q,
// 10 P⇒Q, 11 Q⇒P, 12 P⇔Q, 13 ∀x·P, 14 ∃x·P, 15 x=y, 16 x=x, 17 x↦y, 18 y↦x, 19 x↦y=y↦x, 20 y=x.
const VOCABULARY: [&str; 27] = [
    "book 1",
    "carrier",
    "product 0 0",
    "variable 0",
    "variable 0",
    "set 0",
    "formula 0 0 0",
    "formula 0 1 0",
    "formula 12 0 0",
    "formula 12 1 0",
    "formula 2 0 0",
    "formula 3 0 0",
    "formula 4 2 0",
    "formula 4 3 0",
    "formula 5 2 3",
    "formula 6 2 3",
    "formula 7 2 3",
    "formula 7 3 2",
    "formula 8 2 3",
    "formula 9 0 2",
    "formula 10 0 2",
    "formula 11 0 1",
    "formula 11 0 0",
    "formula 1 0 1",
    "formula 1 1 0",
    "formula 11 17 18",
    "formula 11 1 0",
];

// The rules 1 to 16: for each a derivation that is right, and one that is not.
const PROPOSITIONS: [(&str, &str); 32] = [
    // 1 HYP: {P} ⊢ P; not {P} ⊢ Q
    ("hypotheses 2\nstep 1 2 0 1 0 0 0 0 0\ncheck", "right"),
    (
        "hypotheses 2\nstep 1 3 0 1 0 0 0 0 0\ncheck",
        "refused 25 derivation 0",
    ),
    // 2 MON: {P, Q} ⊢ P from {P} ⊢ P; not the other way
    (
        "hypotheses 2 3\nstep 1 2 0 1 0 0 0 0 0\nstep 2 2 0 2 0 0 0 0 0\ncheck",
        "right",
    ),
    (
        "hypotheses 2 3\nstep 1 2 0 2 0 0 0 0 0\nstep 2 2 0 1 0 0 0 0 0\ncheck",
        "refused 25 derivation 1",
    ),
    // 3 CUT: {⊥} ⊢ ⊤ from {⊥} ⊢ P and {P, ⊥} ⊢ ⊤; not with the premises swapped
    (
        "hypotheses 2 4\nstep 4 2 1 1 0 0 0 0 0\nstep 14 5 0 2 0 0 0 0 0\nstep 3 5 1 1 0 1 0 0 0\ncheck",
        "right",
    ),
    (
        "hypotheses 2 4\nstep 4 2 1 1 0 0 0 0 0\nstep 14 5 0 2 0 0 0 0 0\nstep 3 5 1 1 1 0 0 0 0\ncheck",
        "refused 25 derivation 2",
    ),
    // 4 FALSE_L: {⊥} ⊢ P; not {P} ⊢ Q
    ("hypotheses 4\nstep 4 2 0 1 0 0 0 0 0\ncheck", "right"),
    (
        "hypotheses 2\nstep 4 3 0 1 0 0 0 0 0\ncheck",
        "refused 25 derivation 0",
    ),
    // 5 FALSE_R: {P, ¬P} ⊢ ⊥ from both; not ⊤
    (
        "hypotheses 2 6\nstep 1 2 0 2 0 0 0 0 0\nstep 1 6 0 2 0 0 0 0 0\nstep 5 4 0 2 0 1 0 0 0\ncheck",
        "right",
    ),
    (
        "hypotheses 2 6\nstep 1 2 0 2 0 0 0 0 0\nstep 1 6 0 2 0 0 0 0 0\nstep 5 5 0 2 0 1 0 0 0\ncheck",
        "refused 25 derivation 2",
    ),
    // 6 NOT_L: {⊥, ¬P} ⊢ Q from {⊥, ¬Q} ⊢ P; not with ¬Q as argument
    (
        "hypotheses 4 7 4 6\nstep 4 2 0 2 0 0 0 0 0\nstep 6 3 2 2 0 0 6 0 0\ncheck",
        "right",
    ),
    (
        "hypotheses 4 7 4 6\nstep 4 2 0 2 0 0 0 0 0\nstep 6 3 2 2 0 0 7 0 0\ncheck",
        "refused 25 derivation 1",
    ),
    // 7 NOT_R: {⊥} ⊢ ¬P from {P, ⊥} ⊢ ⊥; not ¬Q
    (
        "hypotheses 2 4\nstep 1 4 0 2 0 0 0 0 0\nstep 7 6 1 1 0 0 0 0 0\ncheck",
        "right",
    ),
    (
        "hypotheses 2 4\nstep 1 4 0 2 0 0 0 0 0\nstep 7 7 1 1 0 0 0 0 0\ncheck",
        "refused 25 derivation 1",
    ),
    // 8 AND_L: {P∧Q} ⊢ P from {P, Q} ⊢ P; not from {P} ⊢ P
    (
        "hypotheses 2 3 8\nstep 1 2 0 2 0 0 0 0 0\nstep 8 2 2 1 0 0 8 0 0\ncheck",
        "right",
    ),
    (
        "hypotheses 2 3 8\nstep 1 2 0 1 0 0 0 0 0\nstep 8 2 2 1 0 0 8 0 0\ncheck",
        "refused 25 derivation 1",
    ),
    // 9 AND_R: {P, Q} ⊢ P∧Q; not with the premises swapped
    (
        "hypotheses 2 3\nstep 1 2 0 2 0 0 0 0 0\nstep 1 3 0 2 0 0 0 0 0\nstep 9 8 0 2 0 1 0 0 0\ncheck",
        "right",
    ),
    (
        "hypotheses 2 3\nstep 1 2 0 2 0 0 0 0 0\nstep 1 3 0 2 0 0 0 0 0\nstep 9 8 0 2 1 0 0 0 0\ncheck",
        "refused 25 derivation 2",
    ),
    // 10 OR_L: {P∨Q} ⊢ ⊤ from {P} ⊢ ⊤ and {Q} ⊢ ⊤; not from the first twice
    (
        "hypotheses 2 3 9\nstep 14 5 0 1 0 0 0 0 0\nstep 14 5 1 1 0 0 0 0 0\nstep 10 5 2 1 0 1 9 0 0\ncheck",
        "right",
    ),
    (
        "hypotheses 2 3 9\nstep 14 5 0 1 0 0 0 0 0\nstep 14 5 1 1 0 0 0 0 0\nstep 10 5 2 1 0 0 9 0 0\ncheck",
        "refused 25 derivation 2",
    ),
    // 11 OR_R: {Q} ⊢ P∨Q from {Q, ¬P} ⊢ Q; not from {Q, ¬Q} ⊢ Q
    (
        "hypotheses 3 6\nstep 1 3 0 2 0 0 0 0 0\nstep 11 9 0 1 0 0 0 0 0\ncheck",
        "right",
    ),
    (
        "hypotheses 3 7\nstep 1 3 0 2 0 0 0 0 0\nstep 11 9 0 1 0 0 0 0 0\ncheck",
        "refused 25 derivation 1",
    ),
    // 12 IMP_L: {P, P⇒Q} ⊢ Q from {P, Q} ⊢ Q; not {P⇒Q} ⊢ Q
    (
        "hypotheses 2 3 2 10\nstep 1 3 0 2 0 0 0 0 0\nstep 12 3 2 2 0 0 10 0 0\ncheck",
        "right",
    ),
    (
        "hypotheses 2 3 2 10\nstep 1 3 0 2 0 0 0 0 0\nstep 12 3 3 1 0 0 10 0 0\ncheck",
        "refused 25 derivation 1",
    ),
    // 13 IMP_R: {Q} ⊢ P⇒Q from {P, Q} ⊢ Q; not Q⇒P
    (
        "hypotheses 2 3\nstep 1 3 0 2 0 0 0 0 0\nstep 13 10 1 1 0 0 0 0 0\ncheck",
        "right",
    ),
    (
        "hypotheses 2 3\nstep 1 3 0 2 0 0 0 0 0\nstep 13 11 1 1 0 0 0 0 0\ncheck",
        "refused 25 derivation 1",
    ),
    // 14 TRUE_R: ⊢ ⊤; not ⊢ ⊥
    ("step 14 5 0 0 0 0 0 0 0\ncheck", "right"),
    ("step 14 4 0 0 0 0 0 0 0\ncheck", "refused 25 derivation 0"),
    // 15 EQV_L: {P⇔Q} ⊢ P⇒Q from {P⇒Q, Q⇒P} ⊢ P⇒Q; not from {P⇒Q} ⊢ P⇒Q
    (
        "hypotheses 10 11 12\nstep 1 10 0 2 0 0 0 0 0\nstep 15 10 2 1 0 0 12 0 0\ncheck",
        "right",
    ),
    (
        "hypotheses 10 11 12\nstep 1 10 0 1 0 0 0 0 0\nstep 15 10 2 1 0 0 12 0 0\ncheck",
        "refused 25 derivation 1",
    ),
    // 16 EQV_R: {P⇒Q, Q⇒P} ⊢ P⇔Q; not with the premises swapped
    (
        "hypotheses 10 11\nstep 1 10 0 2 0 0 0 0 0\nstep 1 11 0 2 0 0 0 0 0\nstep 16 12 0 2 0 1 0 0 0\ncheck",
        "right",
    ),
    (
        "hypotheses 10 11\nstep 1 10 0 2 0 0 0 0 0\nstep 1 11 0 2 0 0 0 0 0\nstep 16 12 0 2 1 0 0 0 0\ncheck",
        "refused 25 derivation 2",
    ),
];

// The rules 17 to 25.
const TERMS: [(&str, &str); 18] = [
    // 17 ALL_L: {∀x·x∈S} ⊢ y∈S, with y for x; not with x for x
    (
        "hypotheses 3 13\nstep 1 3 0 2 0 0 0 0 0\nstep 17 3 1 1 0 0 13 1 3\ncheck",
        "right",
    ),
    (
        "hypotheses 3 13\nstep 1 3 0 2 0 0 0 0 0\nstep 17 3 1 1 0 0 13 0 3\ncheck",
        "refused 25 derivation 1",
    ),
    // 18 ALL_R: {⊥} ⊢ ∀x·x∈S; not {x∈S} ⊢ ∀x·x∈S
    (
        "hypotheses 4\nstep 4 2 0 1 0 0 0 0 0\nstep 18 13 0 1 0 0 0 0 0\ncheck",
        "right",
    ),
    (
        "hypotheses 2\nstep 1 2 0 1 0 0 0 0 0\nstep 18 13 0 1 0 0 0 0 0\ncheck",
        "refused 25 derivation 1",
    ),
    // 19 XST_L: {∃x·x∈S} ⊢ ⊤ from {x∈S} ⊢ ⊤; not {∃x·x∈S} ⊢ x∈S
    (
        "hypotheses 2 14\nstep 14 5 0 1 0 0 0 0 0\nstep 19 5 1 1 0 0 14 0 0\ncheck",
        "right",
    ),
    (
        "hypotheses 2 14\nstep 1 2 0 1 0 0 0 0 0\nstep 19 2 1 1 0 0 14 0 0\ncheck",
        "refused 25 derivation 1",
    ),
    // 20 XST_R: {y∈S} ⊢ ∃x·x∈S, with y for x; not with x for x
    (
        "hypotheses 3\nstep 1 3 0 1 0 0 0 0 0\nstep 20 14 0 1 0 0 0 1 0\ncheck",
        "right",
    ),
    (
        "hypotheses 3\nstep 1 3 0 1 0 0 0 0 0\nstep 20 14 0 1 0 0 0 0 0\ncheck",
        "refused 25 derivation 1",
    ),
    // 21 EQL: ⊢ x=x; not ⊢ x=y
    ("step 21 16 0 0 0 0 0 0 0\ncheck", "right"),
    ("step 21 15 0 0 0 0 0 0 0\ncheck", "refused 25 derivation 0"),
    // 22 EQ_LR: {y∈S, x=y} ⊢ x∈S from {y∈S, x=y} ⊢ y∈S; not y∈S from x∈S
    (
        "hypotheses 3 15\nstep 1 3 0 2 0 0 0 0 0\nstep 22 2 0 2 0 0 15 0 2\ncheck",
        "right",
    ),
    (
        "hypotheses 2 15\nstep 1 2 0 2 0 0 0 0 0\nstep 22 3 0 2 0 0 15 0 2\ncheck",
        "refused 25 derivation 1",
    ),
    // 23 EQ_RL: {x∈S, x=y} ⊢ y∈S from {x∈S, x=y} ⊢ x∈S; not x∈S from y∈S
    (
        "hypotheses 2 15\nstep 1 2 0 2 0 0 0 0 0\nstep 23 3 0 2 0 0 15 0 2\ncheck",
        "right",
    ),
    (
        "hypotheses 3 15\nstep 1 3 0 2 0 0 0 0 0\nstep 23 2 0 2 0 0 15 0 2\ncheck",
        "refused 25 derivation 1",
    ),
    // 24 PAIR_L: {x↦y=y↦x} ⊢ x=y from {x=y, y=x} ⊢ x=y; not from {x=y} ⊢ x=y
    (
        "hypotheses 15 20 19\nstep 1 15 0 2 0 0 0 0 0\nstep 24 15 2 1 0 0 19 0 0\ncheck",
        "right",
    ),
    (
        "hypotheses 15 20 19\nstep 1 15 0 1 0 0 0 0 0\nstep 24 15 2 1 0 0 19 0 0\ncheck",
        "refused 25 derivation 1",
    ),
    // 25 PAIR_R: {x=y, y=x} ⊢ x↦y=y↦x; not with the premises swapped
    (
        "hypotheses 15 20\nstep 1 15 0 2 0 0 0 0 0\nstep 1 20 0 2 0 0 0 0 0\nstep 25 19 0 2 0 1 0 0 0\ncheck",
        "right",
    ),
    (
        "hypotheses 15 20\nstep 1 15 0 2 0 0 0 0 0\nstep 1 20 0 2 0 0 0 0 0\nstep 25 19 0 2 1 0 0 0 0\ncheck",
        "refused 25 derivation 2",
    ),
];

// Sizes, ranges, places and numbers at their ends.
const EDGES: [(&str, &str); 22] = [
    ("formula 11 1 0", "formula 20"),
    // 16 hypotheses, and 17
    (
        "hypotheses 2 3 4 5 6 7 8 9 10 11 12 13 14 15 16 19 20\nstep 1 2 0 16 0 0 0 0 0\ncheck",
        "right",
    ),
    (
        "hypotheses 2 3 4 5 6 7 8 9 10 11 12 13 14 15 16 19 20\nstep 1 2 0 17 0 0 0 0 0\ncheck",
        "refused 21 derivation 0",
    ),
    // the hypotheses of a step end where the list does
    ("hypotheses 2 3\nstep 1 3 1 1 0 0 0 0 0\ncheck", "right"),
    (
        "hypotheses 2 3\nstep 1 3 1 2 0 0 0 0 0\ncheck",
        "refused 21 derivation 0",
    ),
    (
        "hypotheses 2 3\nstep 1 3 65535 1 0 0 0 0 0\ncheck",
        "refused 21 derivation 0",
    ),
    // hypotheses that fall or stand twice, an expression among them, and goals that are no predicates
    (
        "hypotheses 3 2\nstep 1 2 0 2 0 0 0 0 0\ncheck",
        "refused 22 derivation 0",
    ),
    (
        "hypotheses 2 2\nstep 1 2 0 2 0 0 0 0 0\ncheck",
        "refused 22 derivation 0",
    ),
    (
        "hypotheses 0 2\nstep 1 2 0 2 0 0 0 0 0\ncheck",
        "refused 22 derivation 0",
    ),
    (
        "hypotheses 2\nstep 1 0 0 1 0 0 0 0 0\ncheck",
        "refused 22 derivation 0",
    ),
    (
        "hypotheses 2\nstep 1 65535 0 1 0 0 0 0 0\ncheck",
        "refused 22 derivation 0",
    ),
    // no such rule
    (
        "hypotheses 2\nstep 0 2 0 1 0 0 0 0 0\ncheck",
        "refused 23 derivation 0",
    ),
    (
        "hypotheses 2\nstep 26 2 0 1 0 0 0 0 0\ncheck",
        "refused 23 derivation 0",
    ),
    (
        "hypotheses 2\nstep 65535 2 0 1 0 0 0 0 0\ncheck",
        "refused 23 derivation 0",
    ),
    // a premise that is the step itself, a later one, or none
    (
        "hypotheses 2\nstep 2 2 0 1 0 0 0 0 0\ncheck",
        "refused 24 derivation 0",
    ),
    (
        "hypotheses 2\nstep 1 2 0 1 0 0 0 0 0\nstep 2 2 0 1 1 0 0 0 0\ncheck",
        "refused 24 derivation 1",
    ),
    (
        "hypotheses 2\nstep 1 2 0 1 0 0 0 0 0\nstep 3 2 0 1 0 1 0 0 0\ncheck",
        "refused 24 derivation 1",
    ),
    (
        "hypotheses 2\nstep 1 2 0 1 0 0 0 0 0\nstep 2 2 0 1 2 0 0 0 0\nstep 1 2 0 1 0 0 0 0 0\ncheck",
        "refused 24 derivation 1",
    ),
    (
        "hypotheses 2\nstep 1 2 0 1 0 0 0 0 0\nstep 3 2 0 1 0 65535 0 0 0\ncheck",
        "refused 24 derivation 1",
    ),
    // the first fault counts: of the first step that has one, and of the smallest number
    (
        "hypotheses 2 0\nstep 1 3 0 1 0 0 0 0 0\nstep 0 0 9 9 0 0 0 0 0\ncheck",
        "refused 25 derivation 0",
    ),
    (
        "hypotheses 2 0\nstep 0 0 0 2 0 0 0 0 0\ncheck",
        "refused 22 derivation 0",
    ),
    (
        "hypotheses 2 0\nstep 26 2 0 1 5 5 0 0 0\ncheck",
        "refused 23 derivation 0",
    ),
];

// Enters the vocabulary, without looking at what is printed.
fn enter_vocabulary(session: &mut Session) -> Result<(), AllocError> {
    for line in VOCABULARY {
        session.line(line.as_bytes())?;
    }
    Ok(())
}

// Each script after the vocabulary, and what is printed for its last line.
fn all_judged(
    rt: &(impl Abort + AllocGlobal),
    session: &mut Session,
    table: &[(&str, &str)],
) -> Result<(), Fail> {
    enter_vocabulary(session)?;
    all_answer(rt, session, table)?;
    assert!(rt; session.understood());
    Ok(())
}

#[test]
fn rules_of_propositions(rt: HostRuntime) -> Result<(), Fail> {
    in_session(
        rt.alloc(),
        |session| all_judged(&rt, session, &PROPOSITIONS),
    )
}

#[test]
fn rules_of_quantifiers_and_equality(rt: HostRuntime) -> Result<(), Fail> {
    in_session(rt.alloc(), |session| all_judged(&rt, session, &TERMS))
}

#[test]
fn edges(rt: HostRuntime) -> Result<(), Fail> {
    in_session(rt.alloc(), |session| all_judged(&rt, session, &EDGES))
}

// A derivation of so many steps, each {P} ⊢ P, with so many numbers in its list.
fn is_sized(
    rt: &(impl Abort + AllocGlobal),
    session: &mut Session,
    steps: u16,
    numbers: u16,
    expected: &str,
) -> Result<(), Fail> {
    for _ in 0..steps {
        session.line(b"step 1 2 0 1 0 0 0 0 0")?;
    }
    for _ in 0..numbers {
        session.line(b"hypotheses 2")?;
    }
    answers(rt, session, "check", expected)
}

fn all_are_sized(rt: &(impl Abort + AllocGlobal), session: &mut Session) -> Result<(), Fail> {
    enter_vocabulary(session)?;
    is_sized(rt, session, 0, 0, "refused 20 derivation 0")?;
    is_sized(rt, session, 256, 4096, "right")?;
    is_sized(rt, session, 257, 1, "refused 20 derivation 0")?;
    is_sized(rt, session, 1, 4097, "refused 20 derivation 0")
}

#[test]
fn sizes(rt: HostRuntime) -> Result<(), Fail> {
    in_session(rt.alloc(), |session| all_are_sized(&rt, session))
}

// The derivation belongs to the session: it waits for a book, is judged in the current one, and then begins anew.
const WRITTEN: [(&str, &str); 20] = [
    ("step 14 0 0 0 0 0 0 0 0", ""),
    ("check", "no such book"),
    ("book 1", "book 1"),
    ("formula 3 0 0", "formula 0"),
    ("check", "right"),
    ("check", "refused 20 derivation 0"),
    ("step 1 0 0 1 0 0 0 0 0", ""),
    ("hypotheses 0 0 65536", "line 8: not understood"),
    ("hypotheses", ""),
    ("check", "refused 21 derivation 0"),
    ("hypotheses 0", ""),
    ("step 1 0 0 1 0 0 0 0 0", ""),
    ("book 2", "book 2"),
    ("check", "refused 22 derivation 0"),
    ("hypotheses 0", ""),
    ("use 0", "book 1"),
    ("hypotheses 0", ""),
    ("step 1 0 1 1 0 0 0 0 0", ""),
    ("check", "right"),
    ("check", "refused 20 derivation 0"),
];

#[test]
fn one_derivation_is_written(rt: HostRuntime) -> Result<(), Fail> {
    in_session(rt.alloc(), |session| all_answer(&rt, session, &WRITTEN))
}
