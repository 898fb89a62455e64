// Giving, concluding, holding and withdrawing, as scripts.
use crate::running::{all_answer, in_session, is_printed};
use script::Session;
use std::process::Abort;
use std::test::*;

// Book 1 has the formulas 0 ⊤ and 1 ¬⊤, book 2 has ⊤. Hold 0 is lifted, hold 1 ends in a withdrawal, and the holds 2 and 3
// are refused by the other book, so that they are left to the close.
const SCRIPT: [(&str, &str); 57] = [
    ("give 0", "no such book"),
    ("conclude", "no such book"),
    ("hold 0", "no such book"),
    ("lift 0", "no such book"),
    ("book 1", "book 1"),
    ("entry 0", "refused 30 book 0"),
    ("predicate 0", "refused 10 book 0"),
    ("give 0", "refused 10 book 0"),
    ("formula 3 0 0", "formula 0"),
    ("formula 4 0 0", "formula 1"),
    ("predicate 0", "none"),
    ("give 0", "entry 0"),
    ("give 1", "entry 1"),
    ("entry 1", "given 1 standing"),
    ("predicate 1", "entry 1"),
    // ⊤ from nothing, with no citation
    ("step 14 0 0 0 0 0 0 0 0", ""),
    ("conclude", "entry 2"),
    ("entry 2", "concluded 0 standing"),
    ("predicate 0", "entry 0"),
    // the derivation is gone, refused or not
    ("conclude", "refused 20 derivation 0"),
    ("hypotheses 1", ""),
    ("step 1 1 0 1 0 0 0 0 0", ""),
    ("conclude 0", "refused 29 book 0"),
    ("check", "refused 20 derivation 0"),
    ("hypotheses 1", ""),
    ("step 1 1 0 1 0 0 0 0 0", ""),
    ("conclude 9", "refused 26 book 0"),
    ("hypotheses 1", ""),
    ("step 1 1 0 1 0 0 0 0 0", ""),
    ("conclude 1", "entry 3"),
    ("preview 0", "no such hold"),
    ("hold 2", "refused 31 book 0"),
    ("hold 9", "refused 30 book 0"),
    ("hold 1", "hold 0"),
    ("hold 1", "refused 32 book 0"),
    ("entry 1", "given 1 held"),
    ("preview 0", "falls 1 3"),
    ("lift 0", "lifted"),
    ("lift 0", "no such hold"),
    ("hold 1", "hold 1"),
    ("withdraw 1", "fell 1 3"),
    ("withdraw 1", "no such hold"),
    ("entry 3", "concluded 1 fallen"),
    ("entry 1", "given 1 withdrawn"),
    ("hold 0", "hold 2"),
    // a hold that another book refuses stays in hand
    ("book 2", "book 2"),
    ("withdraw 2", "refused 33 book 0"),
    ("lift 2", "refused 33 book 0"),
    ("preview 2", "refused 33 book 0"),
    ("formula 3 0 0", "formula 0"),
    ("give 0", "entry 0"),
    ("hold 0", "hold 3"),
    ("use 0", "book 1"),
    ("preview 2", "falls 0 0"),
    ("lift 3", "refused 33 book 0"),
    ("preview 4", "no such hold"),
    ("hold", "line 57: not understood"),
];

fn holds_are_answered(rt: &(impl Abort + AllocGlobal), session: &mut Session) -> Result<(), Fail> {
    all_answer(rt, session, &SCRIPT)?;
    assert_eq!(rt; session.holds(), 4);
    is_printed(rt, session.close_hold(0), "")?;
    is_printed(rt, session.close_hold(1), "")?;
    is_printed(rt, session.close_hold(2), "lifted 2 at close")?;
    is_printed(rt, session.close_hold(3), "lifted 3 at close")?;
    is_printed(rt, session.close_hold(3), "")?;
    is_printed(rt, session.close_hold(4), "")
}

#[test]
fn scripts_with_holds_are_answered(rt: HostRuntime) -> Result<(), Fail> {
    in_session(rt.alloc(), |session| holds_are_answered(&rt, session))
}

// A citation is refused at its place: after one that repeats it, while its rule is held, and once its rule is withdrawn.
const CITED: [(&str, &str); 19] = [
    ("book 1", "book 1"),
    ("formula 3 0 0", "formula 0"),
    ("formula 4 0 0", "formula 1"),
    ("give 0", "entry 0"),
    ("give 1", "entry 1"),
    ("hypotheses 1", ""),
    ("step 1 1 0 1 0 0 0 0 0", ""),
    ("conclude 1 1", "refused 26 book 1"),
    ("hypotheses 1", ""),
    ("step 1 1 0 1 0 0 0 0 0", ""),
    ("conclude 1", "entry 2"),
    ("hold 1", "hold 0"),
    ("hypotheses 0 1", ""),
    ("step 1 0 0 2 0 0 0 0 0", ""),
    ("conclude 0 1", "refused 28 book 1"),
    ("withdraw 0", "fell 1 2"),
    ("hypotheses 0 1", ""),
    ("step 1 0 0 2 0 0 0 0 0", ""),
    ("conclude 0 2", "refused 27 book 1"),
];

#[test]
fn citations_are_refused_at_their_place(rt: HostRuntime) -> Result<(), Fail> {
    in_session(rt.alloc(), |session| all_answer(&rt, session, &CITED))
}

// Two books with one number: the second lifts what the first granted, so that at the close the first's own hold is refused.
const TWINS: [(&str, &str); 11] = [
    ("book 5", "book 5"),
    ("formula 3 0 0", "formula 0"),
    ("give 0", "entry 0"),
    ("hold 0", "hold 0"),
    ("book 5", "book 5"),
    ("formula 3 0 0", "formula 0"),
    ("give 0", "entry 0"),
    ("hold 0", "hold 1"),
    ("lift 0", "lifted"),
    ("entry 0", "given 0 standing"),
    ("lift 1", "refused 33 book 0"),
];

fn twins_are_answered(rt: &(impl Abort + AllocGlobal), session: &mut Session) -> Result<(), Fail> {
    all_answer(rt, session, &TWINS)?;
    is_printed(rt, session.close_hold(0), "")?;
    is_printed(rt, session.close_hold(1), "discarded 1 at close")?;
    is_printed(rt, session.close_hold(1), "")
}

#[test]
fn a_hold_may_be_discarded(rt: HostRuntime) -> Result<(), Fail> {
    in_session(rt.alloc(), |session| twins_are_answered(&rt, session))
}

// A book has at most 512 entries.
fn fills(rt: &(impl Abort + AllocGlobal), session: &mut Session) -> Result<(), Fail> {
    session.line(b"book 1")?;
    session.line(b"formula 3 0 0")?;
    for _ in 0..511 {
        session.line(b"give 0")?;
    }
    is_printed(rt, session.line(b"give 0")?, "entry 511")?;
    is_printed(rt, session.line(b"give 0")?, "refused 11 book 0")?;
    session.line(b"step 14 0 0 0 0 0 0 0 0")?;
    is_printed(rt, session.line(b"conclude")?, "refused 11 book 0")
}

#[test]
fn a_book_may_be_full(rt: HostRuntime) -> Result<(), Fail> {
    in_session(rt.alloc(), |session| fills(&rt, session))
}
