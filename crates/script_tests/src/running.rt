// How the tests run scripts.
use replies::reply::Reply;
use script::Session;
use std::alloc::{AllocError, Global};
use std::process::Abort;
use std::test::*;

// Runs a test on a new session, and ends the session whatever comes of it.
pub(crate) fn in_session<F: FnOnce(&mut Session) -> Result<(), Fail>>(
    alloc: Global,
    test: F,
) -> Result<(), Fail>
    requires { F.IsAlwaysCallable test }
{
    let mut session = Session::new(alloc);
    let outcome = test(&mut session);
    session.end();
    outcome
}

// Compares what is printed for a reply; nothing is printed where there is none.
pub(crate) fn is_printed(
    rt: &(impl Abort + AllocGlobal),
    reply: Option<Reply>,
    expected: &str,
) -> Result<(), Fail> {
    match reply {
        Some(reply) => assert_eq!(rt; reply.to_string(rt.alloc())?.as_str(), expected),
        None => assert_eq!(rt; "", expected),
    }
    Ok(())
}

// Runs the lines of a script, and answers what is printed for the last.
fn last_reply(session: &mut Session, script: &str) -> Result<Option<Reply>, AllocError> {
    let mut last = None;
    for line in script.lines() {
        last = session.line(line.as_bytes())?;
    }
    Ok(last)
}

// Runs a script, and compares what is printed for its last line.
pub(crate) fn answers(
    rt: &(impl Abort + AllocGlobal),
    session: &mut Session,
    script: &str,
    expected: &str,
) -> Result<(), Fail> {
    is_printed(rt, last_reply(session, script)?, expected)
}

// Runs scripts one after another, and compares what is printed for the last line of each.
pub(crate) fn all_answer(
    rt: &(impl Abort + AllocGlobal),
    session: &mut Session,
    scripts: &[(&str, &str)],
) -> Result<(), Fail> {
    for (script, expected) in scripts {
        answers(rt, session, script, expected)?;
    }
    Ok(())
}
