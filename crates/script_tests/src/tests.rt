// Lines read one by one, and scripts run through a session.
use crate::running::{in_session, is_printed};
use calculus::Step;
use commands::command::{Call, Command, HoldCall, Line, read_line};
use script::Session;
use std::process::Abort;
use std::test::*;

const STEP: Step = Step {
    rule: 17,
    goal: 7,
    start: 0,
    count: 2,
    first: 1,
    second: 65535,
    a: 4,
    b: 5,
    c: 8,
};

// The commands, with numbers at the ends of their range, spaces and leading zeros.
const READ: [(&str, Command); 25] = [
    ("book 0", Command::Book(0)),
    ("book 4294967295", Command::Book(4294967295)),
    ("use 65535", Command::Use(65535)),
    ("carrier", Command::Call(Call::Carrier)),
    ("  carrier ", Command::Call(Call::Carrier)),
    ("product 1 2", Command::Call(Call::Product(1, 2))),
    ("variable 65535", Command::Call(Call::Variable(65535))),
    (
        "variable 000000000000000000000065535",
        Command::Call(Call::Variable(65535)),
    ),
    ("set 9", Command::Call(Call::Set(9))),
    ("formula 12 0 1", Command::Call(Call::Formula(12, 0, 1))),
    (
        "  formula   012  0     01  ",
        Command::Call(Call::Formula(12, 0, 1)),
    ),
    ("free 1 3", Command::Call(Call::Free(1, 3))),
    (
        "substitution 8 3 1 5",
        Command::Call(Call::Substitution(8, 3, 1, 5)),
    ),
    ("book 0000000000000", Command::Book(0)),
    ("step 17 7 0 2 1 65535 4 5 8", Command::Step(STEP)),
    ("  step 017 7 00 2 1 65535 4 5  8 ", Command::Step(STEP)),
    ("check", Command::Check),
    ("give 4", Command::Call(Call::Give(4))),
    ("entry 511", Command::Call(Call::Entry(511))),
    ("predicate 65535", Command::Call(Call::Predicate(65535))),
    ("hold 1", Command::Hold(1)),
    ("preview 0", Command::HoldCall(HoldCall::Preview, 0)),
    ("lift 65535", Command::HoldCall(HoldCall::Lift, 65535)),
    ("withdraw 2", Command::HoldCall(HoldCall::Withdraw, 2)),
    ("  withdraw  002 ", Command::HoldCall(HoldCall::Withdraw, 2)),
];

#[test]
fn commands_are_read(rt: HostRuntime) -> Result<(), Fail> {
    for (text, command) in READ {
        assert_eq!(rt; read_line(text.as_bytes()), Line::Asks(command));
        let written = command.to_string(rt.alloc())?;
        assert_eq!(rt; read_line(written.as_str().as_bytes()), Line::Asks(command));
    }
    Ok(())
}

// Each of these lines asks the same.
fn all_ask(rt: &impl Abort, lines: &[&str], asked: Line) {
    for line in lines {
        assert_eq!(rt; read_line(line.as_bytes()), asked);
    }
}

const SILENT: [&str; 6] = ["", " ", "     ", "#", "# book 7", "#book"];

#[test]
fn blanks_and_comments_are_silent(rt: HostRuntime) -> Result<(), Fail> {
    all_ask(&rt, &SILENT, Line::Silent);
    Ok(())
}

const LISTS: [&str; 4] = [
    "hypotheses",
    "hypotheses 65535",
    "  hypotheses  0 1  02 ",
    "hypotheses 9 8 7 6 5 4 3 2 1 0",
];

#[test]
fn lists_of_any_length_are_read(rt: HostRuntime) -> Result<(), Fail> {
    all_ask(&rt, &LISTS, Line::Hypotheses);
    Ok(())
}

const CITATIONS: [&str; 4] = [
    "conclude",
    "conclude 0 1",
    "  conclude 65535 ",
    "conclude 2 1 0 00",
];

#[test]
fn citations_of_any_length_are_read(rt: HostRuntime) -> Result<(), Fail> {
    all_ask(&rt, &CITATIONS, Line::Conclude);
    Ok(())
}

const NOT_UNDERSTOOD: [&[u8]; 49] = [
    b"book",
    b"book 4294967296",
    b"book 99999999999999999999999999999999",
    b"book 1 2",
    b"book x",
    b"use",
    b"use 65536",
    b"use 0 0",
    b"carrier 0",
    b"carriers",
    b"Carrier",
    b"product 1",
    b"product 1 2 3",
    b"product 1 65536",
    b"variable",
    b"variable +1",
    b"variable -1",
    b"variable 1x",
    b"variable 0x1",
    b"variable 65536",
    b"set",
    b"formula 1 2",
    b"formula 1 2 3 4",
    b"free 1",
    b"substitution 1 2 3",
    b"variable\t0",
    b" # a comment begins before any space",
    b"variable \xff",
    b"\xc3\x28",
    b"step 1 2 3 4 5 6 7 8",
    b"step 1 2 3 4 5 6 7 8 9 10",
    b"step 1 2 3 4 5 6 7 8 65536",
    b"check 0",
    b"hypothesis 1",
    b"hypotheses x",
    b"hypotheses 1 65536 2",
    b"hypotheses 1 2 -3",
    b"give",
    b"give 1 2",
    b"entry",
    b"predicate",
    b"predicate 65536",
    b"hold",
    b"hold 0 1",
    b"preview",
    b"lift 0 0",
    b"withdraw x",
    b"conclude x",
    b"conclude 0 65536",
];

#[test]
fn other_lines_are_not_understood(rt: HostRuntime) -> Result<(), Fail> {
    for text in NOT_UNDERSTOOD {
        assert_eq!(rt; read_line(text), Line::NotUnderstood);
    }
    Ok(())
}

// Each line of a script, and what is printed for it.
const SCRIPT: [(&[u8], &str); 30] = [
    (b"# nothing is begun yet\n", ""),
    (b"carrier\n", "no such book"),
    (b"use 0\n", "no such book"),
    (b"\n", ""),
    (b"book 7\r\n", "book 7"),
    (b"carrier\n", "type 0"),
    (b"product 0 0", "type 1"),
    (b"product 0 0\n", "type 1"),
    (b"variable 0\n", "variable 0"),
    (b"set 1\n", "set 0"),
    (b"formula 0 0 0\n", "formula 0"),
    (b"formula 1 0 0\n", "formula 1"),
    (b"formula 12 1 0\n", "formula 2"),
    (b"formula 12 0 0\n", "refused 7 vocabulary 0"),
    (b"free 0 2\n", "yes"),
    (b"free 1 2\n", "no"),
    (b"substitution 2 2 0 0\n", "yes"),
    (b"substitution 1 2 0 0\n", "no"),
    (b"book 7\n", "book 7"),
    (b"variable 0\n", "refused 2 vocabulary 0"),
    (b"use 2\n", "no such book"),
    (b"carrier\n", "type 0"),
    (b"use 0\n", "book 7"),
    (b"carrier\n", "type 2"),
    (b"use 1\n", "book 7"),
    (b"carrier\n", "type 1"),
    (b"formula 4\n", "line 27: not understood"),
    (b"\xff\n", "line 28: not understood"),
    (b"carrier\r", "line 29: not understood"),
    (b"carrier\r\n", "type 2"),
];

fn script_is_answered(rt: &(impl Abort + AllocGlobal), session: &mut Session) -> Result<(), Fail> {
    for (text, expected) in SCRIPT {
        is_printed(rt, session.line(text)?, expected)?;
    }
    assert!(rt; !session.understood());
    Ok(())
}

#[test]
fn scripts_are_answered(rt: HostRuntime) -> Result<(), Fail> {
    in_session(rt.alloc(), |session| script_is_answered(&rt, session))
}

fn is_understood(rt: &impl Abort, session: &mut Session) -> Result<(), Fail> {
    for text in SILENT {
        assert!(rt; session.line(text.as_bytes())?.is_none());
    }
    session.line(b"book 1")?;
    session.line(b"formula 1 2 3")?;
    assert!(rt; session.understood());
    Ok(())
}

#[test]
fn an_understood_script_is_said_to_be_one(rt: HostRuntime) -> Result<(), Fail> {
    in_session(rt.alloc(), |session| is_understood(&rt, session))
}
