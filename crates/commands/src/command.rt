// What a line of a script asks: a word, and then numbers in decimal, with spaces between them.
ghost use Rattle.std.specs.Prelude.{◌≡◌, ◌∷◌, Some};
ghost use Rattle.commands.specs.Words.{words, all_numbers};
ghost use Rattle.commands.specs.Commands.{hold_call_word, command, step_of, list_line, without_ending, request, request_words, line_of, call_text, command_text};

use crate::words::{Words, are_numbers, numbers, only_number, only_short_number};
use calculus::Step;
use std::fmt;

// A call on the current book, or a question to it. Each call has the word that a script has for it, those on the vocabulary among them:
// under one variant of their own they would need a second match to be read and written.
#[derive(Clone, Copy, PartialEq, Eq, Debug)]
pub enum Call {
    Carrier,
    Product(u16, u16),
    Variable(u16),
    Set(u16),
    Formula(u16, u16, u16),
    Free(u16, u16),
    Substitution(u16, u16, u16, u16),
    Give(u16),
    Entry(u16),
    Predicate(u16),
}

// A call that is made with a hold.
#[derive(Clone, Copy, PartialEq, Eq, Debug)]
pub enum HoldCall {
    Preview,
    Lift,
    Withdraw,
}

#[derive(Clone, Copy, PartialEq, Eq, Debug)]
pub enum Command {
    Book(u32),
    Use(u16),
    Call(Call),
    Step(Step),
    Check,
    Hold(u16),
    HoldCall(HoldCall, u16),
}

// What a line asks. Reading takes no memory, so a line of hypotheses or of citations is read for its numbers when it is run.
#[derive(Clone, Copy, PartialEq, Eq, Debug)]
pub enum Line {
    Silent,
    NotUnderstood,
    Asks(Command),
    Hypotheses,
    Conclude,
}

impl fmt::Display for Call {
    ghost output = { λ c. Some (call_text c) };

    fn fmt<W: fmt::Write>(&self, f: &mut fmt::Formatter<W>) -> fmt::Result {
        match *self {
            Call::Carrier => f.write_str("carrier"),
            Call::Product(s, t) => write!(f, "product {s} {t}"),
            Call::Variable(t) => write!(f, "variable {t}"),
            Call::Set(t) => write!(f, "set {t}"),
            Call::Formula(kind, a, b) => write!(f, "formula {kind} {a} {b}"),
            Call::Free(x, n) => write!(f, "free {x} {n}"),
            Call::Substitution(q, p, x, e) => write!(f, "substitution {q} {p} {x} {e}"),
            Call::Give(p) => write!(f, "give {p}"),
            Call::Entry(e) => write!(f, "entry {e}"),
            Call::Predicate(p) => write!(f, "predicate {p}"),
        }
    }
}

impl fmt::Display for HoldCall {
    ghost output = { λ d. Some (hold_call_word d) };

    fn fmt<W: fmt::Write>(&self, f: &mut fmt::Formatter<W>) -> fmt::Result {
        match self {
            HoldCall::Preview => f.write_str("preview"),
            HoldCall::Lift => f.write_str("lift"),
            HoldCall::Withdraw => f.write_str("withdraw"),
        }
    }
}

impl fmt::Display for Command {
    ghost output = { λ c. Some (command_text c) };

    fn fmt<W: fmt::Write>(&self, f: &mut fmt::Formatter<W>) -> fmt::Result {
        match *self {
            Command::Book(number) => write!(f, "book {number}"),
            Command::Use(k) => write!(f, "use {k}"),
            Command::Call(call) => write!(f, "{call}"),
            Command::Step(s) => write!(
                f,
                "step {} {} {} {} {} {} {} {} {}",
                s.rule, s.goal, s.start, s.count, s.first, s.second, s.a, s.b, s.c
            ),
            Command::Check => f.write_str("check"),
            Command::Hold(e) => write!(f, "hold {e}"),
            Command::HoldCall(call, h) => write!(f, "{call} {h}"),
        }
    }
}

// The step that a text of nine numbers writes.
fn read_step(rest: Words) -> Option<Step>
    ensures { result ≡ step_of (words rest.entry.text.now) }
{
    let [rule, goal, start, count, first, second, a, b, c] = numbers::<9>(rest)?;
    Some(Step {
        rule,
        goal,
        start,
        count,
        first,
        second,
        a,
        b,
        c,
    })
}

// The command that a first word and the words after it make. The words stand here and where a command is written: a function from a
// command to its word would have as many arms again.
fn read_command(word: &[u8], mut rest: Words) -> Option<Command>
    ensures { result ≡ command word.now (words rest.entry.text.now) }
{
    match word {
        b"book" => only_number(rest).map(Command::Book),
        b"use" => only_short_number(rest).map(Command::Use),
        b"carrier" => rest
            .next()
            .is_none()
            .then_some(Command::Call(Call::Carrier)),
        b"product" => {
            let [s, t] = numbers::<2>(rest)?;
            Some(Command::Call(Call::Product(s, t)))
        }
        b"variable" => only_short_number(rest).map(|t| Command::Call(Call::Variable(t))),
        b"set" => only_short_number(rest).map(|t| Command::Call(Call::Set(t))),
        b"formula" => {
            let [kind, a, b] = numbers::<3>(rest)?;
            Some(Command::Call(Call::Formula(kind, a, b)))
        }
        b"free" => {
            let [x, n] = numbers::<2>(rest)?;
            Some(Command::Call(Call::Free(x, n)))
        }
        b"substitution" => {
            let [q, p, x, e] = numbers::<4>(rest)?;
            Some(Command::Call(Call::Substitution(q, p, x, e)))
        }
        b"give" => only_short_number(rest).map(|p| Command::Call(Call::Give(p))),
        b"entry" => only_short_number(rest).map(|e| Command::Call(Call::Entry(e))),
        b"predicate" => only_short_number(rest).map(|p| Command::Call(Call::Predicate(p))),
        b"step" => read_step(rest).map(Command::Step),
        b"check" => rest.next().is_none().then_some(Command::Check),
        b"hold" => only_short_number(rest).map(Command::Hold),
        b"preview" => only_short_number(rest).map(|h| Command::HoldCall(HoldCall::Preview, h)),
        b"lift" => only_short_number(rest).map(|h| Command::HoldCall(HoldCall::Lift, h)),
        b"withdraw" => only_short_number(rest).map(|h| Command::HoldCall(HoldCall::Withdraw, h)),
        _ => None,
    }
}

// A line without its ending: a newline, or a carriage return and a newline.
pub fn without_ending(line: &[u8]) -> &[u8]
    ensures { result.now ≡ without_ending line.now }
{
    let Some(text) = line.strip_suffix(b"\n") else {
        return line;
    };
    text.strip_suffix(b"\r").unwrap_or(text)
}

// What a line of numbers asks, its first word left out.
fn read_list(asked: Line, rest: Words) -> Line
    ensures { result ≡ list_line asked (all_numbers (words rest.entry.text.now)) }
{
    if are_numbers(rest) {
        asked
    } else {
        Line::NotUnderstood
    }
}

// What a first word and the words after it ask.
fn read_words(word: &[u8], rest: Words) -> Line
    ensures { result ≡ line_of (request_words (word.now ∷ words rest.entry.text.now)) }
{
    match word {
        b"hypotheses" => read_list(Line::Hypotheses, rest),
        b"conclude" => read_list(Line::Conclude, rest),
        _ => read_command(word, rest).map_or(Line::NotUnderstood, Line::Asks),
    }
}

// What a line asks, its ending left out. A comment begins with '#', before any space.
pub fn read_line(line: &[u8]) -> Line
    ensures { result ≡ line_of (request line.now) }
{
    if let [b'#', ..] = line {
        return Line::Silent;
    }
    let mut rest = Words::new(line);
    match rest.next() {
        Some(word) => read_words(word, rest),
        None => Line::Silent,
    }
}
