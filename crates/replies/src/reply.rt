// What a line is answered, and its text.
ghost use Rattle.std.specs.Prelude.{Some};
ghost use Rattle.replies.specs.Replies.{thing_text, reply_text};

use formulas::refusals::Notice;
use states::entry::EntryFacts;
use std::fmt;

// What has a number in a book.
#[derive(Clone, Copy, PartialEq, Eq, Debug)]
pub enum Thing {
    Type,
    Variable,
    Set,
    Formula,
    Entry,
}

#[derive(Clone, Copy, PartialEq, Eq, Debug)]
pub enum Reply {
    Book(u32),
    NoSuchBook,
    Numbered(Thing, u16),
    Yes,
    No,
    Right,
    Hold(usize),
    // how many conclusions, and the lowest of them
    Falls(u16, u16),
    Lifted,
    Fell(u16, u16),
    Entry(EntryFacts),
    NoEntry,
    NoSuchHold,
    LiftedAtClose(usize),
    DiscardedAtClose(usize),
    Refused(Notice),
    NotUnderstood(u64),
}

impl fmt::Display for Thing {
    ghost output = { λ t. Some (thing_text t) };

    fn fmt<W: fmt::Write>(&self, f: &mut fmt::Formatter<W>) -> fmt::Result {
        f.write_str(match self {
            Thing::Type => "type",
            Thing::Variable => "variable",
            Thing::Set => "set",
            Thing::Formula => "formula",
            Thing::Entry => "entry",
        })
    }
}

impl fmt::Display for Reply {
    ghost output = { λ r. Some (reply_text r) };

    fn fmt<W: fmt::Write>(&self, f: &mut fmt::Formatter<W>) -> fmt::Result {
        match *self {
            Reply::Book(n) => write!(f, "book {n}"),
            Reply::NoSuchBook => f.write_str("no such book"),
            Reply::Numbered(thing, n) => write!(f, "{thing} {n}"),
            Reply::Yes => f.write_str("yes"),
            Reply::No => f.write_str("no"),
            Reply::Right => f.write_str("right"),
            Reply::Hold(h) => write!(f, "hold {h}"),
            Reply::Falls(count, lowest) => write!(f, "falls {count} {lowest}"),
            Reply::Lifted => f.write_str("lifted"),
            Reply::Fell(count, lowest) => write!(f, "fell {count} {lowest}"),
            Reply::Entry(facts) => write!(f, "{facts}"),
            Reply::NoEntry => f.write_str("none"),
            Reply::NoSuchHold => f.write_str("no such hold"),
            Reply::LiftedAtClose(h) => write!(f, "lifted {h} at close"),
            Reply::DiscardedAtClose(h) => write!(f, "discarded {h} at close"),
            Reply::Refused(notice) => write!(f, "refused {notice}"),
            Reply::NotUnderstood(line) => write!(f, "line {line}: not understood"),
        }
    }
}
