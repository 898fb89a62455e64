// The entries of a book, and how they are told.
ghost use Rattle.std.specs.Prelude.{◌≡◌, Some};
ghost use Rattle.states.specs.Support.{facts};
ghost use Rattle.states.specs.Texts.{origin_text, state_text, facts_text};

use std::fmt;

// A given rule, or what a derivation concluded.
#[derive(Clone, Copy, PartialEq, Eq, Debug)]
pub enum Origin {
    Given,
    Concluded,
}

#[derive(Clone, Copy, PartialEq, Eq, Debug)]
pub enum State {
    Standing,
    Held,
    Withdrawn,
    Fallen,
}

// What can happen to an entry; a loss is that of a rule in its support.
#[derive(Clone, Copy, PartialEq, Eq, Debug)]
pub enum Event {
    Hold,
    Lift,
    Withdraw,
    Loss,
}

// The first `count` of `citations` are the entries that it cites; `support` marks the given rules in its support. All entries have
// one size, since no call on a book allocates. An array with a count, since no vector is `Copy`, as an entry is.
#[derive(Clone, Copy)]
pub struct Entry {
    pub origin: Origin,
    pub predicate: u16,
    pub state: State,
    pub count: u16,
    pub citations: [u16; 16],
    pub support: [bool; 512],
}

// What a book answers about an entry. No part of `Entry`, whose state is written apart from what stays.
#[derive(Clone, Copy, PartialEq, Eq, Debug)]
pub struct EntryFacts {
    pub origin: Origin,
    pub predicate: u16,
    pub state: State,
}

impl From<&Entry> for EntryFacts {
    ghost from_gives = { λ x f. f ≡ facts x.now };

    fn from(x: &Entry) -> EntryFacts {
        EntryFacts {
            origin: x.origin,
            predicate: x.predicate,
            state: x.state,
        }
    }
}

impl fmt::Display for Origin {
    ghost output = { λ o. Some (origin_text o) };

    fn fmt<W: fmt::Write>(&self, f: &mut fmt::Formatter<W>) -> fmt::Result {
        f.write_str(match self {
            Origin::Given => "given",
            Origin::Concluded => "concluded",
        })
    }
}

impl fmt::Display for State {
    ghost output = { λ s. Some (state_text s) };

    fn fmt<W: fmt::Write>(&self, f: &mut fmt::Formatter<W>) -> fmt::Result {
        f.write_str(match self {
            State::Standing => "standing",
            State::Held => "held",
            State::Withdrawn => "withdrawn",
            State::Fallen => "fallen",
        })
    }
}

impl fmt::Display for EntryFacts {
    ghost output = { λ e. Some (facts_text e) };

    fn fmt<W: fmt::Write>(&self, f: &mut fmt::Formatter<W>) -> fmt::Result {
        write!(f, "{} {} {}", self.origin, self.predicate, self.state)
    }
}
