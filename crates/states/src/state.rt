ghost use Rattle.std.specs.Prelude.{◌≡◌};
ghost use Rattle.states.specs.Support.{stands_with, in_support, with_state, falls_with, lose};
ghost use Rattle.states.specs.States.{becomes, stands, is_held, is_standing, is_given};

use crate::entry::{Entry, Event, Origin, State};

impl State {
    // What an entry of this origin becomes at an event.
    pub fn next(self, event: Event, origin: Origin) -> State
        ensures { result ≡ becomes self event origin }
    {
        match (self, event) {
            (State::Standing, Event::Hold) if origin.is_given() => State::Held,
            (State::Held, Event::Lift) => State::Standing,
            (State::Held, Event::Withdraw) => State::Withdrawn,
            (State::Standing, Event::Loss) if !origin.is_given() => State::Fallen,
            _ => self,
        }
    }

    // The definitions tell states apart by cases, as `matches!` does; by `==` each would need a definition of its own for nothing.
    pub fn is_held(self) -> bool
        ensures { result ≡ is_held self }
    {
        matches!(self, State::Held)
    }

    pub fn is_standing(self) -> bool
        ensures { result ≡ is_standing self }
    {
        matches!(self, State::Standing)
    }

    // An entry stands while it is standing or held.
    pub fn stands(self) -> bool
        ensures { result ≡ stands self }
    {
        matches!(self, State::Standing | State::Held)
    }
}

impl Origin {
    pub fn is_given(self) -> bool
        ensures { result ≡ is_given self }
    {
        matches!(self, Origin::Given)
    }
}

impl Entry {
    // Whether it stands with the predicate p.
    pub fn stands_with(&self, p: u16) -> bool
        ensures { result ≡ stands_with p self.now }
    {
        self.predicate == p && self.state.stands()
    }

    // Whether the given rule r is in its support; past the marks there is no rule.
    pub fn rests_on(&self, r: usize) -> bool
        ensures { result ≡ in_support r self.now }
    {
        self.support.get(r).copied().unwrap_or(false)
    }

    // Whether it is a standing conclusion whose support has the rule r.
    pub fn falls_with(&self, r: usize) -> bool
        ensures { result ≡ falls_with r self.now }
    {
        self.rests_on(r) && !self.origin.is_given() && self.state.is_standing()
    }

    pub fn undergo(&mut self, event: Event)
        ensures { self.new ≡ with_state self.old (becomes self.old.state event self.old.origin) }
    {
        self.state = self.state.next(event, self.origin);
    }

    // Its state once the rule r is lost.
    pub fn state_without(&self, r: usize) -> State
        ensures { result ≡ (lose r self.now).state }
    {
        if self.rests_on(r) {
            self.state.next(Event::Loss, self.origin)
        } else {
            self.state
        }
    }

    // The loss of the rule r.
    pub fn lose(&mut self, r: usize)
        ensures { self.new ≡ lose r self.old }
    {
        self.state = self.state_without(r);
    }
}
