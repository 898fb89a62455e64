// The calls on the entries.
ghost use Rattle.std.specs.Prelude.{◌≡◌, ◌≤◌, [], Ok, Err, cond, count_by, map, length, nat_lt, position, IfOk};
ghost use Rattle.states.specs.declared.refusal.Refusal.TheVariants.{EntriesFull, NotHeld};
ghost use Rattle.states.specs.Support.{stands_with, falls_with, lose};
ghost use Rattle.entries.specs.Lists.{give, hold, holds_entry, lift, falling, preview, withdraw, ask};
ghost use Rattle.entries.specs.Concluding.{conclude};

use crate::cited::Cited;
use crate::store::Entries;
use calculus::refusal::Refusal as DerivationRefusal;
use states::entry::{Entry, EntryFacts, Event, Origin, State};
use states::refusal::Refusal;
use std::alloc::{AllocError, Global};

pub const MAX_ENTRIES: usize = 512;

pub const MAX_CITATIONS: usize = 16;

impl Entries {
    // No entries, with room for all that there can be.
    pub fn new(alloc: Global) -> Result<Entries, AllocError>
        ensures { IfOk result (λ s. s ≡ []) }
    {
        let list = Vec::with_capacity(alloc, MAX_ENTRIES)?;
        Ok(Entries { list })
    }

    // How many there are.
    pub fn len(&self) -> usize
        ensures count { result ≡ length self.now }
        ensures few { length self.now ≤ 512 }
    {
        self.list.len()
    }

    // The number of the next entry, if there is room for it.
    fn next_number(&self) -> Result<u16, Refusal>
        ensures { result ≡ cond (nat_lt (length self.now) 512) (Ok (length self.now)) (Err EntriesFull) }
    {
        let e = self.len();
        if e >= MAX_ENTRIES {
            return Err(Refusal::EntriesFull);
        }
        Ok(e as u16)
    }

    pub fn give(&mut self, p: u16) -> Result<u16, Refusal>
        ensures answer { result ≡ (give self.old p).answer }
        ensures after { self.new ≡ (give self.old p).after }
    {
        let e = self.next_number()?;
        let mut support = [false; 512];
        support[usize::from(e)] = true;
        self.list.push_reserved(Entry {
            origin: Origin::Given,
            predicate: p,
            state: State::Standing,
            count: 0,
            citations: [0; 16],
            support,
        });
        Ok(e)
    }

    // A conclusion from the citations, whose predicates have to be the hypotheses, once its derivation has passed with this root.
    pub fn conclude(
        &mut self,
        goal: u16,
        hypotheses: &[u16],
        citations: &[u16],
    ) -> Result<u16, Refusal>
        ensures answer { result ≡ (conclude self.old goal hypotheses.now citations.now).answer }
        ensures after { self.new ≡ (conclude self.old goal hypotheses.now citations.now).after }
    {
        if citations.len() > MAX_CITATIONS {
            return Err(DerivationRefusal::SIZE.into());
        }
        let cited = Cited::new(&self.list, citations)?;
        if let Some(place) = cited.first_not_standing() {
            return Err(Refusal::CitationNotStanding(place));
        }
        if let Some(place) = cited.first_held() {
            return Err(Refusal::CitationHeld(place));
        }
        if !cited.is_same_set(hypotheses) {
            return Err(Refusal::HypothesesDiffer);
        }
        let e = self.next_number()?;
        let conclusion = cited.conclusion(goal);
        self.list.push_reserved(conclusion);
        Ok(e)
    }

    pub fn hold(&mut self, e: u16) -> Result<(), Refusal>
        ensures answer { result ≡ (hold self.old e).answer }
        ensures after { self.new ≡ (hold self.old e).after }
    {
        let x = self
            .list
            .get_mut(usize::from(e))
            .ok_or(Refusal::UnknownEntry)?;
        if !x.origin.is_given() {
            return Err(Refusal::NotAGivenRule);
        }
        if !x.state.is_standing() {
            return Err(Refusal::NotStanding);
        }
        x.undergo(Event::Hold);
        Ok(())
    }

    // The place of the held rule e.
    fn held(&self, e: u16) -> Result<usize, Refusal>
        ensures { result ≡ cond (holds_entry self.now e) (Ok e) (Err NotHeld) }
    {
        let r = usize::from(e);
        match self.list.get(r) {
            Some(x) if x.state.is_held() => Ok(r),
            _ => Err(Refusal::NotHeld),
        }
    }

    pub fn lift(&mut self, e: u16) -> Result<(), Refusal>
        ensures answer { result ≡ (lift self.old e).answer }
        ensures after { self.new ≡ (lift self.old e).after }
    {
        let r = self.held(e)?;
        self.list[r].undergo(Event::Lift);
        Ok(())
    }

    // How many standing conclusions fall with the rule r. A loop, as `filter` and `count` take a quarter more time or more.
    fn count_falling(&self, r: usize) -> u16
        ensures { result ≡ count_by (falls_with r) self.now }
    {
        let mut n: u16 = 0;
        for x in self.list.iter() {
            if x.falls_with(r) {
                n += 1;
            }
        }
        n
    }

    // How many standing conclusions fall with the rule r, and the lowest of them, or 0: the answer is a pair of numbers, which is printed.
    fn falling(&self, r: usize) -> (u16, u16)
        ensures { result ≡ falling self.now r }
    {
        let lowest = self.list.iter().position(|x| x.falls_with(r)).unwrap_or(0);
        (self.count_falling(r), lowest as u16)
    }

    // How many standing conclusions fall when the rule e is withdrawn, and the lowest of them, or 0.
    pub fn preview(&self, e: u16) -> Result<(u16, u16), Refusal>
        ensures { result ≡ preview self.now e }
    {
        let r = self.held(e)?;
        Ok(self.falling(r))
    }

    pub fn withdraw(&mut self, e: u16) -> Result<(u16, u16), Refusal>
        ensures answer { result ≡ (withdraw self.old e).answer }
        ensures after { self.new ≡ (withdraw self.old e).after }
    {
        let r = self.held(e)?;
        let fell = self.falling(r);
        self.list[r].undergo(Event::Withdraw);
        self.lose(r);
        Ok(fell)
    }

    // Every entry loses the rule r.
    fn lose(&mut self, r: usize)
        ensures { self.new ≡ map (lose r) self.old }
    {
        for x in self.list.iter_mut() {
            x.lose(r);
        }
    }

    pub fn ask(&self, e: u16) -> Result<EntryFacts, Refusal>
        ensures { result ≡ ask self.now e }
    {
        let x = self.list.get(usize::from(e)).ok_or(Refusal::UnknownEntry)?;
        Ok(EntryFacts::from(x))
    }

    // The lowest entry that stands with the predicate p.
    pub fn first_standing(&self, p: u16) -> Option<u16>
        ensures { result ≡ position (stands_with p) self.now }
    {
        self.list
            .iter()
            .position(|x| x.stands_with(p))
            .map(|e| e as u16)
    }
}
