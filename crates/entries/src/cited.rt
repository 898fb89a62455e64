// What is asked of the citations of a conclusion, and the conclusion.
ghost use Rattle.std.specs.Prelude.{◌≡◌, ℕ, ◌<◌, ◌≤◌, None, Some, length, map, position, IfOk, IfErr};
ghost use Rattle.std.specs.List.{list_any};
ghost use Rattle.states.specs.declared.refusal.Refusal.TheVariants.{UnknownCitation};
ghost use Rattle.states.specs.States.{is_held};
ghost use Rattle.entries.specs.Scans.{mem, subset};
ghost use Rattle.entries.specs.Lists.{at};
ghost use Rattle.entries.specs.Concluding.{disorder, Known, does_not_stand, support_held, predicates, same_set, joined, row, padded, conclusion};

use states::entry::{Entry, Origin, State};
use states::refusal::Refusal;
use std::array;

// Entries, and at most 16 citations in order: each is of an entry.
#[derive(Clone, Copy)]
pub(crate) struct Cited<'a> {
    entries: &'a [Entry],
    citations: &'a [u16],
    ghost few: { length citations.now ≤ 16 },
    ghost known: { Known entries.now citations.now },
}

impl<'a> Cited<'a> {
    // The citations, if they are in order, or the first that is no entry or not above the one before it.
    pub(crate) fn new(entries: &'a [Entry], citations: &'a [u16]) -> Result<Cited<'a>, Refusal>
        requires { length citations.now ≤ 16 }
        ensures accepted { IfOk result (λ c. (c.entries.now ≡ entries.now) × (c.citations.now ≡ citations.now) × (disorder (length entries.now) 0 0 citations.now ≡ None)) }
        ensures refused { IfErr result (λ why. (place : ℕ) × (why ≡ UnknownCitation place) × (disorder (length entries.now) 0 0 citations.now ≡ Some place)) }
    {
        // Each citation is compared with the one before it and with the count at once; a chain would need both in its state.
        let mut low = 0;
        for (place, c) in citations.iter().enumerate() {
            let c = usize::from(*c);
            if c < low || c >= entries.len() {
                return Err(Refusal::UnknownCitation(place as u16));
            }
            low = c + 1;
        }
        Ok(Cited { entries, citations })
    }

    fn entry(&self, c: u16) -> &Entry
        requires { c < length self.now.entries.now }
        ensures { result.now ≡ at self.now.entries.now c }
    {
        &self.entries[usize::from(c)]
    }

    // The first citation that does not stand. This and `first_held` are one chain each: a helper would take the test as a closure and
    // say of it in its contract what the two say plainly.
    pub(crate) fn first_not_standing(&self) -> Option<u16>
        ensures { result ≡ position (does_not_stand self.now.entries.now) self.now.citations.now }
    {
        self.citations
            .iter()
            .position(|c| !self.entry(*c).state.stands())
            .map(|place| place as u16)
    }

    // Whether a held rule is in the support of the entry c.
    fn is_support_held(&self, c: u16) -> bool
        requires { c < length self.now.entries.now }
        ensures { result ≡ support_held self.now.entries.now c }
    {
        let x = self.entry(c);
        self.entries
            .iter()
            .enumerate()
            .any(|(r, rule)| x.rests_on(r) && rule.state.is_held())
    }

    // Whether any entry is held: where none is, one pass over the entries is enough, in place of one for each citation.
    fn has_held(&self) -> bool
        ensures { result ≡ list_any (λ x. is_held x.state) self.now.entries.now }
    {
        self.entries.iter().any(|x| x.state.is_held())
    }

    // The first citation with a held rule in its support.
    pub(crate) fn first_held(&self) -> Option<u16>
        ensures { result ≡ position (support_held self.now.entries.now) self.now.citations.now }
    {
        if !self.has_held() {
            return None;
        }
        self.citations
            .iter()
            .position(|c| self.is_support_held(*c))
            .map(|place| place as u16)
    }

    // Whether an entry with the predicate p is cited.
    fn has_predicate(&self, p: u16) -> bool
        ensures { result ≡ mem p (predicates self.now.entries.now self.now.citations.now) }
    {
        self.citations
            .iter()
            .map(|c| self.entry(*c).predicate)
            .any(|q| q == p)
    }

    // Whether the predicate of each citation is among the hypotheses.
    fn are_assumed(&self, hypotheses: &[u16]) -> bool
        ensures { result ≡ subset (predicates self.now.entries.now self.now.citations.now) hypotheses.now }
    {
        self.citations
            .iter()
            .map(|c| self.entry(*c).predicate)
            .all(|p| hypotheses.contains(&p))
    }

    // Whether each hypothesis is the predicate of a citation.
    fn are_cited(&self, hypotheses: &[u16]) -> bool
        ensures { result ≡ subset hypotheses.now (predicates self.now.entries.now self.now.citations.now) }
    {
        hypotheses.iter().all(|p| self.has_predicate(*p))
    }

    // Whether the predicates cited are the hypotheses, as sets.
    pub(crate) fn is_same_set(&self, hypotheses: &[u16]) -> bool
        ensures { result ≡ same_set (predicates self.now.entries.now self.now.citations.now) hypotheses.now }
    {
        self.are_assumed(hypotheses) && self.are_cited(hypotheses)
    }

    // Whether the rule r is in the support of an entry cited.
    fn rests_on(&self, r: usize) -> bool
        ensures { result ≡ joined self.now.entries.now self.now.citations.now r }
    {
        self.citations.iter().any(|c| self.entry(*c).rests_on(r))
    }

    // The joined supports of the entries cited.
    fn support(&self) -> [bool; 512]
        ensures { result ≡ row (joined self.now.entries.now self.now.citations.now) }
    {
        array::from_fn(|r| self.rests_on(r))
    }

    // The citations, with 0 in the places left.
    fn padded(&self) -> [u16; 16]
        ensures { result ≡ padded self.now.citations.now }
    {
        let mut list = [0; 16];
        list[..self.citations.len()].copy_from_slice(self.citations);
        list
    }

    pub(crate) fn conclusion(&self, goal: u16) -> Entry
        ensures { result ≡ conclusion self.now.entries.now self.now.citations.now goal }
    {
        Entry {
            origin: Origin::Concluded,
            predicate: goal,
            state: State::Standing,
            count: self.citations.len() as u16,
            citations: self.padded(),
            support: self.support(),
        }
    }
}
