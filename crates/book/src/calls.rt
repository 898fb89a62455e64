// The calls on the vocabulary, checking a derivation, giving, and the two asks.
ghost use Rattle.std.specs.Prelude.{◌≡◌, false, T, ◌↔◌, is_ok, IfOk, Err, Decides};
ghost use Rattle.calculus.specs.Derivations.{FirstFault, RightDerivation, root};
ghost use Rattle.calculus.specs.Model.{seq};
ghost use Rattle.logic.specs.Formulas.{free, IsSubstitution};
ghost use Rattle.logic.specs.Meanings.{Independent, MeansWith, Valid};
ghost use Rattle.book.specs.Books.{enter, give, ask_entry, ask_predicate};
ghost use Rattle.book.specs.Runs.{enters, gives, asks_entry, asks_predicate, DoesPlainly};

use crate::store::Book;
use calculus::check;
use calculus::refusal::Refusal as DerivationRefusal;
use calculus::sequent::Sequent;
use calculus::step::Step;
use calculus::theory::Theory;
use formulas::calls::Call;
use questions::substitution::{is_free, is_substitution};
use states::entry::EntryFacts;
use states::refusal::Refusal;

impl Book {
    // The number that the book was begun with.
    pub fn number(&self) -> u32
        ensures { result ≡ self.now.number }
    {
        self.number
    }

    // Judges a derivation in the book's vocabulary, without concluding: the root's sequent, or the first fault. The steps and the list are
    // lent as callers have them, here and in `conclude`, and in no struct that callers would have to make.
    pub fn check<T: Theory>(
        &self,
        theory: &T,
        steps: &[Step],
        hypotheses: &[u16],
    ) -> Result<Sequent, DerivationRefusal>
        ensures accepted { Decides (is_ok result) (RightDerivation (T.meaning theory.now) self.now.vocabulary steps.now hypotheses.now) }
        ensures refused { (e : DerivationRefusal) → (result ≡ Err e) ↔ FirstFault e (T.meaning theory.now) self.now.vocabulary steps.now hypotheses.now }
        ensures root { IfOk result (λ s. seq s ≡ root steps.now hypotheses.now) }
        ensures valid { IfOk result (λ s. Valid self.now.vocabulary (seq s)) }
    {
        check(theory, &self.vocabulary, steps, hypotheses)
    }

    // A call on the book's vocabulary.
    pub fn enter(&mut self, call: Call) -> Result<u16, formulas::refusals::Refusal>
        ensures answer { result ≡ (enter self.old call).answer }
        ensures after { self.new ≡ (enter self.old call).after }
        ensures does { DoesPlainly self.old (enters call result) self.new }
    {
        self.vocabulary.enter(call)
    }

    // Whether the variable x is free in the formula n.
    pub fn is_free(&self, x: u16, n: u16) -> bool
        ensures answer { result ≡ free self.now.vocabulary x n }
        ensures law { result ≡ false → Independent self.now.vocabulary x n }
    {
        is_free(&self.vocabulary, x, n)
    }

    // Whether the formula q is p with the expression e for the variable x.
    pub fn is_substitution(&self, q: u16, p: u16, x: u16, e: u16) -> bool
        ensures answer { T result ↔ IsSubstitution self.now.vocabulary q x e p }
        ensures law { T result → MeansWith self.now.vocabulary q x e p }
    {
        is_substitution(&self.vocabulary, q, p, x, e)
    }

    pub fn give(&mut self, p: u16) -> Result<u16, Refusal>
        ensures answer { result ≡ (give self.old p).answer }
        ensures after { self.new ≡ (give self.old p).after }
        ensures does { DoesPlainly self.old (gives p result) self.new }
    {
        if !self.vocabulary.is_predicate(p) {
            return Err(Refusal::NotAPredicate);
        }
        self.entries.give(p)
    }

    pub fn ask_entry(&self, e: u16) -> Result<EntryFacts, Refusal>
        ensures answer { result ≡ ask_entry self.now e }
        ensures does { DoesPlainly self.now (asks_entry e result) self.now }
    {
        self.entries.ask(e)
    }

    // The lowest entry that stands with the predicate.
    pub fn ask_predicate(&self, p: u16) -> Result<Option<u16>, Refusal>
        ensures answer { result ≡ ask_predicate self.now p }
        ensures does { DoesPlainly self.now (asks_predicate p result) self.now }
    {
        if !self.vocabulary.is_predicate(p) {
            return Err(Refusal::NotAPredicate);
        }
        Ok(self.entries.first_standing(p))
    }
}
