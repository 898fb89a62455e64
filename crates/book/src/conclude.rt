// Concluding by a derivation in a theory.
ghost use Rattle.std.specs.Prelude.{◌≡◌, Result};
ghost use Rattle.logic.specs.Meanings.{Sequent as Seq};
ghost use Rattle.book.specs.Concluding.{Judges, conclude, verdict_of};
ghost use Rattle.book.specs.Runs.{concludes, Comes, Does};

use crate::store::Book;
use calculus::check;
use calculus::refusal::Refusal as DerivationRefusal;
use calculus::sequent::Sequent;
use calculus::step::Step;
use calculus::theory::Theory;
use entries::calls::MAX_CITATIONS;
use states::refusal::Refusal;

impl Book {
    // The checker's verdict; over 16 citations are a fault of the sizes. (The entries test it again, as they are called by others too.)
    fn judge<T: Theory>(
        &self,
        theory: &T,
        steps: &[Step],
        hypotheses: &[u16],
        citations: &[u16],
    ) -> Result<Sequent, DerivationRefusal>
        ensures { Judges (T.meaning theory.now) self.now.vocabulary steps.now hypotheses.now citations.now (verdict_of result) }
    {
        if citations.len() > MAX_CITATIONS {
            return Err(DerivationRefusal::SIZE);
        }
        check(theory, &self.vocabulary, steps, hypotheses)
    }

    // A conclusion from the citations, by the verdict on its derivation.
    fn conclude_by(
        &mut self,
        verdict: Result<Sequent, DerivationRefusal>,
        citations: &[u16],
    ) -> Result<u16, Refusal>
        ensures answer { result ≡ (conclude self.old (verdict_of verdict) citations.now).answer }
        ensures after { self.new ≡ (conclude self.old (verdict_of verdict) citations.now).after }
    {
        let root = verdict?;
        self.entries
            .conclude(root.goal(), root.hypotheses(), citations)
    }

    // A conclusion from the citations, by a derivation in the theory.
    pub fn conclude<T: Theory>(
        &mut self,
        theory: &T,
        steps: &[Step],
        hypotheses: &[u16],
        citations: &[u16],
    ) -> Result<u16, Refusal>
        ensures exact { (verdict : Result Seq DerivationRefusal) → Judges (T.meaning theory.now) self.old.vocabulary steps.now hypotheses.now citations.now verdict → Comes (conclude self.old verdict citations.now) result self.new }
        ensures does { Does (T.meaning theory.now) self.old (concludes steps.now hypotheses.now citations.now result) self.new }
    {
        let verdict = self.judge(theory, steps, hypotheses, citations);
        self.conclude_by(verdict, citations)
    }
}
