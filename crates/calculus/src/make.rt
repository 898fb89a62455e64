ghost use Rattle.std.specs.Prelude.{◌≡◌, ℕ, ◌+◌, ◌<◌, ◌≤◌, length, Decides, MatchOption};
ghost use Rattle.calculus.specs.Rising.{Rising};
ghost use Rattle.calculus.specs.Model.{seq};
ghost use Rattle.logic.specs.Meanings.{Sequent as Seq};

use crate::sequent::Sequent;

pub fn rises(list: &[u16]) -> bool
    ensures { Decides result (Rising list.now) }
{
    list.is_sorted_by(|a, b| a < b)
}

impl Sequent {
    // The sequent with these hypotheses: none where they are over 16 or do not rise.
    pub fn new(goal: u16, list: &[u16]) -> Option<Sequent>
        ensures { MatchOption result ((length list.now ≤ 16) × Rising list.now → ⊥) (λ s. (length list.now ≤ 16) × Rising list.now × (seq s ≡ record { goal = goal; hypotheses = list.now })) }
    {
        if list.len() > 16 || !rises(list) {
            return None;
        }
        let count = list.len();
        let mut hypotheses = [0; 16];
        hypotheses[..count].copy_from_slice(list);
        Some(Sequent {
            goal,
            hypotheses,
            count,
        })
    }

    pub fn goal(&self) -> u16
        ensures { result ≡ (seq self.now).goal }
    {
        self.goal
    }

    pub fn hypotheses(&self) -> &[u16]
        ensures { result.now ≡ (seq self.now).hypotheses }
    {
        &self.hypotheses[..self.count]
    }
}
