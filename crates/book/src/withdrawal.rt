// Holding a given rule, and lifting or withdrawing what is held.
ghost use Rattle.std.specs.Prelude.{◌≡◌};
ghost use Rattle.book.specs.Books.{hold, is_own, preview, lift, withdraw};
ghost use Rattle.book.specs.Runs.{holds, previews, lifts, withdraws, DoesPlainly};

use crate::hold::{Hold, Refused};
use crate::store::Book;
use states::refusal::Refusal;

impl Book {
    // Whether the hold has this book's number.
    fn owns(&self, hold: &Hold) -> bool
        ensures { result ≡ is_own self.now hold.now }
    {
        hold.book == self.number
    }

    pub fn hold(&mut self, e: u16) -> Result<Hold, Refusal>
        ensures answer { result ≡ (hold self.old e).answer }
        ensures after { self.new ≡ (hold self.old e).after }
        ensures does { DoesPlainly self.old (holds e result) self.new }
    {
        self.entries.hold(e)?;
        Ok(Hold {
            book: self.number,
            entry: e,
        })
    }

    // What a withdrawal would answer; the hold comes back as it was.
    pub fn preview(&self, hold: Hold) -> (Result<(u16, u16), Refusal>, Hold)
        ensures answer { result.0 ≡ preview self.now hold }
        ensures back { result.1 ≡ hold }
        ensures does { DoesPlainly self.now (previews hold result.0) self.now }
    {
        if !self.owns(&hold) {
            return (Err(Refusal::NotHeld), hold);
        }
        (self.entries.preview(hold.entry), hold)
    }

    // Lifting and withdrawing differ in the call on the entries. A closure for it would need its effect on them in a contract longer
    // than the two bodies.
    pub fn lift(&mut self, hold: Hold) -> Result<(), Refused>
        ensures answer { result ≡ (lift self.old hold).answer }
        ensures after { self.new ≡ (lift self.old hold).after }
        ensures does { DoesPlainly self.old (lifts hold result) self.new }
    {
        if !self.owns(&hold) {
            return hold.answer(Err(Refusal::NotHeld));
        }
        let answer = self.entries.lift(hold.entry);
        hold.answer(answer)
    }

    // Answers how many standing conclusions fall, and the lowest of them, or 0.
    pub fn withdraw(&mut self, hold: Hold) -> Result<(u16, u16), Refused>
        ensures answer { result ≡ (withdraw self.old hold).answer }
        ensures after { self.new ≡ (withdraw self.old hold).after }
        ensures does { DoesPlainly self.old (withdraws hold result) self.new }
    {
        if !self.owns(&hold) {
            return hold.answer(Err(Refusal::NotHeld));
        }
        let answer = self.entries.withdraw(hold.entry);
        hold.answer(answer)
    }
}
