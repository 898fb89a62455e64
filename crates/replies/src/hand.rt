// A hold in hand.
ghost use Rattle.std.specs.Prelude.{◌≡◌, Some, None};
ghost use Rattle.states.specs.Refusals.{notice};
ghost use Rattle.book.specs.Holds.{hold_again};
ghost use Rattle.replies.specs.Hands.{foretold, held, undergo};
ghost use Rattle.commands.specs.declared.command.HoldCall.TheVariants.{Preview, Lift, Withdraw};

use crate::reply::Reply;
use book::{Book, Hold, Refused};
use commands::command::HoldCall;
use states::refusal::Refusal;
use std::mem;

// A hold, with the place of the book that granted it: two books may have one number.
pub struct Held {
    pub hold: Hold,
    pub granted_by: usize,
}

// A hold whose end was refused stays in hand.
fn keep(refused: Refused, granted_by: usize) -> (Reply, Option<Held>)
    ensures answer { result.0 ≡ Reply.Refused (notice refused.refusal) }
    ensures hand { result.1 ≡ Some (held (hold_again refused.hold) granted_by) }
{
    let Refused { refusal, hold } = refused;
    let hold = hold.into_hold();
    let hand = Some(Held { hold, granted_by });
    (Reply::Refused(refusal.into()), hand)
}

// A match, as `map_or_else` would tell the refusal first.
fn foretold(answer: Result<(u16, u16), Refusal>) -> Reply
    ensures { result ≡ foretold answer }
{
    match answer {
        Ok((count, lowest)) => Reply::Falls(count, lowest),
        Err(refusal) => Reply::Refused(refusal.into()),
    }
}

// Each answers what a call does with the hold, and what is then in hand.
impl Held {
    // What a withdrawal would answer.
    fn preview(self, book: &Book) -> (Reply, Option<Held>)
        ensures answer { result.0 ≡ (undergo Preview book.now (Some self)).reply }
        ensures hand { result.1 ≡ (undergo Preview book.now (Some self)).hand }
    {
        let Held { hold, granted_by } = self;
        let (answer, hold) = book.preview(hold);
        (foretold(answer), Some(Held { hold, granted_by }))
    }

    // Lifts a hold. This and `withdraw` differ in the call and in what it is told as; a closure for both would say less.
    fn lift(self, book: &mut Book) -> (Reply, Option<Held>)
        ensures answer { result.0 ≡ (undergo Lift book.old (Some self)).reply }
        ensures hand { result.1 ≡ (undergo Lift book.old (Some self)).hand }
        ensures book { book.new ≡ (undergo Lift book.old (Some self)).book }
    {
        let Held { hold, granted_by } = self;
        match book.lift(hold) {
            Ok(()) => (Reply::Lifted, None),
            Err(refused) => keep(refused, granted_by),
        }
    }

    // Withdraws the rule that is held.
    fn withdraw(self, book: &mut Book) -> (Reply, Option<Held>)
        ensures answer { result.0 ≡ (undergo Withdraw book.old (Some self)).reply }
        ensures hand { result.1 ≡ (undergo Withdraw book.old (Some self)).hand }
        ensures book { book.new ≡ (undergo Withdraw book.old (Some self)).book }
    {
        let Held { hold, granted_by } = self;
        match book.withdraw(hold) {
            Ok((count, lowest)) => (Reply::Fell(count, lowest), None),
            Err(refused) => keep(refused, granted_by),
        }
    }

    fn undergo(self, call: HoldCall, book: &mut Book) -> (Reply, Option<Held>)
        ensures answer { result.0 ≡ (undergo call book.old (Some self)).reply }
        ensures hand { result.1 ≡ (undergo call book.old (Some self)).hand }
        ensures book { book.new ≡ (undergo call book.old (Some self)).book }
    {
        // A call is data, which a script writes.
        match call {
            HoldCall::Preview => self.preview(book),
            HoldCall::Lift => self.lift(book),
            HoldCall::Withdraw => self.withdraw(book),
        }
    }
}

// Puts what is in hand into a place that nothing is in. A hold is not let go, so the place is not written over.
fn put(place: &mut Option<Held>, hand: Option<Held>)
    requires { place.old ≡ None }
    ensures { place.new ≡ hand }
{
    match mem::replace(place, hand) {
        None => (),
        Some(_) => unreachable(),
    }
}

// What a call does with the hold in this place, if there is one, on a book.
pub fn undergo(place: &mut Option<Held>, call: HoldCall, book: &mut Book) -> Reply
    ensures answer { result ≡ (undergo call book.old place.old).reply }
    ensures hand { place.new ≡ (undergo call book.old place.old).hand }
    ensures book { book.new ≡ (undergo call book.old place.old).book }
{
    let Some(held) = place.take() else {
        return Reply::NoSuchHold;
    };
    let (reply, hand) = held.undergo(call, book);
    put(place, hand);
    reply
}
