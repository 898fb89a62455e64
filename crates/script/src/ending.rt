// How a hold that is still in hand is closed.
ghost use Rattle.std.specs.Prelude.{◌≡◌, vec_len};
ghost use Rattle.script.specs.Closing.{GrantedBy, closed_reply, closed_books};

use book::{Book, Refused};
use replies::hand::Held;
use replies::reply::Reply;

// Ends the hold with this number, if it is still in hand: lifted on the book that granted it, or else discarded.
pub(crate) fn close(held: Option<Held>, books: &mut Vec<Book>, h: usize) -> Option<Reply>
    requires { GrantedBy (vec_len books.old) held }
    ensures answer { result ≡ closed_reply h books.old.items held }
    ensures after { books.new.items ≡ closed_books books.old.items held }
    ensures len { vec_len books.new ≡ vec_len books.old }
{
    let Held { hold, granted_by } = held?;
    match books[granted_by].lift(hold) {
        Ok(()) => Some(Reply::LiftedAtClose(h)),
        Err(Refused { refusal: _, hold }) => {
            hold.discard();
            Some(Reply::DiscardedAtClose(h))
        }
    }
}
