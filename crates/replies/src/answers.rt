// What the current book is asked, and how its answers read.
ghost use Rattle.std.specs.Prelude.{◌≡◌};
ghost use Rattle.replies.specs.Books.{entered, found, said, told_or_refused, Answers, after, Verdict};

use crate::reply::{Reply, Thing};
use book::Book;
use calculus::Step;
use commands::command::Call;
use formulas::calls::Call as Entering;
use formulas::refusals::Notice;
use rules::standard::standard_theory;
use states::refusal::Refusal;

// Makes a call on a book: what it gave, or why it was refused.
fn ask(book: &mut Book, call: Call) -> Result<Reply, Notice>
    ensures answer { Answers book.old call (told_or_refused result) }
    ensures after { book.new ≡ after book.old call }
{
    let reply = match call {
        Call::Carrier => Reply::Numbered(Thing::Type, book.enter(Entering::NewCarrier)?),
        Call::Product(s, t) => {
            Reply::Numbered(Thing::Type, book.enter(Entering::NewProduct(s, t))?)
        }
        Call::Variable(t) => {
            Reply::Numbered(Thing::Variable, book.enter(Entering::NewVariable(t))?)
        }
        Call::Set(t) => Reply::Numbered(Thing::Set, book.enter(Entering::NewSetName(t))?),
        Call::Formula(kind, a, b) => {
            let n = book.enter(Entering::EnterFormula(kind, a, b))?;
            Reply::Numbered(Thing::Formula, n)
        }
        Call::Free(x, n) => said(book.is_free(x, n)),
        Call::Substitution(q, p, x, e) => said(book.is_substitution(q, p, x, e)),
        Call::Give(p) => Reply::Numbered(Thing::Entry, book.give(p)?),
        Call::Entry(e) => Reply::Entry(book.ask_entry(e)?),
        Call::Predicate(p) => found(book.ask_predicate(p)?),
    };
    Ok(reply)
}

// Makes a call on a book, and answers what it gave.
pub fn answer(book: &mut Book, call: Call) -> Reply
    ensures answer { Answers book.old call result }
    ensures after { book.new ≡ after book.old call }
{
    ask(book, call).unwrap_or_else(Reply::Refused)
}

// Judges a derivation in the book's vocabulary, by the three built theories joined. A match here and below, as `map_or_else` would tell
// the refusal first.
pub fn judge(book: &Book, steps: &[Step], hypotheses: &[u16]) -> Reply
    ensures { Verdict book.now steps.now hypotheses.now result }
{
    match book.check(&standard_theory(), steps, hypotheses) {
        Ok(_) => Reply::Right,
        Err(refusal) => Reply::Refused(refusal.into()),
    }
}

// A rule or a conclusion has a number, or was refused.
pub fn entered(answer: Result<u16, Refusal>) -> Reply
    ensures { result ≡ entered answer }
{
    match answer {
        Ok(e) => Reply::Numbered(Thing::Entry, e),
        Err(refusal) => Reply::Refused(refusal.into()),
    }
}

// The first entry with a predicate.
fn found(entry: Option<u16>) -> Reply
    ensures { result ≡ found entry }
{
    entry.map_or(Reply::NoEntry, |e| Reply::Numbered(Thing::Entry, e))
}

fn said(answer: bool) -> Reply
    ensures { result ≡ said answer }
{
    if answer { Reply::Yes } else { Reply::No }
}
