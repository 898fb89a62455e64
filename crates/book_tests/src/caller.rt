// What a caller gets from the contracts of its calls: they are a run, and the book that they leave keeps the law.
ghost use Rattle.std.specs.Prelude.{IfOk};
ghost use Rattle.book_tests.specs.Runs.{LeftByARun};

use book::Book;
use calculus::Theory;
use formulas::calls::Call;
use std::alloc::{AllocError, Global};

pub fn enter_and_give<T: Theory>(
    alloc: Global,
    theory: &T,
    call: Call,
    p: u16,
) -> Result<Book, AllocError>
    ensures { IfOk result (λ b. LeftByARun (T.meaning theory.now) call p b) }
{
    let mut b = Book::begin(alloc, 7, theory)?;
    let _ = b.enter(call);
    let _ = b.give(p);
    Ok(b)
}
