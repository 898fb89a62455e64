ghost use Rattle.std.specs.Prelude.{◌≡◌, true, IfOk};
ghost use Rattle.book.specs.Books.{new_book, WellFormedBook};
ghost use Rattle.book.specs.Law.{KeepsTheLaw};

use crate::store::Book;
use calculus::theory::Theory;
use entries::calls::MAX_ENTRIES;
use entries::store::Entries;
use std::alloc::{AllocError, Global};
use vocabulary::store::Vocabulary;

impl Book {
    // A new book for use with a theory, with all the memory that it will ever need. Every run of calls on it keeps the law.
    pub fn begin<T: Theory>(alloc: Global, number: u32, theory: &T) -> Result<Book, AllocError>
        ensures new { IfOk result (λ b. b ≡ new_book number) }
        ensures law { KeepsTheLaw (T.meaning theory.now) }
    {
        let vocabulary = Vocabulary::new(alloc)?;
        let entries = Entries::new(alloc)?;
        Ok(Book {
            number,
            vocabulary,
            entries,
        })
    }
    // Every book is well formed and within its limits, so the answer is always yes; the other clause is what a caller gets.
    pub fn is_well_formed(&self) -> bool
        ensures answer { result ≡ true }
        ensures formed { WellFormedBook self.now }
    {
        let vocabulary = self.vocabulary.is_well_formed();
        let entries = self.entries.len() <= MAX_ENTRIES;
        vocabulary && entries
    }
}
