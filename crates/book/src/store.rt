use entries::store::Entries;
use std::marker::Model;
use vocabulary::store::Vocabulary;

#[derive(Drop)]
pub struct Book {
    pub(crate) number: u32,
    pub(crate) vocabulary: Vocabulary,
    pub(crate) entries: Entries,
}

// A clause sees the book that the definitions speak of.
impl Model for Book {
    ghost use Rattle.vocabulary.specs.View.{model};
    ghost use Rattle.book.specs.Books as books;

    ghost Value = { books.Model };

    ghost view = { λ b. record { number = b.number; vocabulary = model b.vocabulary; entries = b.entries } };
}
