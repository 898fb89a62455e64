// Whether numbers are those of predicates.
ghost use Rattle.std.specs.Prelude.{Decides};
ghost use Rattle.std.specs.List.{AllByRecursion};
ghost use Rattle.logic.specs.Formulas.{Predicate};
ghost use Rattle.vocabulary.specs.View.{model};

use vocabulary::store::Vocabulary;

pub(crate) fn all_predicates(v: &Vocabulary, list: &[u16]) -> bool
    ensures { Decides result (AllByRecursion (Predicate (model v.now)) list.now) }
{
    list.iter().all(|p| v.is_predicate(*p))
}
