use book::Book;
use calculus::Step;
use replies::hand::Held;
use std::alloc::Global;
use std::marker::Model;

// A script as it is run: the books begun so far, the one that calls go to, the derivation that is being written,
// and the holds in hand, each granted by one of the books.
// Before the first book there is none at `current`, as `get` tells. Holds have to be ended, so a session is not let go: `end` takes
// it apart.
pub struct Session {
    pub(crate) alloc: Global,
    pub(crate) books: Vec<Book>,
    pub(crate) current: usize,
    pub(crate) steps: Vec<Step>,
    pub(crate) hypotheses: Vec<u16>,
    pub(crate) holds: Vec<Option<Held>>,
    pub(crate) lines: u64,
    pub(crate) understood: bool,
}

// A clause sees the session that the definitions speak of.
impl Model for Session {
    ghost use Rattle.std.specs.Prelude.{◌≡◌, true, vec_len};
    ghost use Rattle.script.specs.Closing.{all_granted};
    ghost use Rattle.script.specs.Sessions as sessions;

    ghost Value = { sessions.Session };

    ghost view = { λ s. record { books = s.books.items; current = s.current; steps = s.steps.items; hypotheses = s.hypotheses.items; holds = s.holds.items; lines = s.lines; understood = s.understood } };

    ghost invariant = { λ s. all_granted (vec_len s.books) s.holds.items ≡ true };
}
