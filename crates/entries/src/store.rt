ghost use Rattle.std.specs.Prelude.{◌≤◌, List, vec_len, vec_capacity};
ghost use Rattle.states.specs.declared.entry.Entry.{Entry};

use states::entry::Entry;
use std::marker::Model;

// The entries of a book, in the order of their numbers: at most 512, for which all memory is reserved.
#[derive(Drop)]
pub struct Entries {
    pub(crate) list: Vec<Entry>,
}

// A clause sees them as a list.
impl Model for Entries {
    ghost Value = { List Entry };

    ghost view = { λ e. e.list.items };

    ghost invariant = { λ e. (vec_len e.list ≤ 512) × (512 ≤ vec_capacity e.list) };
}
