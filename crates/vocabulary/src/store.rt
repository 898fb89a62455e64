// The vocabulary itself, with what every call needs and keeps.
ghost use Rattle.std.specs.Prelude.{◌≤◌, vec_len, vec_capacity};
ghost use Rattle.logic.specs.Deciding.{Sure};
ghost use Rattle.vocabulary.specs.Lists.{view};
ghost use Rattle.vocabulary.specs.Stored.{Stored};

use crate::facts::Formula;
use formulas::records::TypeDef;

// No `impl Model`: it would hide from the crates above that what they are lent is well formed, which their proofs read off it.
#[derive(Drop)]
pub struct Vocabulary {
    pub(crate) types: Vec<TypeDef>,
    pub(crate) variables: Vec<u16>,
    pub(crate) set_names: Vec<u16>,
    pub(crate) formulas: Vec<Formula>,
    ghost few: { (vec_len types ≤ 64) × (vec_len variables ≤ 256) × (vec_len set_names ≤ 64) × (vec_len formulas ≤ 2048) },
    ghost room: { (64 ≤ vec_capacity types) × (256 ≤ vec_capacity variables) × (64 ≤ vec_capacity set_names) × (2048 ≤ vec_capacity formulas) },
    ghost stored: { Sure (Stored (view types.items variables.items set_names.items formulas.items) formulas.items) },
}
