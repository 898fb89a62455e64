// How many premises each rule takes.
ghost use Rattle.std.specs.Prelude.{◌≡◌};
ghost use Rattle.rules.specs.Tables.{arity};

use logic::rule::Rule;

// One constant table, in the order of the rules, which the theories read when they are asked.
const PREMISES: [u8; 25] = [
    0, // HYP
    1, // MON
    2, // CUT
    0, // FALSE_L
    2, // FALSE_R
    1, // NOT_L
    1, // NOT_R
    1, // AND_L
    2, // AND_R
    2, // OR_L
    1, // OR_R
    1, // IMP_L
    1, // IMP_R
    0, // TRUE_R
    1, // EQV_L
    2, // EQV_R
    1, // ALL_L
    1, // ALL_R
    1, // XST_L
    1, // XST_R
    0, // EQL
    1, // EQ_LR
    1, // EQ_RL
    1, // PAIR_L
    2, // PAIR_R
];

pub(crate) fn premise_count(rule: Rule) -> u8
    ensures { result ≡ arity rule }
{
    PREMISES[rule as usize]
}
