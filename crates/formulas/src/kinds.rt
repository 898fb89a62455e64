// The kinds of formula, and what the operands of each are.
ghost use Rattle.std.specs.Prelude.{◌≡◌};
ghost use Rattle.formulas.specs.Kinds.{kind_numbered, first_role, second_role, is_formula, kind_number, is_expression_kind};
ghost use Rattle.formulas.specs.Refusals.{kind_or_refusal};

use crate::refusals::Refusal;

// What an operand of a formula is.
#[derive(Clone, Copy, PartialEq, Eq, Debug)]
pub enum Role {
    Nothing,
    AVariable,
    Expression,
    Predicate,
    ASetName,
}

#[derive(Clone, Copy, PartialEq, Eq, Debug)]
pub enum Kind {
    Variable,
    Pair,
    False,
    True,
    Not,
    And,
    Or,
    Implies,
    Iff,
    ForAll,
    Exists,
    Equal,
    Member,
}

impl Role {
    pub fn is_formula(self) -> bool
        ensures { result ≡ is_formula self }
    {
        matches!(self, Role::Expression | Role::Predicate)
    }
}

// The kind that has a number.
impl TryFrom<u16> for Kind {
    type Error = Refusal;

    ghost try_from_gives = { λ n kind. kind ≡ kind_or_refusal n };

    fn try_from(n: u16) -> Result<Kind, Refusal> {
        match n {
            0 => Ok(Kind::Variable),
            1 => Ok(Kind::Pair),
            2 => Ok(Kind::False),
            3 => Ok(Kind::True),
            4 => Ok(Kind::Not),
            5 => Ok(Kind::And),
            6 => Ok(Kind::Or),
            7 => Ok(Kind::Implies),
            8 => Ok(Kind::Iff),
            9 => Ok(Kind::ForAll),
            10 => Ok(Kind::Exists),
            11 => Ok(Kind::Equal),
            12 => Ok(Kind::Member),
            _ => Err(Refusal::UnknownKind),
        }
    }
}

// The number of a kind, for callers who print or store one.
impl From<Kind> for u16 {
    ghost from_gives = { λ kind n. n ≡ kind_number kind };

    fn from(kind: Kind) -> u16 {
        kind as u16
    }
}

impl Kind {
    pub fn first_role(self) -> Role
        ensures { result ≡ first_role self }
    {
        match self {
            Kind::Variable | Kind::ForAll | Kind::Exists => Role::AVariable,
            Kind::Pair | Kind::Equal | Kind::Member => Role::Expression,
            Kind::False | Kind::True => Role::Nothing,
            Kind::Not | Kind::And | Kind::Or | Kind::Implies | Kind::Iff => Role::Predicate,
        }
    }

    pub fn second_role(self) -> Role
        ensures { result ≡ second_role self }
    {
        match self {
            Kind::Variable | Kind::False | Kind::True | Kind::Not => Role::Nothing,
            Kind::Pair | Kind::Equal => Role::Expression,
            Kind::And | Kind::Or | Kind::Implies | Kind::Iff | Kind::ForAll | Kind::Exists => {
                Role::Predicate
            }
            Kind::Member => Role::ASetName,
        }
    }

    pub fn is_expression(self) -> bool
        ensures { result ≡ is_expression_kind self }
    {
        matches!(self, Kind::Variable | Kind::Pair)
    }
}
