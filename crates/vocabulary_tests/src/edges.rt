// What passes and what is refused at each limit, and numbers that name nothing.
use formulas::refusals::Refusal;
use questions::reading::{depth_of, weight_of};
use questions::substitution::{is_free, is_substitution};
use std::process::Abort;
use std::test::Fail;
use vocabulary::store::Vocabulary;

#[test]
fn names(rt: HostRuntime) -> Result<(), Fail> {
    let mut v = Vocabulary::new(rt.alloc())?;
    assert_eq!(rt; v.new_variable(0), Err(Refusal::UnknownType));
    for n in 0..63u16 {
        assert_eq!(rt; v.new_carrier()?, n);
    }
    assert_eq!(rt; v.product(0, 62)?, 63);
    assert_eq!(rt; v.new_carrier(), Err(Refusal::TypesFull));
    assert_eq!(rt; v.product(0, 1), Err(Refusal::TypesFull));
    assert_eq!(rt; v.product(0, 62)?, 63);
    for n in 0..256u16 {
        assert_eq!(rt; v.new_variable(63)?, n);
    }
    assert_eq!(rt; v.new_variable(64), Err(Refusal::UnknownType));
    assert_eq!(rt; v.new_variable(0), Err(Refusal::VariablesFull));
    for n in 0..64u16 {
        assert_eq!(rt; v.new_set_name(63)?, n);
    }
    assert_eq!(rt; v.new_set_name(0), Err(Refusal::SetNamesFull));
    Ok(())
}

// 256 variables as formulas, and then each as a member of seven sets: 2,048 formulas.
fn fill(rt: &impl Abort, v: &mut Vocabulary) -> Result<(), Fail> {
    for x in 0..256u16 {
        v.new_variable(0)?;
        assert_eq!(rt; v.enter_formula(0, x, 0)?, x);
    }
    for n in 256..2048u16 {
        assert_eq!(rt; v.enter_formula(12, n % 256, n / 256 - 1)?, n);
    }
    Ok(())
}

#[test]
fn formulas(rt: HostRuntime) -> Result<(), Fail> {
    let mut v = Vocabulary::new(rt.alloc())?;
    v.new_carrier()?;
    for _ in 0..8u16 {
        v.new_set_name(0)?;
    }
    fill(&rt, &mut v)?;
    assert_eq!(rt; v.enter_formula(12, 0, 7), Err(Refusal::FormulasFull));
    assert_eq!(rt; v.enter_formula(12, 255, 6)?, 2047);
    assert_eq!(rt; v.enter_formula(12, 0, 8), Err(Refusal::WrongOperand));
    Ok(())
}

#[test]
fn weight_and_depth(rt: HostRuntime) -> Result<(), Fail> {
    let mut v = Vocabulary::new(rt.alloc())?;
    let mut f = v.enter_formula(3, 0, 0)?;
    for _ in 0..11u16 {
        f = v.enter_formula(5, f, f)?;
    }
    assert_eq!(rt; weight_of(&v, f), Some(4095));
    assert_eq!(rt; v.enter_formula(4, f, 0), Err(Refusal::TooLarge));
    let mut g = v.enter_formula(2, 0, 0)?;
    for _ in 0..63u16 {
        g = v.enter_formula(4, g, 0)?;
    }
    assert_eq!(rt; depth_of(&v, g), Some(64));
    assert_eq!(rt; v.enter_formula(4, g, 0), Err(Refusal::TooLarge));
    Ok(())
}

// Numbers that name nothing, each as one operand of a record.
const UNKNOWN: [(u16, u16, u16); 6] = [
    (0, 65535, 0),
    (0, 0, 65535),
    (2, 0, 65535),
    (11, 0, 65535),
    (11, 65535, 0),
    (12, 0, 65535),
];

#[test]
fn numbers_that_name_nothing(rt: HostRuntime) -> Result<(), Fail> {
    let mut v = Vocabulary::new(rt.alloc())?;
    v.new_carrier()?;
    v.new_variable(0)?;
    v.enter_formula(0, 0, 0)?;
    assert_eq!(rt; v.product(0, 65535), Err(Refusal::UnknownType));
    assert_eq!(rt; v.new_set_name(65535), Err(Refusal::UnknownType));
    for (kind, a, b) in UNKNOWN {
        assert_eq!(rt; v.enter_formula(kind, a, b), Err(Refusal::WrongOperand));
    }
    assert!(rt; !is_free(&v, 65535, 0) & !is_free(&v, 0, 65535));
    assert!(rt; is_substitution(&v, 0, 0, 0, 0) & !is_substitution(&v, 65535, 65535, 0, 0));
    assert!(rt; !is_substitution(&v, 0, 0, 65535, 0) & !is_substitution(&v, 0, 0, 0, 65535));
    Ok(())
}
