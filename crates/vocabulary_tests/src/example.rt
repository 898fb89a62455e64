// The worked example, run through the calls.
use formulas::calls::Call;
use formulas::refusals::{Layer, Notice, Refusal};
use questions::reading::{depth_of, type_of, weight_of};
use questions::substitution::{is_free, is_substitution};
use std::process::Abort;
use std::test::Fail;
use vocabulary::store::Vocabulary;

// one carrier; variables m, c, d; set names senior, reduce
const NAMES: [Call; 6] = [
    Call::NewCarrier,
    Call::NewVariable(0),
    Call::NewVariable(0),
    Call::NewVariable(0),
    Call::NewSetName(0),
    Call::NewSetName(0),
];

const FORMULAS: [(u16, u16, u16); 17] = [
    (0, 1, 0),
    (12, 0, 0),
    (12, 0, 1),
    (7, 1, 2),
    (9, 1, 3),
    (0, 0, 0),
    (12, 5, 0),
    (12, 5, 1),
    (7, 6, 7),
    (9, 1, 1),
    (0, 2, 0),
    (11, 10, 0),
    (4, 11, 0),
    (10, 2, 12),
    (11, 10, 10),
    (4, 14, 0),
    (10, 2, 15),
];

fn example(rt: &(impl Abort + AllocGlobal)) -> Result<Vocabulary, Fail> {
    let mut v = Vocabulary::new(rt.alloc())?;
    for call in NAMES {
        v.enter(call)?;
    }
    for (i, (kind, a, b)) in FORMULAS.iter().enumerate() {
        assert_eq!(rt; v.enter_formula(*kind, *a, *b)? as usize, i);
    }
    Ok(v)
}

#[test]
fn questions(rt: HostRuntime) -> Result<(), Fail> {
    let mut v = example(&rt)?;
    assert_eq!(rt; v.enter_formula(7, 1, 2)?, 3);
    assert_eq!(rt; (weight_of(&v, 4), depth_of(&v, 4)), (Some(6), Some(4)));
    assert_eq!(rt; (weight_of(&v, 17), depth_of(&v, 17)), (None, None));
    assert!(rt; is_free(&v, 1, 3) & !is_free(&v, 1, 4));
    // in the second d would come under the quantifier over d
    assert!(rt; is_substitution(&v, 8, 3, 1, 5) & !is_substitution(&v, 16, 13, 1, 10));
    assert_eq!(rt; (type_of(&v, 5), type_of(&v, 6)), (Some(0), None));
    assert!(rt; v.is_predicate(6) & !v.is_predicate(5) & !v.is_predicate(17));
    assert!(rt; v.is_expression(5) & !v.is_expression(6) & !v.is_expression(17));
    Ok(())
}

// Records over the example and a variable of a second carrier, formula 17, and the first fault of each.
const REFUSED: [(u16, u16, u16, Refusal); 10] = [
    (13, 99, 99, Refusal::UnknownKind),
    (65535, 0, 0, Refusal::UnknownKind),
    (7, 1, 18, Refusal::WrongOperand),
    (7, 1, 5, Refusal::WrongOperand),
    (4, 1, 1, Refusal::WrongOperand),
    (12, 0, 2, Refusal::WrongOperand),
    (9, 4, 1, Refusal::WrongOperand),
    (1, 0, 5, Refusal::TypesDisagree),
    (11, 0, 17, Refusal::TypesDisagree),
    (12, 17, 0, Refusal::TypesDisagree),
];

#[test]
fn first_fault(rt: HostRuntime) -> Result<(), Fail> {
    let mut v = example(&rt)?;
    v.enter(Call::NewCarrier)?;
    v.enter(Call::NewVariable(1))?;
    v.enter(Call::EnterFormula(0, 3, 0))?;
    for (kind, a, b, why) in REFUSED {
        assert_eq!(rt; v.enter_formula(kind, a, b), Err(why));
    }
    // no refusal has entered anything
    assert_eq!(rt; v.enter_formula(3, 0, 0)?, 18);
    Ok(())
}

#[test]
fn products(rt: HostRuntime) -> Result<(), Fail> {
    let mut v = example(&rt)?;
    assert_eq!(rt; v.product(0, 9), Err(Refusal::UnknownType));
    assert_eq!(rt; v.enter_formula(1, 0, 5), Err(Refusal::TypesDisagree));
    assert_eq!(rt; v.product(0, 0)?, 1);
    assert_eq!(rt; v.product(0, 0)?, 1);
    assert_eq!(rt; v.product(0, 1)?, 2);
    assert_eq!(rt; v.product(1, 0)?, 3);
    assert_eq!(rt; v.enter_formula(1, 0, 5)?, 17);
    assert_eq!(rt; type_of(&v, 17), Some(1));
    Ok(())
}

#[test]
fn notices(rt: HostRuntime) {
    let notice = Notice::from(Refusal::TypesDisagree);
    assert_eq!(rt; (notice.number, notice.place), (7, 0));
    assert_eq!(rt; notice.layer, Layer::Vocabulary);
}
