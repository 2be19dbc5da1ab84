//! The calls of the lists of an image, one after the other.
use profile_image::{
    Actual, Actuals, ExprNo, ImageList, SelectAlternative, SelectAlternatives, SelectKind,
};

#[test]
fn lists_take_what_is_pushed(rt: HostRuntime) {
    let alloc = rt.alloc();
    let mut sequence = ImageList::new(alloc);
    let mut actuals = Actuals::new(alloc);
    let mut alternatives = SelectAlternatives::new(alloc);
    for number in 0..6 {
        sequence.push(number).expect(&rt, "memory");
        actuals
            .push(Actual::In(ExprNo(number)))
            .expect(&rt, "memory");
        alternatives
            .push(SelectAlternative {
                guard: Some(ExprNo(number)),
                kind: SelectKind::Terminate,
            })
            .expect(&rt, "memory");
    }
    assert!(rt; sequence.as_slice().last() == Some(&5));
    assert!(rt; matches!(actuals.as_slice().last(), Some(Actual::In(ExprNo(5)))));
    assert!(rt; alternatives.as_slice().len() == 6);
}
