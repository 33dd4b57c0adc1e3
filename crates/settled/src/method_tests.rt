// The methods and the layers, called without a bench: examples on and beside the limit, and their own refusals.
use crate::refusal::refusal;
use attributes::marks::Marks;
use attributes::tally::MarkTally;
use criteria::known::Known;
use criteria::mean::Mean;
use criteria::unknown::Unknown;
use fault::Fault;
use inspection::Inspection;
use inspection::criterion::Criterion;
use inspection::tallying::Tallying;
use method::Method;
use std::test::Fail;
use through::difference::{Difference, Pair};
use through::gauge::Gauge;
use through::negation::Negation;
use through::passing::Passing;
use variables::tally::Tally;

// Whether the readings or marks are accepted, entered one by one into a tally.
fn accepts<C: Criterion + Drop>(
    criterion: C,
    readings: &[<C::Tally as Tallying>::Reading],
) -> Result<bool, Fault> {
    let method = Inspection { criterion };
    let mut tally = method.blank();
    for r in readings {
        tally = method.enter(tally, *r)?;
    }
    Ok(method.verdict(tally).is_yes())
}

fn tally_of<T: Tallying>(readings: &[T::Reading]) -> Result<T, Fault> {
    let mut tally = T::blank();
    for r in readings {
        tally = tally.enter(*r)?;
    }
    Ok(tally)
}

fn difference(first: i32, second: i32) -> Option<i32> {
    Difference.pass(Pair { first, second })
}

#[test]
fn criteria_on_and_beside_the_limit(rt: HostRuntime) -> Result<(), Fail> {
    let close = [101, 101, 101, 103];
    assert!(rt; accepts(Known::new(100, 1, 1500)?, &close)?);
    assert!(rt; !accepts(Known::new(100, 1, 1501)?, &close)?);
    assert!(rt; accepts(Unknown::new(100, 1500)?, &close)?);
    assert!(rt; !accepts(Unknown::new(100, 1501)?, &close)?);
    assert!(rt; !accepts(Mean::new(4, 100)?, &close)?);
    assert!(rt; accepts(Mean::new(3, 0)?, &[2, 0, 1])?);
    assert!(rt; accepts(Marks::new(1)?, &[true, true, false, true, true])?);
    assert!(rt; !accepts(Marks::new(1)?, &[true, false, false, true, true])?);
    Ok(())
}

fn judges(limit: i32, k: i32, readings: &[i32]) -> Result<bool, Fault> {
    Ok(Unknown::new(limit, k)?.judge(tally_of(readings)?).is_yes())
}

#[test]
fn judges_and_refuses(rt: HostRuntime) -> Result<(), Fail> {
    let close = [101, 101, 101, 103];
    assert!(rt; judges(100, 1500, &close)?);
    assert!(rt; !judges(100, 1501, &close)?);
    assert!(rt; judges(10, 2000, &[10, 10])?);
    assert!(rt; !judges(10, 2000, &[10, 20])?);
    assert!(rt; !judges(100, 0, &[90, 90])?);
    assert_eq!(rt; refusal(Unknown::new(2001, 0)), Some(5));
    assert_eq!(rt; refusal(Unknown::new(-2001, 0)), Some(5));
    assert_eq!(rt; refusal(Unknown::new(0, 4001)), Some(5));
    assert_eq!(rt; refusal(Unknown::new(0, -1)), Some(5));
    assert_eq!(rt; refusal(tally_of::<Tally>(&[0, 2001])), Some(14));
    assert_eq!(rt; refusal(tally_of::<Tally>(&[7; 51])), Some(16));
    Ok(())
}

#[test]
fn tallies_of_at_most_50(rt: HostRuntime) {
    assert_eq!(rt; refusal(tally_of::<Tally>(&[0, 2001])), Some(14));
    assert_eq!(rt; refusal(tally_of::<Tally>(&[7; 50])), None);
    assert_eq!(rt; refusal(tally_of::<Tally>(&[7; 51])), Some(16));
    assert_eq!(rt; refusal(tally_of::<MarkTally>(&[true; 50])), None);
    assert_eq!(rt; refusal(tally_of::<MarkTally>(&[true; 51])), Some(16));
}

#[test]
fn constants_out_of_range(rt: HostRuntime) {
    assert_eq!(rt; refusal(Known::new(2001, 0, 0)), Some(5));
    assert_eq!(rt; refusal(Known::new(0, -1, 0)), Some(5));
    assert_eq!(rt; refusal(Known::new(0, 2001, 0)), Some(5));
    assert_eq!(rt; refusal(Known::new(0, 0, 4001)), Some(5));
    assert_eq!(rt; refusal(Unknown::new(-2001, 0)), Some(5));
    assert_eq!(rt; refusal(Unknown::new(0, -1)), Some(5));
    assert_eq!(rt; refusal(Mean::new(2, 2001)), Some(5));
    assert_eq!(rt; refusal(Marks::new(-1)), Some(5));
    assert_eq!(rt; refusal(Marks::new(50)), Some(5));
    assert_eq!(rt; refusal(Gauge::new(2000, 2000)), None);
    assert_eq!(rt; refusal(Gauge::new(-2001, 0)), Some(5));
    assert_eq!(rt; refusal(Gauge::new(0, 2001)), Some(5));
    assert_eq!(rt; refusal(Gauge::new(1, 0)), Some(5));
}

#[test]
fn readings_passed_on(rt: HostRuntime) -> Result<(), Fail> {
    assert_eq!(rt; Negation.pass(2000), Some(-2000));
    assert_eq!(rt; Negation.pass(2001), None);
    let gauge = Gauge::new(-3, 5)?;
    assert_eq!(rt; gauge.pass(-4), Some(false));
    assert_eq!(rt; gauge.pass(-3), Some(true));
    assert_eq!(rt; gauge.pass(5), Some(true));
    assert_eq!(rt; gauge.pass(6), Some(false));
    assert_eq!(rt; gauge.pass(2001), None);
    assert_eq!(rt; difference(5, 3), Some(2));
    assert_eq!(rt; difference(0, 2000), Some(-2000));
    assert_eq!(rt; difference(2000, -2000), None);
    assert_eq!(rt; difference(-2147483648, 2147483647), None);
    Ok(())
}
