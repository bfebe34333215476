use super::*;
use std::test::Fail;

const RULE: CounterRule = CounterRule {
    max: 4,
    base: 1,
    min: 2,
};

#[test]
fn alarm_is_due_when_its_ticks_have_passed(rt: HostRuntime) -> Result<(), Fail> {
    let mut time = Time::new(rt.alloc(), &[RULE, RULE], &[0, 1])?;
    assert_eq!(rt; time.get(0), Err(5));
    assert_eq!(rt; time.set_rel(0, 2, 3), 0);
    assert_eq!(rt; time.set_rel(0, 0, 0), 7);
    assert_eq!(rt; time.set_rel(1, 0, 0), 8);
    assert_eq!(rt; time.set_rel(1, 5, 0), 8);
    assert_eq!(rt; time.set_rel(1, 4, 1), 8);
    assert_eq!(rt; time.set_rel(1, 4, 5), 8);
    assert_eq!(rt; time.get(0), Ok(2));
    assert_eq!(rt; time.tick(1), 0);
    assert_eq!(rt; time.tick(0), 0);
    assert_eq!(rt; time.get(0), Ok(1));
    assert_eq!(rt; time.is_due(0, 0), true);
    assert_eq!(rt; time.tick(0), 1);
    assert_eq!(rt; time.get(0), Ok(3));
    assert_eq!(rt; time.cancel(0), 0);
    assert_eq!(rt; time.cancel(0), 5);
    Ok(())
}

#[test]
fn absolute_alarm_waits_for_the_next_round(rt: HostRuntime) -> Result<(), Fail> {
    let mut time = Time::new(rt.alloc(), &[RULE], &[0, 0])?;
    assert_eq!(rt; time.tick(0), 0);
    assert_eq!(rt; time.set_abs(0, 1, 0), 0);
    assert_eq!(rt; time.get(0), Ok(5));
    assert_eq!(rt; time.set_abs(1, 3, 4), 0);
    assert_eq!(rt; time.get(1), Ok(2));
    assert_eq!(rt; time.tick(0), 0);
    assert_eq!(rt; time.tick(0), 2);
    assert_eq!(rt; time.tick(0), 0);
    assert_eq!(rt; time.tick(0), 0);
    assert_eq!(rt; time.tick(0), 1);
    assert_eq!(rt; time.get(0), Err(5));
    assert_eq!(rt; time.set_abs(0, 5, 0), 8);
    assert_eq!(rt; time.set_abs(0, 0, 0), 0);
    assert_eq!(rt; time.get(0), Ok(4));
    Ok(())
}
