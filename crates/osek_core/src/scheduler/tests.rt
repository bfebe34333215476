use super::*;
use std::test::Fail;

const LOW: TaskRule = TaskRule {
    priority: 1,
    activations: 1,
    preemptable: true,
    extended: false,
};

#[test]
fn preempted_job_goes_on_before_its_equals(rt: HostRuntime) -> Result<(), Fail> {
    let low = LOW;
    let high = TaskRule { priority: 2, ..low };
    let mut core = Core::new(rt.alloc(), &[low, low, high], &[])?;
    assert_eq!(rt; core.running(), None);
    assert_eq!(rt; core.activate(0), 0);
    assert_eq!(rt; core.activate(1), 0);
    core.dispatch();
    assert_eq!(rt; core.running(), Some(0));
    assert_eq!(rt; core.activate(2), 0);
    core.dispatch();
    assert_eq!(rt; core.running(), Some(2));
    assert_eq!(rt; core.terminate(), 0);
    core.dispatch();
    assert_eq!(rt; core.running(), Some(0));
    assert_eq!(rt; core.terminate(), 0);
    core.dispatch();
    assert_eq!(rt; core.running(), Some(1));
    assert_eq!(rt; core.terminate(), 0);
    core.dispatch();
    assert_eq!(rt; core.running(), None);
    Ok(())
}

#[test]
fn activation_past_the_limit_is_refused(rt: HostRuntime) -> Result<(), Fail> {
    let twice = TaskRule {
        activations: 2,
        ..LOW
    };
    let mut core = Core::new(rt.alloc(), &[twice], &[])?;
    assert_eq!(rt; core.activate(0), 0);
    assert_eq!(rt; core.activate(0), 0);
    assert_eq!(rt; core.activate(0), 4);
    core.dispatch();
    assert_eq!(rt; core.running(), Some(0));
    assert_eq!(rt; core.terminate(), 0);
    core.dispatch();
    assert_eq!(rt; core.running(), Some(0));
    assert_eq!(rt; core.terminate(), 0);
    core.dispatch();
    assert_eq!(rt; core.running(), None);
    Ok(())
}

#[test]
fn task_that_is_not_preempted_goes_on(rt: HostRuntime) -> Result<(), Fail> {
    let low = TaskRule {
        preemptable: false,
        ..LOW
    };
    let high = TaskRule {
        priority: 63,
        ..LOW
    };
    let mut core = Core::new(rt.alloc(), &[low, high], &[5, 63])?;
    assert_eq!(rt; core.activate(0), 0);
    core.dispatch();
    assert_eq!(rt; core.activate(1), 0);
    core.dispatch();
    assert_eq!(rt; core.running(), Some(0));
    assert_eq!(rt; core.terminate(), 0);
    assert_eq!(rt; core.running(), None);
    core.dispatch();
    assert_eq!(rt; core.running(), Some(1));
    Ok(())
}

#[test]
fn task_chains_itself(rt: HostRuntime) -> Result<(), Fail> {
    let mut core = Core::new(rt.alloc(), &[LOW, LOW], &[])?;
    assert_eq!(rt; core.activate(0), 0);
    assert_eq!(rt; core.activate(1), 0);
    core.dispatch();
    assert_eq!(rt; core.running(), Some(0));
    assert_eq!(rt; core.chain(0), 0);
    core.dispatch();
    assert_eq!(rt; core.running(), Some(1));
    assert_eq!(rt; core.chain(0), 4);
    Ok(())
}

#[test]
fn resource_raises_its_holder_to_the_ceiling(rt: HostRuntime) -> Result<(), Fail> {
    let high = TaskRule { priority: 5, ..LOW };
    let mut core = Core::new(rt.alloc(), &[LOW, high], &[5])?;
    assert_eq!(rt; core.activate(0), 0);
    core.dispatch();
    assert_eq!(rt; core.running(), Some(0));
    assert_eq!(rt; core.get_resource(0), 0);
    assert_eq!(rt; core.activate(1), 0);
    core.dispatch();
    assert_eq!(rt; core.running(), Some(0));
    assert_eq!(rt; core.release_resource(0), 0);
    core.dispatch();
    assert_eq!(rt; core.running(), Some(1));
    Ok(())
}

#[test]
fn task_waits_until_one_of_its_events_is_set(rt: HostRuntime) -> Result<(), Fail> {
    let extended = TaskRule {
        extended: true,
        ..LOW
    };
    let mut core = Core::new(rt.alloc(), &[extended], &[])?;
    assert_eq!(rt; core.set_event(0, 1), 7);
    assert_eq!(rt; core.activate(0), 0);
    core.dispatch();
    assert_eq!(rt; core.running(), Some(0));
    assert_eq!(rt; core.wait_event(6), 0);
    core.dispatch();
    assert_eq!(rt; core.running(), None);
    assert_eq!(rt; core.set_event(0, 4), 0);
    core.dispatch();
    assert_eq!(rt; core.running(), Some(0));
    assert_eq!(rt; core.get_event(0), Ok(4));
    Ok(())
}
