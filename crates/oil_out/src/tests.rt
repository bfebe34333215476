use super::*;
use osek_core::{CounterRule, TaskRule};
use std::test::Fail;

/// One object of each kind, as a configuration of a blinking light has them.
const ONE_OF_EACH: &str = "OIL_VERSION = \"2.5\";
#include \"keso_impl.oil\"
CPU keso {
  OS os {
    STATUS = EXTENDED;
    STARTUPHOOK = TRUE;
    ERRORHOOK = FALSE;
    SHUTDOWNHOOK = FALSE;
    PRETASKHOOK = FALSE;
    POSTTASKHOOK = FALSE;
    USEGETSERVICEID = FALSE;
    USEPARAMETERACCESS = FALSE;
    USERESSCHEDULER = FALSE;
  };
  APPMODE mode { };
  EVENT e_go {
    MASK = 1;
  };
  RESOURCE r_bus {
    RESOURCEPROPERTY = STANDARD;
  };
  COUNTER c_ms {
    MAXALLOWEDVALUE = 1000;
    TICKSPERBASE = 1;
    MINCYCLE = 1;
  };
  TASK t_main {
    PRIORITY = 1;
    SCHEDULE = FULL;
    ACTIVATION = 1;
    AUTOSTART = TRUE { APPMODE = mode; };
    RESOURCE = r_bus;
    EVENT = e_go;
  };
  ALARM a_beat {
    COUNTER = c_ms;
    ACTION = ACTIVATETASK { TASK = t_main; };
    AUTOSTART = TRUE { ALARMTIME = 2; CYCLETIME = 2; APPMODE = mode; };
  };
};
";

/// Two of each, with the other form of each attribute.
const TWO_OF_EACH: &str = "OIL_VERSION = \"2.5\";
#include \"keso_impl.oil\"
CPU keso {
  OS os {
    STATUS = EXTENDED;
    STARTUPHOOK = TRUE;
    ERRORHOOK = FALSE;
    SHUTDOWNHOOK = FALSE;
    PRETASKHOOK = FALSE;
    POSTTASKHOOK = FALSE;
    USEGETSERVICEID = FALSE;
    USEPARAMETERACCESS = FALSE;
    USERESSCHEDULER = FALSE;
  };
  APPMODE mode { };
  EVENT e_go {
    MASK = 1;
  };
  EVENT e_halt {
    MASK = 2;
  };
  RESOURCE r_bus {
    RESOURCEPROPERTY = STANDARD;
  };
  RESOURCE r_led {
    RESOURCEPROPERTY = STANDARD;
  };
  COUNTER c_ms {
    MAXALLOWEDVALUE = 4294967295;
    TICKSPERBASE = 10;
    MINCYCLE = 2;
  };
  COUNTER c_turn {
    MAXALLOWEDVALUE = 359;
    TICKSPERBASE = 1;
    MINCYCLE = 5;
  };
  TASK t_idle {
    PRIORITY = 0;
    SCHEDULE = NON;
    ACTIVATION = 15;
    AUTOSTART = FALSE;
  };
  TASK t_main {
    PRIORITY = 63;
    SCHEDULE = FULL;
    ACTIVATION = 1;
    AUTOSTART = FALSE;
    RESOURCE = r_bus;
    RESOURCE = r_led;
    EVENT = e_go;
    EVENT = e_halt;
  };
  ALARM a_beat {
    COUNTER = c_turn;
    ACTION = SETEVENT { TASK = t_main; EVENT = e_halt; };
    AUTOSTART = FALSE;
  };
  ALARM a_once {
    COUNTER = c_ms;
    ACTION = ACTIVATETASK { TASK = t_idle; };
    AUTOSTART = TRUE { ALARMTIME = 7; CYCLETIME = 0; APPMODE = mode; };
  };
};
";

fn named(alloc: Global, text: &str) -> Result<Name, NoMemory> {
    let text = Items::from_slice(alloc, text.as_bytes())?;
    Ok(Name { text })
}

fn counter(alloc: Global, name: &str, rule: CounterRule) -> Result<CounterRow, NoMemory> {
    let name = named(alloc, name)?;
    Ok(CounterRow { name, rule })
}

/// The task, which starts with the kernel where it has priority 1.
fn task(alloc: Global, name: &str, rule: TaskRule, places: &[u32]) -> Result<TaskRow, NoMemory> {
    Ok(TaskRow {
        name: named(alloc, name)?,
        rule,
        auto: rule.priority == 1,
        resources: Items::from_slice(alloc, places)?,
        events: Items::from_slice(alloc, places)?,
    })
}

fn alarm(
    alloc: Global,
    name: &str,
    counter: u32,
    action: Action,
    start: Option<Start>,
) -> Result<AlarmRow, NoMemory> {
    let name = named(alloc, name)?;
    Ok(AlarmRow {
        name,
        counter,
        action,
        start,
    })
}

fn one_of_each(alloc: Global) -> Result<Tables, NoMemory> {
    let ticks = CounterRule {
        max: 1000,
        base: 1,
        min: 1,
    };
    let rule = TaskRule {
        priority: 1,
        activations: 1,
        preemptable: true,
        extended: true,
    };
    let action = Action::Activate { task: 0 };
    let start = Some(Start { first: 2, cycle: 2 });
    Ok(Tables {
        events: Items::from_vec(vec![in alloc; named(alloc, "go")?]?),
        resources: Items::from_vec(vec![in alloc; named(alloc, "bus")?]?),
        counters: Items::from_vec(vec![in alloc; counter(alloc, "ms", ticks)?]?),
        tasks: Items::from_vec(vec![in alloc; task(alloc, "main", rule, &[0])?]?),
        alarms: Items::from_vec(vec![in alloc; alarm(alloc, "beat", 0, action, start)?]?),
    })
}

#[test]
fn prints_one_of_each(rt: HostRuntime) -> Result<(), Fail> {
    let tables = one_of_each(rt.alloc())?;
    let text = print_oil(rt.alloc(), &tables)?;
    assert_eq!(rt; text.as_slice(), ONE_OF_EACH.as_bytes());
    Ok(())
}

fn two_of_each(alloc: Global) -> Result<Tables, NoMemory> {
    let ticks = CounterRule {
        max: 4294967295,
        base: 10,
        min: 2,
    };
    let degrees = CounterRule {
        max: 359,
        base: 1,
        min: 5,
    };
    let idle = TaskRule {
        priority: 0,
        activations: 15,
        preemptable: false,
        extended: false,
    };
    let busy = TaskRule {
        priority: 63,
        activations: 1,
        preemptable: true,
        extended: true,
    };
    let set = Action::Set { task: 1, event: 1 };
    let activate = Action::Activate { task: 0 };
    let once = Some(Start { first: 7, cycle: 0 });
    Ok(Tables {
        events: Items::from_vec(vec![in alloc; named(alloc, "go")?, named(alloc, "halt")?]?),
        resources: Items::from_vec(vec![in alloc; named(alloc, "bus")?, named(alloc, "led")?]?),
        counters: Items::from_vec(vec![in alloc;
            counter(alloc, "ms", ticks)?,
            counter(alloc, "turn", degrees)?,
        ]?),
        tasks: Items::from_vec(vec![in alloc;
            task(alloc, "idle", idle, &[])?,
            task(alloc, "main", busy, &[0, 1])?,
        ]?),
        alarms: Items::from_vec(vec![in alloc;
            alarm(alloc, "beat", 1, set, None)?,
            alarm(alloc, "once", 0, activate, once)?,
        ]?),
    })
}

#[test]
fn prints_two_of_each(rt: HostRuntime) -> Result<(), Fail> {
    let tables = two_of_each(rt.alloc())?;
    let text = print_oil(rt.alloc(), &tables)?;
    assert_eq!(rt; text.as_slice(), TWO_OF_EACH.as_bytes());
    Ok(())
}
