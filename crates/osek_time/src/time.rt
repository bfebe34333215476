//! The plain program of counters and alarms.
ghost use Rattle.std.specs.Prelude.{◌≡◌, ℕ, ◌+◌, ◌<◌, ◌≤◌, ◌&&◌, if◌then◌else◌, true, All, IfOk, IsTrue, None, Some, is_some, length, map, filter, nat_eq, nat_le, option_map, replicate, slice_index, slice_index_or};
ghost use Rattle.std.specs.List.{range_with_len};
ghost use Rattle.osek_core.specs.Tables.Limits.{IsCounterRule};
ghost use Rattle.osek_core.specs.Kernel.Clock.{advance, alarm_at, counted_down, counter_of, due, is_last_tick, next_value, no_counter, rule_of_counter, set_alarm};
ghost use Rattle.osek_core.specs.Kernel.AlarmServices.{cancel_alarm, get_alarm, is_cycle, set_abs_alarm, set_rel_alarm, ticks_until};
ghost use Rattle.osek_time.specs.Value.{alarm_set, is_due, is_within};
ghost use Rattle.osek_time.specs.Kept.{shown};

use osek_core::CounterRule;
use std::alloc::{AllocError, Global};
use std::marker::Model;

const E_OK: u8 = 0;

const E_OS_NOFUNC: u8 = 5;

const E_OS_STATE: u8 = 7;

const E_OS_VALUE: u8 = 8;

/// An alarm in use: due after so many ticks, and then every so many ticks, or once where the cycle is 0.
#[derive(Clone, Copy, Debug, PartialEq, Eq)]
struct Countdown {
    ticks: u32,
    cycle: u32,
}

/// Counters and alarms. Only `new` takes memory.
#[derive(Drop)]
pub struct Time {
    rules: Vec<CounterRule>,
    /// Each alarm's counter.
    alarms: Vec<u32>,
    /// Each counter's value.
    values: Vec<u32>,
    /// Each alarm, where it is in use.
    armed: Vec<Option<Countdown>>,
}

impl Model for Time {
    ghost use Rattle.osek_time.specs.Value.{Timed};

    ghost Value = { Timed };

    ghost use Rattle.osek_time.specs.Kept.{timed, IsSound};

    ghost view = { λ c. timed c.rules.items c.alarms.items c.values.items c.armed.items };

    ghost invariant = { λ c. IsSound c.rules.items c.alarms.items c.values.items c.armed.items };
}

impl Time {
    /// The counters at 0, and no alarm in use. `alarms` has each alarm's counter.
    pub fn new(alloc: Global, counters: &[CounterRule], alarms: &[u32]) -> Result<Time, AllocError>
        requires few_counters { length counters.now ≤ 8 }
        requires few_alarms { length alarms.now ≤ 64 }
        requires rules { All IsCounterRule counters.now }
        requires counted { All (λ counter. counter < length counters.now) alarms.now }
        ensures rules { IfOk result (λ time. time.rules ≡ record { counters = counters.now; alarms = alarms.now }) }
        ensures idle { IfOk result (λ time. time.clock ≡ record { counters = replicate (length counters.now) 0; alarms = replicate (length alarms.now) None }) }
    {
        let rules = Vec::from_slice(alloc, counters)?;
        let values = Vec::from_elem(alloc, 0, counters.len())?;
        let armed = Vec::from_elem(alloc, None, alarms.len())?;
        let alarms = Vec::from_slice(alloc, alarms)?;
        Ok(Time {
            rules,
            alarms,
            values,
            armed,
        })
    }

    /// A tick of the counter: the set of the alarms that are due at it, bit k for alarm k.
    pub fn tick(&mut self, counter: u32) -> u64
        requires { counter < length self.old.rules.counters }
        ensures due { result ≡ alarm_set (due self.old.rules self.old.clock counter) }
        ensures state { self.new ≡ record self.old { clock = advance self.old.rules self.old.clock counter } }
    {
        let due = due_alarms(&self.alarms, &self.armed, counter);
        count_down(&self.alarms, &mut self.armed, counter);
        let rule = self.rules[counter as usize];
        let value = self.values[counter as usize];
        self.values[counter as usize] = next(rule, value);
        due
    }

    /// Whether the alarm is due at the counter's next tick.
    pub fn is_due(&self, counter: u32, alarm: u32) -> bool
        requires { alarm < length self.now.rules.alarms }
        ensures { result ≡ is_due self.now.rules self.now.clock counter alarm }
    {
        is_due_of(
            self.alarms[alarm as usize],
            self.armed[alarm as usize],
            counter,
        )
    }

    /// SetRelAlarm (section 13.6.3.3): its status.
    pub fn set_rel(&mut self, alarm: u32, first: u32, cycle: u32) -> u8
        requires { alarm < length self.old.rules.alarms }
        ensures status { result ≡ (set_rel_alarm self.old.rules self.old.clock alarm first cycle).status }
        ensures state { self.new ≡ record self.old { clock = (set_rel_alarm self.old.rules self.old.clock alarm first cycle).state } }
    {
        if self.is_used(alarm) {
            return E_OS_STATE;
        }
        if !is_within(self.rule(alarm), 1, first, cycle) {
            return E_OS_VALUE;
        }
        self.arm(alarm, first, cycle);
        E_OK
    }

    /// SetAbsAlarm (section 13.6.3.4): its status.
    pub fn set_abs(&mut self, alarm: u32, first: u32, cycle: u32) -> u8
        requires { alarm < length self.old.rules.alarms }
        ensures status { result ≡ (set_abs_alarm self.old.rules self.old.clock alarm first cycle).status }
        ensures state { self.new ≡ record self.old { clock = (set_abs_alarm self.old.rules self.old.clock alarm first cycle).state } }
    {
        if self.is_used(alarm) {
            return E_OS_STATE;
        }
        let rule = self.rule(alarm);
        if !is_within(rule, 0, first, cycle) {
            return E_OS_VALUE;
        }
        self.arm(alarm, ticks_until(rule, self.value(alarm), first), cycle);
        E_OK
    }

    /// CancelAlarm (section 13.6.3.5): its status.
    pub fn cancel(&mut self, alarm: u32) -> u8
        requires { alarm < length self.old.rules.alarms }
        ensures status { result ≡ (cancel_alarm self.old.clock alarm).status }
        ensures state { self.new ≡ record self.old { clock = (cancel_alarm self.old.clock alarm).state } }
    {
        if !self.is_used(alarm) {
            return E_OS_NOFUNC;
        }
        self.disarm(alarm);
        E_OK
    }

    /// GetAlarm (section 13.6.3.2): the ticks until the alarm is due, or the status.
    pub fn get(&self, alarm: u32) -> Result<u32, u8>
        requires { alarm < length self.now.rules.alarms }
        ensures { result ≡ get_alarm self.now.clock alarm }
    {
        match self.armed[alarm as usize] {
            None => Err(E_OS_NOFUNC),
            Some(countdown) => Ok(countdown.ticks),
        }
    }

    fn is_used(&self, alarm: u32) -> bool
        requires { alarm < length self.now.rules.alarms }
        ensures { result ≡ is_some (alarm_at self.now.clock alarm) }
    {
        self.armed[alarm as usize].is_some()
    }

    /// The rule of the alarm's counter.
    fn rule(&self, alarm: u32) -> CounterRule
        requires { alarm < length self.now.rules.alarms }
        ensures rule { result ≡ rule_of_counter self.now.rules (counter_of self.now.rules alarm) }
        ensures lawful { IsCounterRule result }
    {
        self.rules[self.alarms[alarm as usize] as usize]
    }

    /// The value of the alarm's counter.
    fn value(&self, alarm: u32) -> u32
        requires { alarm < length self.now.rules.alarms }
        ensures value { result ≡ slice_index self.now.clock.counters (counter_of self.now.rules alarm) }
        ensures bounded { result ≤ (rule_of_counter self.now.rules (counter_of self.now.rules alarm)).max }
    {
        self.values[self.alarms[alarm as usize] as usize]
    }

    fn arm(&mut self, alarm: u32, ticks: u32, cycle: u32)
        requires { alarm < length self.old.rules.alarms }
        ensures { self.new ≡ record self.old { clock = set_alarm self.old.clock alarm (Some (record { ticks = ticks; cycle = cycle })) } }
    {
        self.armed[alarm as usize] = Some(Countdown { ticks, cycle });
    }

    fn disarm(&mut self, alarm: u32)
        requires { alarm < length self.old.rules.alarms }
        ensures { self.new ≡ record self.old { clock = set_alarm self.old.clock alarm None } }
    {
        self.armed[alarm as usize] = None;
    }
}

/// Whether these are numbers of an alarm of the counter: the first at least `least`.
fn is_within(rule: CounterRule, least: u32, first: u32, cycle: u32) -> bool
    ensures tells { result ≡ is_within rule least first cycle }
    ensures bounded { result ≡ true → first ≤ rule.max }
{
    least <= first && first <= rule.max && is_cycle(rule, cycle)
}

/// Whether a cycle is 0 or within the counter's bounds.
fn is_cycle(rule: CounterRule, cycle: u32) -> bool
    ensures { result ≡ is_cycle rule cycle }
{
    cycle == 0 || rule.min <= cycle && cycle <= rule.max
}

/// The ticks until a counter with this value becomes `first`.
fn ticks_until(rule: CounterRule, value: u32, first: u32) -> u32
    requires rule { IsCounterRule rule }
    requires value { value ≤ rule.max }
    requires first { first ≤ rule.max }
    ensures { result ≡ ticks_until rule value first }
{
    if value < first {
        first - value
    } else {
        first + (rule.max + 1) - value
    }
}

/// The counter's value after a tick.
fn next(rule: CounterRule, value: u32) -> u32
    requires rule { IsCounterRule rule }
    requires value { value ≤ rule.max }
    ensures next { result ≡ (if nat_eq value rule.max then 0 else value + 1) }
    ensures bounded { result ≤ rule.max }
{
    if value == rule.max { 0 } else { value + 1 }
}

/// Whether the alarm waits for one tick more.
fn is_last(alarm: Option<Countdown>) -> bool
    ensures { result ≡ is_last_tick (shown alarm) }
{
    match alarm {
        None => false,
        Some(countdown) => countdown.ticks == 1,
    }
}

/// Whether an alarm of the counter `own` is due at the next tick of `counter`.
fn is_due_of(own: u32, alarm: Option<Countdown>, counter: u32) -> bool
    ensures { result ≡ (nat_eq own counter && is_last_tick (shown alarm)) }
{
    own == counter && is_last(alarm)
}

/// The alarm after a tick of its counter.
fn counted_down(alarm: Option<Countdown>) -> Option<Countdown>
    ensures { shown result ≡ counted_down (shown alarm) }
{
    let countdown = alarm?;
    if countdown.ticks != 1 {
        return Some(Countdown {
            ticks: countdown.ticks.saturating_sub(1),
            ..countdown
        });
    }
    if countdown.cycle == 0 {
        return None;
    }
    Some(Countdown {
        ticks: countdown.cycle,
        ..countdown
    })
}

/// The set of the alarms that are due at the counter's next tick.
fn due_alarms(alarms: &[u32], armed: &[Option<Countdown>], counter: u32) -> u64
    requires each { length armed.now ≡ length alarms.now }
    requires few { length armed.now ≤ 64 }
    ensures { result ≡ alarm_set (filter (λ alarm. nat_eq (slice_index alarms.now alarm) counter && is_last_tick (shown (slice_index_or armed.now alarm None))) (range_with_len 0 (length armed.now))) }
{
    let mut due = 0;
    for alarm in 0..armed.len() {
        if is_due_of(alarms[alarm], armed[alarm], counter) {
            due |= 1 << alarm;
        }
    }
    due
}

/// A tick passes for each of the counter's alarms.
fn count_down(alarms: &[u32], armed: &mut [Option<Countdown>], counter: u32)
    requires { length armed.old ≡ length alarms.now }
    ensures length { length armed.new ≡ length armed.old }
    ensures alarms { map shown armed.new ≡ map (λ alarm. if nat_eq (slice_index alarms.now alarm) counter then counted_down (shown (slice_index_or armed.old alarm None)) else shown (slice_index_or armed.old alarm None)) (range_with_len 0 (length armed.old)) }
{
    for alarm in 0..armed.len() {
        if alarms[alarm] == counter {
            armed[alarm] = counted_down(armed[alarm]);
        }
    }
}

#[cfg(test)]
mod tests;
