//! The calls of the reached pairs.

ghost use Rattle.std.specs.Prelude.{◌≡◌, ◌≤◌, ◌++◌, length, position, option_to_list, IfOk, OnOk};
ghost use Rattle.reaching.specs.Order.{is_same};
ghost use Rattle.method_typing.specs.Method.{method_typed};
ghost use Rattle.std.specs.List.{flat_map};
ghost use Rattle.reach.specs.Calls.{is_call, numbers_of, targets_of, is_of_others, is_static_call, names_others, is_outside, call_of, call_in, calls_from, code_at, code_of, calls_by_file, calls_by, calls_in, calls_of, edges_of, places_of};

use crate::methods::file_number;
use call_graph::CallPlace;
use classfile::Class;
use jcode::{Ins, Op};
use jworld::{MethodId, World};
use kes_text::{Kind, NoMemory, Stop};
use linking::{Named, linked};
use mentions::{Binding, Setting, mentioned};
use method_typing::type_method;
use reaching::{Pair, Pairs};
use sqlite_items::Items;
use std::alloc::{AllocError, Global};

/// A call, with what a refusal says of it.
#[derive(Drop)]
pub struct Call {
    pub place: CallPlace,
    /// The number of its class file, from 0.
    pub file: u32,
    /// The offset of its opcode in the file.
    pub at: u64,
    /// Whether it runs a service or a portal.
    pub is_outside: bool,
}

/// The code of a pair.
#[derive(Clone, Copy)]
pub struct Site {
    /// The number of the pair.
    pub number: u32,
    pub pair: Pair,
    /// The offset of its code in the class file.
    pub at: u64,
}

/// The calls of all pairs, and the pairs that each pair runs.
#[derive(Drop)]
pub struct Calls {
    pub calls: Vec<Call>,
    pub edges: Items<Items<u32>>,
}

fn is_call(op: &Op) -> bool
    ensures { result ≡ is_call op.now }
{
    match op {
        Op::InvokeVirtual { .. }
        | Op::InvokeSpecial { .. }
        | Op::InvokeStatic { .. }
        | Op::InvokeInterface { .. } => true,
        _ => false,
    }
}

/// Puts the number of a pair behind the others, if it is one of the pairs.
fn add_number(pairs: &Pairs, target: Pair, numbers: &mut Items<u32>) -> Result<(), NoMemory>
    requires { length pairs.now ≤ 1048577 }
    ensures { OnOk result (numbers.new ≡ numbers.old ++ option_to_list (position (is_same target) pairs.now)) }
{
    if let Some(number) = pairs.number(target) {
        numbers.push(number as u32)?;
    }
    Ok(())
}

/// The numbers of these among the pairs.
fn numbers_of(alloc: Global, pairs: &Pairs, targets: &[Pair]) -> Result<Items<u32>, NoMemory>
    requires { length pairs.now ≤ 1048577 }
    ensures { IfOk result (λ numbers. numbers ≡ numbers_of pairs.now targets.now) }
{
    let mut numbers = Items::new(alloc);
    for target in targets {
        add_number(pairs, *target, &mut numbers)?;
    }
    Ok(numbers)
}

/// The numbers of an instruction's targets.
fn targets_of(
    alloc: Global,
    s: &Setting<'_, '_>,
    pairs: &Pairs,
    pair: Pair,
    file: &Class<'_>,
    op: &Op,
) -> Result<Items<u32>, NoMemory>
    requires { length pairs.now ≤ 1048577 }
    ensures { IfOk result (λ numbers. numbers ≡ targets_of s.now pairs.now pair file.now op.now) }
{
    match mentioned(alloc, s, pair.domain, pair.method.class, file, op)? {
        Ok(called) => numbers_of(alloc, pairs, called.targets.as_slice()),
        Err(_rule) => Ok(Items::new(alloc)),
    }
}

/// Whether a native method is bound to a service, or is a portal.
fn is_of_others(binding: Option<Binding>) -> bool
    ensures { result ≡ is_of_others binding }
{
    match binding {
        Some(Binding::Service(_) | Binding::Portal { .. }) => true,
        Some(Binding::Device { .. }) | None => false,
    }
}

fn is_static_call(op: &Op) -> bool
    ensures { result ≡ is_static_call op.now }
{
    match op {
        Op::InvokeStatic { .. } => true,
        _ => false,
    }
}

/// Whether what an operand names is a service or a portal.
fn names_others(s: &Setting<'_, '_>, found: Result<Named, Kind>) -> bool
    ensures { result ≡ names_others s.now found }
{
    match found {
        Ok(Named::Method(id)) => is_of_others(s.binding(id)),
        _ => false,
    }
}

/// Whether an instruction calls a service or a portal.
fn is_outside(
    alloc: Global,
    s: &Setting<'_, '_>,
    file: &Class<'_>,
    op: &Op,
) -> Result<bool, NoMemory>
    ensures { IfOk result (λ outside. outside ≡ is_outside s.now file.now op.now) }
{
    if !is_static_call(op) {
        return Ok(false);
    }
    let found = linked(alloc, s.world, file, op)?;
    Ok(names_others(s, found))
}

/// The call that an instruction is, which has this number in its code.
fn call_of(
    alloc: Global,
    s: &Setting<'_, '_>,
    pairs: &Pairs,
    site: Site,
    file: &Class<'_>,
    ins: &Ins,
    index: u32,
) -> Result<Call, NoMemory>
    requires { length pairs.now ≤ 1048577 }
    ensures { IfOk result (λ call. call ≡ call_of s.now pairs.now site file.now ins.now index) }
{
    let targets = targets_of(alloc, s, pairs, site.pair, file, &ins.op)?;
    let is_outside = is_outside(alloc, s, file, &ins.op)?;
    let place = CallPlace {
        pair: site.number,
        ins: index,
        targets,
    };
    Ok(Call {
        place,
        file: file_number(site.pair),
        at: site.at.saturating_add(u64::from(ins.pc)),
        is_outside,
    })
}

/// The call that an instruction is, if it is one.
fn call_in(
    alloc: Global,
    s: &Setting<'_, '_>,
    pairs: &Pairs,
    site: Site,
    file: &Class<'_>,
    ins: &Ins,
    index: u32,
) -> Result<Option<Call>, NoMemory>
    requires { length pairs.now ≤ 1048577 }
    ensures { IfOk result (λ call. call ≡ call_in s.now pairs.now site file.now ins.now index) }
{
    if !is_call(&ins.op) {
        return Ok(None);
    }
    let call = call_of(alloc, s, pairs, site, file, ins, index)?;
    Ok(Some(call))
}

/// Puts a call behind the others, if there is one.
fn put(calls: &mut Vec<Call>, call: Option<Call>) -> Result<(), NoMemory>
    ensures { OnOk result (calls.new.items ≡ calls.old.items ++ option_to_list call) }
{
    if let Some(call) = call {
        calls.push(call)?;
    }
    Ok(())
}

/// The calls of a code.
fn calls_in_code(
    alloc: Global,
    s: &Setting<'_, '_>,
    pairs: &Pairs,
    site: Site,
    file: &Class<'_>,
    code: &[Ins],
) -> Result<Vec<Call>, NoMemory>
    requires { length pairs.now ≤ 1048577 }
    ensures { IfOk result (λ calls. calls.items ≡ calls_from s.now pairs.now site file.now 0 code.now) }
{
    let mut calls = Vec::new(alloc);
    let mut index = 0u32;
    for ins in code {
        let call = call_in(alloc, s, pairs, site, file, ins, index)?;
        put(&mut calls, call)?;
        index = index.saturating_add(1);
    }
    Ok(calls)
}

/// Where the code of a method begins in its file.
fn code_at(file: &Class<'_>, n: u16) -> u64
    ensures { result ≡ code_at file.now n }
{
    let Some(method) = file.methods().get(usize::from(n)) else {
        return 0;
    };
    match &method.code {
        Some(code) => code.at,
        None => 0,
    }
}

/// The instructions of a method; none, if it isn't well typed.
fn code_of(alloc: Global, world: &World<'_>, method: MethodId) -> Result<Items<Ins>, NoMemory>
    ensures { IfOk result (λ code. code ≡ code_of (method_typed world.now method)) }
{
    match type_method(alloc, world, method) {
        Ok(typed) => Ok(typed.code),
        Err(Stop::Refused(_fault)) => Ok(Items::new(alloc)),
        Err(Stop::NoMemory) => Err(AllocError),
    }
}

/// The calls of a pair of this number, whose class has this file.
fn calls_in_class(
    alloc: Global,
    s: &Setting<'_, '_>,
    pairs: &Pairs,
    number: u32,
    pair: Pair,
    file: &Class<'_>,
) -> Result<Vec<Call>, NoMemory>
    requires { length pairs.now ≤ 1048577 }
    ensures { IfOk result (λ calls. calls.items ≡ calls_by_file s.now pairs.now number pair (Some file.now)) }
{
    let at = code_at(file, pair.method.n);
    let site = Site { number, pair, at };
    let code = code_of(alloc, s.world, pair.method)?;
    calls_in_code(alloc, s, pairs, site, file, code.as_slice())
}

/// The calls of the pair of this number.
#[tactic(auto, unfolding(crate::specs::Calls::calls_in))]
fn calls_in(
    alloc: Global,
    s: &Setting<'_, '_>,
    pairs: &Pairs,
    number: u32,
) -> Result<Vec<Call>, NoMemory>
    requires { length pairs.now ≤ 1048577 }
    ensures { IfOk result (λ calls. calls.items ≡ calls_in s.now pairs.now number) }
{
    let Some(pair) = pairs.get(number as usize) else {
        return Ok(Vec::new(alloc));
    };
    match s.world.get(pair.method.class) {
        Some(file) => calls_in_class(alloc, s, pairs, number, pair, file),
        None => Ok(Vec::new(alloc)),
    }
}

/// The pairs that these calls run.
fn targets_in(alloc: Global, calls: &[Call]) -> Result<Items<u32>, NoMemory>
    ensures { IfOk result (λ targets. targets ≡ flat_map (λ call. call.place.targets) calls.now) }
{
    let mut targets = Items::new(alloc);
    for call in calls {
        targets.append(Items::from_slice(alloc, call.place.targets.as_slice())?)?;
    }
    Ok(targets)
}

/// Moves calls behind others.
fn append(calls: &mut Vec<Call>, more: Vec<Call>) -> Result<(), NoMemory>
    ensures { OnOk result (calls.new.items ≡ calls.old.items ++ more.items) }
{
    let mut more = more;
    calls.append(&mut more)?;
    Ok(())
}

/// The calls of all pairs in reach order, and the pairs that each pair runs.
pub fn calls_of(alloc: Global, s: &Setting<'_, '_>, pairs: &Pairs) -> Result<Calls, NoMemory>
    requires { length pairs.now ≤ 1048577 }
    ensures calls { IfOk result (λ all. all.calls.items ≡ calls_of s.now pairs.now) }
    ensures edges { IfOk result (λ all. all.edges ≡ edges_of s.now pairs.now) }
{
    let mut calls = Vec::new(alloc);
    let mut edges = Items::new(alloc);
    for number in 0..pairs.len() {
        let more = calls_in(alloc, s, pairs, number as u32)?;
        edges.push(targets_in(alloc, more.as_slice())?)?;
        append(&mut calls, more)?;
    }
    Ok(Calls { calls, edges })
}

/// The places of calls.
pub fn places_of(alloc: Global, calls: Vec<Call>) -> Result<Items<CallPlace>, NoMemory>
    ensures { IfOk result (λ places. places ≡ places_of calls.items) }
{
    let mut places = Items::new(alloc);
    for call in calls {
        places.push(call.place)?;
    }
    Ok(places)
}
