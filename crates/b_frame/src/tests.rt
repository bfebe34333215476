use super::*;
use jcode::{Op, Test};
use osek_core::FailKind;
use sqlite_items::Items;
use std::alloc::{AllocError, Global};
use std::test::Fail;
use values::Value;

/// A frame of four locals with these operands.
fn frame_with(alloc: Global, operands: &[Value]) -> Result<Frame, AllocError> {
    let mut frame = Frame::new(alloc, 4, 6)?;
    for value in operands {
        frame.push(*value)?;
    }
    Ok(frame)
}

/// How an instruction ends on a frame with these operands, and its three topmost operands then.
fn step_on(
    alloc: Global,
    op: &Op,
    operands: &[Value],
) -> Result<(Outcome, [Option<Value>; 3]), AllocError> {
    let mut frame = frame_with(alloc, operands)?;
    let outcome = frame.local_step(op)?;
    let tops = [
        frame.operands.at(0),
        frame.operands.at(1),
        frame.operands.at(2),
    ];
    Ok((outcome, tops))
}

#[test]
fn frames_hold_values(rt: HostRuntime) -> Result<(), Fail> {
    let mut frame = Frame::new(rt.alloc(), 2, 2)?;
    assert_eq!(rt; frame.local(1), Some(Value::Int(0)));
    assert_eq!(rt; frame.local(2), None);
    assert_eq!(rt; frame.set_local(1, Value::Long(7)), true);
    assert_eq!(rt; frame.set_local(2, Value::Null), false);
    assert_eq!(rt; frame.local(1), Some(Value::Long(7)));
    frame.push(Value::Object(4))?;
    frame.push(Value::Int(9))?;
    assert_eq!(rt; frame.top(), Some(Value::Int(9)));
    assert_eq!(rt; frame.top_two(), Some((Value::Object(4), Value::Int(9))));
    assert_eq!(rt; frame.pop(), Some(Value::Int(9)));
    frame.discard(5);
    assert_eq!(rt; frame.pop(), None);
    Ok(())
}

#[test]
fn arguments_take_slots(rt: HostRuntime) -> Result<(), Fail> {
    let operands = [Value::Null, Value::Int(1), Value::Long(9), Value::Object(4)];
    let mut caller = frame_with(rt.alloc(), &operands)?;
    let called = caller.take_arguments(rt.alloc(), 3, 5, 2)?;
    assert_eq!(rt; caller.operands.len(), 1);
    assert_eq!(rt; caller.top(), Some(Value::Null));
    if let Some(callee) = called {
        assert_eq!(rt; callee.local(0), Some(Value::Int(1)));
        assert_eq!(rt; callee.local(1), Some(Value::Long(9)));
        assert_eq!(rt; callee.local(3), Some(Value::Object(4)));
        assert_eq!(rt; callee.local(4), Some(Value::Int(0)));
        assert_eq!(rt; callee.top(), None);
    }
    Ok(())
}

#[test]
fn too_few_arguments_stay(rt: HostRuntime) -> Result<(), Fail> {
    let mut caller = frame_with(rt.alloc(), &[Value::Null])?;
    let called = caller.take_arguments(rt.alloc(), 2, 5, 2)?;
    assert_eq!(rt; called.is_none(), true);
    assert_eq!(rt; caller.top(), Some(Value::Null));
    Ok(())
}

#[test]
fn numbers_give_way_to_results(rt: HostRuntime) -> Result<(), Fail> {
    let two = [Value::Null, Value::Int(7), Value::Int(-2)];
    for (op, answer) in [
        (Op::Add { wide: false }, 5),
        (Op::Sub { wide: false }, 9),
        (Op::Mul { wide: false }, -14),
        (Op::Div { wide: false }, -3),
        (Op::Rem { wide: false }, 1),
        (Op::Shl { wide: false }, -1_073_741_824),
        (Op::Shr { wide: false }, 0),
        (Op::And { wide: false }, 6),
        (Op::Or { wide: false }, -1),
        (Op::Xor { wide: false }, -7),
    ] {
        let (outcome, tops) = step_on(rt.alloc(), &op, &two)?;
        assert_eq!(rt; outcome, Outcome::Next);
        assert_eq!(rt; tops, [Some(Value::Int(answer)), Some(Value::Null), None]);
    }
    Ok(())
}

#[test]
fn operands_come_once_more(rt: HostRuntime) -> Result<(), Fail> {
    let two = [Value::Int(1), Value::Object(2)];
    let (outcome, tops) = step_on(rt.alloc(), &Op::DupX1, &two)?;
    assert_eq!(rt; outcome, Outcome::Next);
    assert_eq!(rt; tops, [Some(two[1]), Some(two[0]), Some(two[1])]);
    let longs = [Value::Long(5), Value::Long(6)];
    let (_, tops) = step_on(rt.alloc(), &Op::Dup2X2, &longs)?;
    assert_eq!(rt; tops, [Some(longs[1]), Some(longs[0]), Some(longs[1])]);
    let (_, tops) = step_on(rt.alloc(), &Op::Dup2X1, &[Value::Null, two[0], two[1]])?;
    assert_eq!(rt; tops, [Some(two[1]), Some(two[0]), Some(Value::Null)]);
    let (_, tops) = step_on(rt.alloc(), &Op::Swap, &two)?;
    assert_eq!(rt; tops, [Some(two[0]), Some(two[1]), None]);
    Ok(())
}

#[test]
fn outcomes_are_told(rt: HostRuntime) -> Result<(), Fail> {
    let zero = [Value::Long(1), Value::Long(0)];
    let (outcome, tops) = step_on(rt.alloc(), &Op::Rem { wide: true }, &zero)?;
    assert_eq!(rt; outcome, Outcome::Fails(FailKind::DivZero));
    assert_eq!(rt; tops, [Some(Value::Long(0)), Some(Value::Long(1)), None]);
    let less = Op::IfInt {
        test: Test::Lt,
        to: 9,
    };
    let (outcome, tops) = step_on(rt.alloc(), &less, &[Value::Int(1), Value::Int(2)])?;
    assert_eq!(rt; outcome, Outcome::Jump(9));
    assert_eq!(rt; tops, [None, None, None]);
    let (outcome, _) = step_on(rt.alloc(), &less, &zero)?;
    assert_eq!(rt; outcome, Outcome::Undefined);
    let (outcome, _) = step_on(rt.alloc(), &Op::ArrayLength, &[Value::Null])?;
    assert_eq!(rt; outcome, Outcome::Undefined);
    Ok(())
}

#[test]
fn switches_find_their_case(rt: HostRuntime) -> Result<(), Fail> {
    let cases = Items::from_slice(rt.alloc(), &[(-1, 10), (7, 20)])?;
    let choice = Op::Switch { cases, other: 30 };
    let (outcome, _) = step_on(rt.alloc(), &choice, &[Value::Int(7)])?;
    assert_eq!(rt; outcome, Outcome::Jump(20));
    let (outcome, _) = step_on(rt.alloc(), &choice, &[Value::Int(8)])?;
    assert_eq!(rt; outcome, Outcome::Jump(30));
    Ok(())
}
