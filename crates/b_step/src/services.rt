//! Calls of services of the kernel.

ghost use Rattle.std.specs.Prelude.{◌≡◌, false, IfOk, IfSome};
ghost use Rattle.actions.specs.declared.action.Action.TheVariants as action;
ghost use Rattle.b_step.specs.Known.{Calls, Serves};
ghost use Rattle.b_step.specs.Ends.{may_end, PutsZero};
ghost use Rattle.b_step.specs.Executed.{Leaves, Shows};
ghost use Rattle.b_step.specs.Services.{whole, bits_at, timed, timed_on, timed_call, serve};

use crate::domain::Domain;
use crate::done::Done;
use crate::receivers::int_of;
use b_frame::Frame;
use kconfig::Service;
use kes_text::NoMemory;
use osek_core::Call;
use values::Value;

/// The call of a service that takes no numbers.
fn whole(service: Service) -> Option<Call>
    ensures call { result ≡ whole service }
    ensures known { IfSome result (Calls service) }
{
    match service {
        Service::ActivateTask { task } => Some(Call::ActivateTask { task }),
        Service::TerminateTask => Some(Call::TerminateTask),
        Service::ChainTask { task } => Some(Call::ChainTask { task }),
        Service::Schedule => Some(Call::Schedule),
        Service::GetResource { resource } => Some(Call::GetResource { resource }),
        Service::ReleaseResource { resource } => Some(Call::ReleaseResource { resource }),
        Service::SetEvent { task, mask } => Some(Call::SetEvent { task, mask }),
        Service::ClearEvent { mask } => Some(Call::ClearEvent { mask }),
        Service::GetEvent { task } => Some(Call::GetEvent { task }),
        Service::WaitEvent { mask } => Some(Call::WaitEvent { mask }),
        Service::CancelAlarm { alarm } => Some(Call::CancelAlarm { alarm }),
        Service::GetAlarm { alarm } => Some(Call::GetAlarm { alarm }),
        Service::SetRelAlarm { .. } | Service::SetAbsAlarm { .. } => None,
    }
}

/// The number of an operand without its sign.
fn bits_at(frame: &Frame, depth: usize) -> Option<u32>
    ensures { result ≡ bits_at frame.now depth }
{
    let operand = frame.operands.at(depth)?;
    let number = int_of(operand)?;
    Some(number.cast_unsigned())
}

/// The call of a service that takes two numbers.
fn timed(service: Service, first: u32, cycle: u32) -> Option<Call>
    ensures call { result ≡ timed service first cycle }
    ensures known { IfSome result (Calls service) }
    ensures ends { IfSome result (λ call. may_end call ≡ false) }
{
    match service {
        Service::SetRelAlarm { alarm } => Some(Call::SetRelAlarm {
            alarm,
            first,
            cycle,
        }),
        Service::SetAbsAlarm { alarm } => Some(Call::SetAbsAlarm {
            alarm,
            first,
            cycle,
        }),
        _ => None,
    }
}

/// The call of a service on the two numbers on the top.
fn timed_on(frame: &Frame, service: Service) -> Option<Call>
    ensures call { result ≡ timed_on service frame.now }
    ensures known { IfSome result (Calls service) }
    ensures ends { IfSome result (λ call. may_end call ≡ false) }
{
    let first = bits_at(frame, 1)?;
    let cycle = bits_at(frame, 0)?;
    timed(service, first, cycle)
}

/// A call of a service on the two numbers on the top, in whose place a 0 stands then.
fn timed_call(domain: &Domain, frame: &mut Frame, service: Service) -> Done
    ensures leaves { Leaves (timed_call service frame.old) frame.old domain.now result frame.new domain.now }
    ensures known { Serves (action.Service service) result }
    ensures ends { PutsZero frame.old result frame.new }
{
    let Some(call) = timed_on(frame, service) else {
        return Done::Undefined;
    };
    match frame.operands.at(1) {
        Some(_) => {
            frame.operands.replace(2, Value::Int(0));
            Done::Serve(call)
        }
        None => Done::Undefined,
    }
}

/// A call of a service. A 0 stands where its answer will.
pub fn serve(domain: &Domain, frame: &mut Frame, service: Service) -> Result<Done, NoMemory>
    ensures shows { Shows (serve service frame.old) frame.old domain.now result frame.new domain.now }
    ensures known { IfOk result (Serves (action.Service service)) }
    ensures ends { IfOk result (λ ends. PutsZero frame.old ends frame.new) }
{
    match whole(service) {
        Some(call) => {
            frame.push(Value::Int(0))?;
            Ok(Done::Serve(call))
        }
        None => Ok(timed_call(domain, frame, service)),
    }
}
