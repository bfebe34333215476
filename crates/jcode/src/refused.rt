//! Refusals of a code.

ghost use Rattle.std.specs.Prelude.{◌≡◌, ◌+◌, ◌-◌, ◌^◌, min};
ghost use Rattle.jcode.specs.Code.{kind_of, fault_place};
ghost use Rattle.kes_text.specs.declared.refusal.Stop.TheVariants as stop;

use crate::fault::Fault;
use kes_text::{Kind, Refusal, Stop};

/// The kind of refusal that a fault is.
pub fn kind_of(fault: Fault) -> Kind
    ensures { result ≡ kind_of fault }
{
    match fault {
        Fault::Opcode | Fault::WideOpcode => Kind::Opcode,
        Fault::Unsupported => Kind::Unsupported,
        Fault::Operand => Kind::Operand,
        Fault::SwitchTable => Kind::SwitchTable,
    }
}

/// Where a fault of the instruction at `pc` stands in the code.
pub fn fault_place(pc: u16, fault: Fault) -> usize
    ensures { result ≡ fault_place pc fault }
{
    match fault {
        Fault::WideOpcode => usize::from(pc) + 1,
        _ => usize::from(pc),
    }
}

/// The refusal at a place of the code that begins at `base`.
pub fn refused(base: u64, kind: Kind, place: usize) -> Stop
    ensures { result ≡ stop.Refused (record { file = 0; kind = kind; at = min (base + place) (2 ^ 64 - 1) }) }
{
    Stop::Refused(Refusal {
        file: 0,
        kind,
        at: base.saturating_add(place as u64),
    })
}
