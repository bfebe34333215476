use std::alloc::{AllocError, AllocFailed};

/// Want of memory.
pub type NoMemory = AllocError;

/// Why an input is refused.
#[derive(Clone, Copy, Debug, PartialEq, Eq)]
pub enum Kind {
    Truncated,
    Magic,
    Version,
    PoolTag,
    CodeLength,
    AttrLength,
    CodeCount,
    TwoMembers,
    Trailing,
    PoolIndex,
    BadDescriptor,
    Duplicate,
    MissingClass,
    SuperKind,
    SuperCycle,
    SplitPackage,
    Syntax,
    Range,
    Room,
    Twice,
    Unknown,
    NoEntry,
    BadNative,
    BadMapped,
    BadPortal,
    Handlers,
    Synchronized,
    Opcode,
    Unsupported,
    Operand,
    SwitchTable,
    Jump,
    FrameTag,
    FrameEnd,
    FrameItem,
    FramePlace,
    Typing,
    NoMember,
    FloatMember,
    ArrayMethod,
    BadNew,
    Unbound,
    InterfaceCode,
    OwnPortal,
    NoTarget,
    AtStart,
    AtRoutine,
    Recursive,
    Large,
    Unreached,
    NoFrames,
    StartDevice,
    StartFail,
    StartLong,
    TooMany,
    TooDeep,
    Label,
    Word,
    Callee,
    Region,
    Section,
    Falls,
    Cycle,
    Disagree,
    /// The input is lawful and this version does not compile it yet.
    Later,
}

impl Kind {
    ghost use Rattle.std.specs.Prelude.{◌≡◌};
    ghost use Rattle.kes_text.specs.KindName.{kind_name};

    /// The word that a refusal's line has for the kind.
    pub fn name(self) -> &'static str
        ensures { result.now ≡ kind_name self }
    {
        match self {
            Kind::Truncated => "Truncated",
            Kind::Magic => "Magic",
            Kind::Version => "Version",
            Kind::PoolTag => "PoolTag",
            Kind::CodeLength => "CodeLength",
            Kind::AttrLength => "AttrLength",
            Kind::CodeCount => "CodeCount",
            Kind::TwoMembers => "TwoMembers",
            Kind::Trailing => "Trailing",
            Kind::PoolIndex => "PoolIndex",
            Kind::BadDescriptor => "BadDescriptor",
            Kind::Duplicate => "Duplicate",
            Kind::MissingClass => "MissingClass",
            Kind::SuperKind => "SuperKind",
            Kind::SuperCycle => "SuperCycle",
            Kind::SplitPackage => "SplitPackage",
            Kind::Syntax => "Syntax",
            Kind::Range => "Range",
            Kind::Room => "Room",
            Kind::Twice => "Twice",
            Kind::Unknown => "Unknown",
            Kind::NoEntry => "NoEntry",
            Kind::BadNative => "BadNative",
            Kind::BadMapped => "BadMapped",
            Kind::BadPortal => "BadPortal",
            Kind::Handlers => "Handlers",
            Kind::Synchronized => "Synchronized",
            Kind::Opcode => "Opcode",
            Kind::Unsupported => "Unsupported",
            Kind::Operand => "Operand",
            Kind::SwitchTable => "SwitchTable",
            Kind::Jump => "Jump",
            Kind::FrameTag => "FrameTag",
            Kind::FrameEnd => "FrameEnd",
            Kind::FrameItem => "FrameItem",
            Kind::FramePlace => "FramePlace",
            Kind::Typing => "Typing",
            Kind::NoMember => "NoMember",
            Kind::FloatMember => "FloatMember",
            Kind::ArrayMethod => "ArrayMethod",
            Kind::BadNew => "BadNew",
            Kind::Unbound => "Unbound",
            Kind::InterfaceCode => "InterfaceCode",
            Kind::OwnPortal => "OwnPortal",
            Kind::NoTarget => "NoTarget",
            Kind::AtStart => "AtStart",
            Kind::AtRoutine => "AtRoutine",
            Kind::Recursive => "Recursive",
            Kind::Large => "Large",
            Kind::Unreached => "Unreached",
            Kind::NoFrames => "NoFrames",
            Kind::StartDevice => "StartDevice",
            Kind::StartFail => "StartFail",
            Kind::StartLong => "StartLong",
            Kind::TooMany => "TooMany",
            Kind::TooDeep => "TooDeep",
            Kind::Label => "Label",
            Kind::Word => "Word",
            Kind::Callee => "Callee",
            Kind::Region => "Region",
            Kind::Section => "Section",
            Kind::Falls => "Falls",
            Kind::Cycle => "Cycle",
            Kind::Disagree => "Disagree",
            Kind::Later => "Later",
        }
    }
}

/// Which file is refused, why, and at which place: a byte of a class file from 0, or a line of a text
/// from 1.
#[derive(Clone, Copy, Debug, PartialEq, Eq)]
pub struct Refusal {
    pub file: u32,
    pub kind: Kind,
    pub at: u64,
}

/// Why no answer was made.
#[derive(Clone, Copy, Debug, PartialEq, Eq)]
pub enum Stop {
    Refused(Refusal),
    NoMemory,
}

impl From<NoMemory> for Stop {
    ghost use Rattle.std.specs.Prelude.{◌≡◌};
    ghost use Rattle.kes_text.specs.declared.refusal.Stop.TheVariants as stop;

    ghost from_gives = { λ _ s. s ≡ stop.NoMemory };

    fn from(_error: NoMemory) -> Stop {
        Stop::NoMemory
    }
}

impl<T: Drop> From<AllocFailed<T>> for Stop {
    ghost use Rattle.std.specs.Prelude.{◌≡◌};
    ghost use Rattle.kes_text.specs.declared.refusal.Stop.TheVariants as stop;

    ghost from_gives = { λ _ s. s ≡ stop.NoMemory };

    fn from(_error: AllocFailed<T>) -> Stop {
        Stop::NoMemory
    }
}
