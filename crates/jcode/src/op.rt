use jnames::Shape;
use sqlite_items::Items;

/// How two numbers, or a number and 0, are compared.
#[derive(Clone, Copy, Debug, PartialEq, Eq)]
pub enum Test {
    Eq,
    Ne,
    Lt,
    Ge,
    Gt,
    Le,
}

/// What an instruction does (JVMS 6.5), whichever way it is spelled. A `slot` is the number of a local
/// variable, an `index` one of the constant pool, and a `to` the place of an instruction in the code, in
/// bytes. `wide` says that an operation on numbers is that on long, and not that on int.
#[derive(Drop)]
pub enum Op {
    Nop,
    Null,
    Const4 {
        value: i32,
    },
    Const8 {
        value: i64,
    },
    LoadI {
        slot: u16,
    },
    LoadL {
        slot: u16,
    },
    LoadA {
        slot: u16,
    },
    StoreI {
        slot: u16,
    },
    StoreL {
        slot: u16,
    },
    StoreA {
        slot: u16,
    },
    Inc {
        slot: u16,
        by: i16,
    },
    /// Of an array of references the shape is `Class`, and of a boolean one `Byte`.
    ArrayLoad {
        shape: Shape,
    },
    /// Of an array of references the shape is `Class`, and of a boolean one `Byte`.
    ArrayStore {
        shape: Shape,
    },
    Pop,
    Pop2,
    Dup,
    DupX1,
    DupX2,
    Dup2,
    Dup2X1,
    Dup2X2,
    Swap,
    Add {
        wide: bool,
    },
    Sub {
        wide: bool,
    },
    Mul {
        wide: bool,
    },
    Div {
        wide: bool,
    },
    Rem {
        wide: bool,
    },
    Neg {
        wide: bool,
    },
    Shl {
        wide: bool,
    },
    Shr {
        wide: bool,
    },
    Ushr {
        wide: bool,
    },
    And {
        wide: bool,
    },
    Or {
        wide: bool,
    },
    Xor {
        wide: bool,
    },
    I2L,
    L2I,
    I2B,
    I2C,
    I2S,
    CompareL,
    IfZero {
        test: Test,
        to: u16,
    },
    IfInt {
        test: Test,
        to: u16,
    },
    IfRef {
        equal: bool,
        to: u16,
    },
    IfNull {
        null: bool,
        to: u16,
    },
    Goto {
        to: u16,
    },
    /// The cases rise; each has its number and where it goes.
    Switch {
        cases: Items<(i32, u16)>,
        other: u16,
    },
    ReturnI,
    ReturnL,
    ReturnA,
    Return,
    GetStatic {
        index: u16,
    },
    PutStatic {
        index: u16,
    },
    GetField {
        index: u16,
    },
    PutField {
        index: u16,
    },
    InvokeVirtual {
        index: u16,
    },
    InvokeSpecial {
        index: u16,
    },
    InvokeStatic {
        index: u16,
    },
    InvokeInterface {
        index: u16,
    },
    New {
        index: u16,
    },
    NewArray {
        shape: Shape,
    },
    /// The index is that of the elements' class.
    NewRefs {
        index: u16,
    },
    ArrayLength,
    Throw,
    CheckCast {
        index: u16,
    },
    InstanceOf {
        index: u16,
    },
}

/// An operation, and the place of its first byte in the code.
#[derive(Drop)]
pub struct Ins {
    pub pc: u16,
    pub op: Op,
}
