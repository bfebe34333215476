//! The instructions in the order of their opcodes (JVMS 7).

ghost use Rattle.std.specs.Prelude.{◌≡◌, map, slice_get};
ghost use Rattle.std.specs.Option.{option_map};
ghost use Rattle.jcode.specs.Opcodes.{opcodes};
ghost use Rattle.jcode.specs.Rows.{form_of};

use crate::op::Test;
use crate::row::{Arithmetic, Jump, Local, Named, Plain, Row};
use jnames::Shape;

/// The row of each opcode.
static ROWS: [Row; 202] = [
    Row::Alone(Plain::Nop), // 0 nop
    Row::Alone(Plain::Null), // 1 aconst_null
    Row::Int(-1), // 2 iconst_m1
    Row::Int(0), // 3 iconst_0
    Row::Int(1), // 4 iconst_1
    Row::Int(2), // 5 iconst_2
    Row::Int(3), // 6 iconst_3
    Row::Int(4), // 7 iconst_4
    Row::Int(5), // 8 iconst_5
    Row::Long(0), // 9 lconst_0
    Row::Long(1), // 10 lconst_1
    Row::Outside, // 11 fconst_0
    Row::Outside, // 12 fconst_1
    Row::Outside, // 13 fconst_2
    Row::Outside, // 14 dconst_0
    Row::Outside, // 15 dconst_1
    Row::Byte, // 16 bipush
    Row::Short, // 17 sipush
    Row::IntConstant, // 18 ldc
    Row::IntConstantWide, // 19 ldc_w
    Row::LongConstant, // 20 ldc2_w
    Row::Slot(Local::LoadI), // 21 iload
    Row::Slot(Local::LoadL), // 22 lload
    Row::OutsideLocal, // 23 fload
    Row::OutsideLocal, // 24 dload
    Row::Slot(Local::LoadA), // 25 aload
    Row::SlotAt(Local::LoadI, 0), // 26 iload_0
    Row::SlotAt(Local::LoadI, 1), // 27 iload_1
    Row::SlotAt(Local::LoadI, 2), // 28 iload_2
    Row::SlotAt(Local::LoadI, 3), // 29 iload_3
    Row::SlotAt(Local::LoadL, 0), // 30 lload_0
    Row::SlotAt(Local::LoadL, 1), // 31 lload_1
    Row::SlotAt(Local::LoadL, 2), // 32 lload_2
    Row::SlotAt(Local::LoadL, 3), // 33 lload_3
    Row::Outside, // 34 fload_0
    Row::Outside, // 35 fload_1
    Row::Outside, // 36 fload_2
    Row::Outside, // 37 fload_3
    Row::Outside, // 38 dload_0
    Row::Outside, // 39 dload_1
    Row::Outside, // 40 dload_2
    Row::Outside, // 41 dload_3
    Row::SlotAt(Local::LoadA, 0), // 42 aload_0
    Row::SlotAt(Local::LoadA, 1), // 43 aload_1
    Row::SlotAt(Local::LoadA, 2), // 44 aload_2
    Row::SlotAt(Local::LoadA, 3), // 45 aload_3
    Row::LoadItem(Shape::Int), // 46 iaload
    Row::LoadItem(Shape::Long), // 47 laload
    Row::Outside, // 48 faload
    Row::Outside, // 49 daload
    Row::LoadItem(Shape::Class), // 50 aaload
    Row::LoadItem(Shape::Byte), // 51 baload
    Row::LoadItem(Shape::Char), // 52 caload
    Row::LoadItem(Shape::Short), // 53 saload
    Row::Slot(Local::StoreI), // 54 istore
    Row::Slot(Local::StoreL), // 55 lstore
    Row::OutsideLocal, // 56 fstore
    Row::OutsideLocal, // 57 dstore
    Row::Slot(Local::StoreA), // 58 astore
    Row::SlotAt(Local::StoreI, 0), // 59 istore_0
    Row::SlotAt(Local::StoreI, 1), // 60 istore_1
    Row::SlotAt(Local::StoreI, 2), // 61 istore_2
    Row::SlotAt(Local::StoreI, 3), // 62 istore_3
    Row::SlotAt(Local::StoreL, 0), // 63 lstore_0
    Row::SlotAt(Local::StoreL, 1), // 64 lstore_1
    Row::SlotAt(Local::StoreL, 2), // 65 lstore_2
    Row::SlotAt(Local::StoreL, 3), // 66 lstore_3
    Row::Outside, // 67 fstore_0
    Row::Outside, // 68 fstore_1
    Row::Outside, // 69 fstore_2
    Row::Outside, // 70 fstore_3
    Row::Outside, // 71 dstore_0
    Row::Outside, // 72 dstore_1
    Row::Outside, // 73 dstore_2
    Row::Outside, // 74 dstore_3
    Row::SlotAt(Local::StoreA, 0), // 75 astore_0
    Row::SlotAt(Local::StoreA, 1), // 76 astore_1
    Row::SlotAt(Local::StoreA, 2), // 77 astore_2
    Row::SlotAt(Local::StoreA, 3), // 78 astore_3
    Row::StoreItem(Shape::Int), // 79 iastore
    Row::StoreItem(Shape::Long), // 80 lastore
    Row::Outside, // 81 fastore
    Row::Outside, // 82 dastore
    Row::StoreItem(Shape::Class), // 83 aastore
    Row::StoreItem(Shape::Byte), // 84 bastore
    Row::StoreItem(Shape::Char), // 85 castore
    Row::StoreItem(Shape::Short), // 86 sastore
    Row::Alone(Plain::Pop), // 87 pop
    Row::Alone(Plain::Pop2), // 88 pop2
    Row::Alone(Plain::Dup), // 89 dup
    Row::Alone(Plain::DupX1), // 90 dup_x1
    Row::Alone(Plain::DupX2), // 91 dup_x2
    Row::Alone(Plain::Dup2), // 92 dup2
    Row::Alone(Plain::Dup2X1), // 93 dup2_x1
    Row::Alone(Plain::Dup2X2), // 94 dup2_x2
    Row::Alone(Plain::Swap), // 95 swap
    Row::Number(Arithmetic::Add, false), // 96 iadd
    Row::Number(Arithmetic::Add, true), // 97 ladd
    Row::Outside, // 98 fadd
    Row::Outside, // 99 dadd
    Row::Number(Arithmetic::Sub, false), // 100 isub
    Row::Number(Arithmetic::Sub, true), // 101 lsub
    Row::Outside, // 102 fsub
    Row::Outside, // 103 dsub
    Row::Number(Arithmetic::Mul, false), // 104 imul
    Row::Number(Arithmetic::Mul, true), // 105 lmul
    Row::Outside, // 106 fmul
    Row::Outside, // 107 dmul
    Row::Number(Arithmetic::Div, false), // 108 idiv
    Row::Number(Arithmetic::Div, true), // 109 ldiv
    Row::Outside, // 110 fdiv
    Row::Outside, // 111 ddiv
    Row::Number(Arithmetic::Rem, false), // 112 irem
    Row::Number(Arithmetic::Rem, true), // 113 lrem
    Row::Outside, // 114 frem
    Row::Outside, // 115 drem
    Row::Number(Arithmetic::Neg, false), // 116 ineg
    Row::Number(Arithmetic::Neg, true), // 117 lneg
    Row::Outside, // 118 fneg
    Row::Outside, // 119 dneg
    Row::Number(Arithmetic::Shl, false), // 120 ishl
    Row::Number(Arithmetic::Shl, true), // 121 lshl
    Row::Number(Arithmetic::Shr, false), // 122 ishr
    Row::Number(Arithmetic::Shr, true), // 123 lshr
    Row::Number(Arithmetic::Ushr, false), // 124 iushr
    Row::Number(Arithmetic::Ushr, true), // 125 lushr
    Row::Number(Arithmetic::And, false), // 126 iand
    Row::Number(Arithmetic::And, true), // 127 land
    Row::Number(Arithmetic::Or, false), // 128 ior
    Row::Number(Arithmetic::Or, true), // 129 lor
    Row::Number(Arithmetic::Xor, false), // 130 ixor
    Row::Number(Arithmetic::Xor, true), // 131 lxor
    Row::Increment, // 132 iinc
    Row::Alone(Plain::I2L), // 133 i2l
    Row::Outside, // 134 i2f
    Row::Outside, // 135 i2d
    Row::Alone(Plain::L2I), // 136 l2i
    Row::Outside, // 137 l2f
    Row::Outside, // 138 l2d
    Row::Outside, // 139 f2i
    Row::Outside, // 140 f2l
    Row::Outside, // 141 f2d
    Row::Outside, // 142 d2i
    Row::Outside, // 143 d2l
    Row::Outside, // 144 d2f
    Row::Alone(Plain::I2B), // 145 i2b
    Row::Alone(Plain::I2C), // 146 i2c
    Row::Alone(Plain::I2S), // 147 i2s
    Row::Alone(Plain::CompareL), // 148 lcmp
    Row::Outside, // 149 fcmpl
    Row::Outside, // 150 fcmpg
    Row::Outside, // 151 dcmpl
    Row::Outside, // 152 dcmpg
    Row::Branch(Jump::Zero(Test::Eq)), // 153 ifeq
    Row::Branch(Jump::Zero(Test::Ne)), // 154 ifne
    Row::Branch(Jump::Zero(Test::Lt)), // 155 iflt
    Row::Branch(Jump::Zero(Test::Ge)), // 156 ifge
    Row::Branch(Jump::Zero(Test::Gt)), // 157 ifgt
    Row::Branch(Jump::Zero(Test::Le)), // 158 ifle
    Row::Branch(Jump::Int(Test::Eq)), // 159 if_icmpeq
    Row::Branch(Jump::Int(Test::Ne)), // 160 if_icmpne
    Row::Branch(Jump::Int(Test::Lt)), // 161 if_icmplt
    Row::Branch(Jump::Int(Test::Ge)), // 162 if_icmpge
    Row::Branch(Jump::Int(Test::Gt)), // 163 if_icmpgt
    Row::Branch(Jump::Int(Test::Le)), // 164 if_icmple
    Row::Branch(Jump::Ref(true)), // 165 if_acmpeq
    Row::Branch(Jump::Ref(false)), // 166 if_acmpne
    Row::Branch(Jump::Always), // 167 goto
    Row::Outside, // 168 jsr
    Row::OutsideLocal, // 169 ret
    Row::TableSwitch, // 170 tableswitch
    Row::LookupSwitch, // 171 lookupswitch
    Row::Alone(Plain::ReturnI), // 172 ireturn
    Row::Alone(Plain::ReturnL), // 173 lreturn
    Row::Outside, // 174 freturn
    Row::Outside, // 175 dreturn
    Row::Alone(Plain::ReturnA), // 176 areturn
    Row::Alone(Plain::Return), // 177 return
    Row::Entry(Named::GetStatic), // 178 getstatic
    Row::Entry(Named::PutStatic), // 179 putstatic
    Row::Entry(Named::GetField), // 180 getfield
    Row::Entry(Named::PutField), // 181 putfield
    Row::Entry(Named::InvokeVirtual), // 182 invokevirtual
    Row::Entry(Named::InvokeSpecial), // 183 invokespecial
    Row::Entry(Named::InvokeStatic), // 184 invokestatic
    Row::InvokeInterface, // 185 invokeinterface
    Row::Outside, // 186 invokedynamic
    Row::Entry(Named::New), // 187 new
    Row::NewArray, // 188 newarray
    Row::Entry(Named::NewRefs), // 189 anewarray
    Row::Alone(Plain::ArrayLength), // 190 arraylength
    Row::Alone(Plain::Throw), // 191 athrow
    Row::Entry(Named::CheckCast), // 192 checkcast
    Row::Entry(Named::InstanceOf), // 193 instanceof
    Row::Outside, // 194 monitorenter
    Row::Outside, // 195 monitorexit
    Row::Wide, // 196 wide
    Row::Outside, // 197 multianewarray
    Row::Branch(Jump::Null(true)), // 198 ifnull
    Row::Branch(Jump::Null(false)), // 199 ifnonnull
    Row::FarGoto, // 200 goto_w
    Row::Outside, // 201 jsr_w
];

fn copied_at(rows: &[Row], place: usize) -> Option<Row>
    ensures { result ≡ slice_get rows.now place }
{
    rows.get(place).copied()
}

fn row_at(rows: &[Row], place: usize) -> Option<Row>
    requires { map form_of rows.now ≡ opcodes }
    ensures { option_map form_of result ≡ slice_get opcodes place }
{
    copied_at(rows, place)
}

/// The row of an opcode, or None where no instruction has it.
pub fn row_of(opcode: u8) -> Option<Row>
    ensures { option_map form_of result ≡ slice_get opcodes opcode }
{
    row_at(&ROWS, usize::from(opcode))
}
