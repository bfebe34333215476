//! Prints atoms and expressions.

ghost use Rattle.std.specs.Prelude.{◌≡◌, ◌++◌, codes, OnOk};
ghost use Rattle.std.specs.List.{join_by};
ghost use Rattle.csubset.specs.Text.Expressions.{atom_text, one_op_name, two_op_name, expression_text};

use crate::name::{append_number, append_word};
use csubset::{Atom, Expr, OneOp, TwoOp};
use kes_text::NoMemory;

pub fn append_atom(out: &mut Vec<u8>, atom: &Atom) -> Result<(), NoMemory>
    ensures { OnOk result (out.new.items ≡ out.old.items ++ atom_text atom.now) }
{
    match *atom {
        Atom::Word(word) => append_word(out, u64::from(word)),
        Atom::Number(number) => append_number(out, number),
    }
}

/// The atoms, with commas between them.
pub fn append_atoms(out: &mut Vec<u8>, atoms: &[Atom]) -> Result<(), NoMemory>
    ensures { OnOk result (
        out.new.items ≡ out.old.items ++ join_by atom_text (codes ", ") atoms.now) }
{
    let Some((first, others)) = atoms.split_first() else {
        return Ok(());
    };
    append_atom(out, first)?;
    for atom in others {
        out.extend_from_slice(b", ")?;
        append_atom(out, atom)?;
    }
    Ok(())
}

fn name_of_one(op: OneOp) -> &'static str
    ensures { result.now ≡ one_op_name op }
{
    match op {
        OneOp::Lo4 => "LO4",
        OneOp::Sx4 => "SX4",
        OneOp::Sb4 => "SB4",
        OneOp::Sh4 => "SH4",
        OneOp::Zb => "ZB",
        OneOp::Zh => "ZH",
    }
}

fn name_of_two(op: TwoOp) -> &'static str
    ensures { result.now ≡ two_op_name op }
{
    match op {
        TwoOp::Add8 => "ADD8",
        TwoOp::Sub8 => "SUB8",
        TwoOp::Mul8 => "MUL8",
        TwoOp::Add4 => "ADD4",
        TwoOp::Sub4 => "SUB4",
        TwoOp::Mul4 => "MUL4",
        TwoOp::Div8 => "DIV8",
        TwoOp::Rem8 => "REM8",
        TwoOp::Div4 => "DIV4",
        TwoOp::Rem4 => "REM4",
        TwoOp::Shl8 => "SHL8",
        TwoOp::Shr8 => "SHR8",
        TwoOp::Ushr8 => "USHR8",
        TwoOp::Shl4 => "SHL4",
        TwoOp::Shr4 => "SHR4",
        TwoOp::Ushr4 => "USHR4",
        TwoOp::And => "AND",
        TwoOp::Or => "OR",
        TwoOp::Xor => "XOR",
        TwoOp::Eq => "EQ",
        TwoOp::Ne => "NE",
        TwoOp::Ltu => "LTU",
        TwoOp::Lt8 => "LT8",
        TwoOp::Lt4 => "LT4",
        TwoOp::Cmp8 => "CMP8",
    }
}

pub fn append_expression(out: &mut Vec<u8>, expression: &Expr) -> Result<(), NoMemory>
    ensures { OnOk result (out.new.items ≡ out.old.items ++ expression_text expression.now) }
{
    match expression {
        Expr::Atom(atom) => append_atom(out, atom),
        Expr::One { op, a } => {
            out.extend_from_slice(name_of_one(*op).as_bytes())?;
            out.extend_from_slice(b"(")?;
            append_expression(out, a.get())?;
            out.extend_from_slice(b")")
        }
        Expr::Two { op, a, b } => {
            out.extend_from_slice(name_of_two(*op).as_bytes())?;
            out.extend_from_slice(b"(")?;
            append_expression(out, a.get())?;
            out.extend_from_slice(b", ")?;
            append_expression(out, b.get())?;
            out.extend_from_slice(b")")
        }
    }
}
