//! Prints statements and label lines.

ghost use Rattle.std.specs.Prelude.{◌≡◌, ◌++◌, codes, flat_map, OnOk};
ghost use Rattle.csubset.specs.Text.Names.{label_name};
ghost use Rattle.csubset.specs.Text.Statements.{case_text, form_text, label_line, statement_text, target_text};

use crate::expression::{append_atom, append_atoms, append_expression};
use crate::name::{append_function, append_label, append_number, append_region, append_word};
use crate::service::append_service;
use csubset::{Atom, CService, Expr, Form, Stmt};
use kes_text::{NoMemory, append_decimal};
use sqlite_items::Items;

pub fn append_statements(out: &mut Vec<u8>, statements: &[Stmt]) -> Result<(), NoMemory>
    ensures { OnOk result (
        out.new.items ≡ out.old.items ++ flat_map statement_text statements.now) }
{
    for statement in statements {
        append_statement(out, statement)?;
    }
    Ok(())
}

fn append_statement(out: &mut Vec<u8>, statement: &Stmt) -> Result<(), NoMemory>
    ensures { OnOk result (out.new.items ≡ out.old.items ++ statement_text statement.now) }
{
    append_label_lines(out, statement.labels.as_slice())?;
    out.extend_from_slice(b"  ")?;
    append_form(out, &statement.form)?;
    out.push(b'\n')?;
    Ok(())
}

pub fn append_label_lines(out: &mut Vec<u8>, labels: &[u32]) -> Result<(), NoMemory>
    ensures { OnOk result (out.new.items ≡ out.old.items ++ flat_map label_line labels.now) }
{
    for label in labels {
        append_label(out, *label)?;
        out.extend_from_slice(b":\n")?;
    }
    Ok(())
}

fn append_form(out: &mut Vec<u8>, form: &Form) -> Result<(), NoMemory>
    ensures { OnOk result (out.new.items ≡ out.old.items ++ form_text form.now) }
{
    match form {
        Form::Assign { to, value } => append_assignment(out, *to, value),
        Form::Load {
            to,
            bytes,
            region,
            at,
        } => append_load(out, *to, *bytes, *region, at),
        Form::Store {
            bytes,
            region,
            at,
            value,
        } => append_store(out, *bytes, *region, at, value),
        Form::DeviceLoad { to, bytes, at } => append_device_load(out, *to, *bytes, at),
        Form::DeviceStore { bytes, at, value } => append_device_store(out, *bytes, at, value),
        Form::Goto { label } => append_goto(out, *label),
        Form::If { test, label } => append_if(out, test, *label),
        Form::Switch { on, cases, other } => append_switch(out, on, cases, *other),
        Form::Call {
            to,
            function,
            arguments,
        } => append_call(out, *to, *function, arguments),
        Form::Return { value } => append_return(out, value),
        Form::Service { to, service } => append_service_call(out, *to, service),
        Form::Fail { number } => append_fail(out, *number),
        Form::Suspend => out.extend_from_slice(b"SUSPEND;"),
        Form::Resume => out.extend_from_slice(b"RESUME;"),
    }
}

/// The word that takes an answer, up to where the answer begins.
fn append_target(out: &mut Vec<u8>, to: u32) -> Result<(), NoMemory>
    ensures { OnOk result (out.new.items ≡ out.old.items ++ target_text to) }
{
    append_word(out, u64::from(to))?;
    out.extend_from_slice(b" = ")
}

fn append_assignment(out: &mut Vec<u8>, to: u32, value: &Expr) -> Result<(), NoMemory>
    ensures { OnOk result (out.new.items ≡ out.old.items ++ form_text (Form.Assign to value.now)) }
{
    append_target(out, to)?;
    append_expression(out, value)?;
    out.extend_from_slice(b";")
}

fn append_load(
    out: &mut Vec<u8>,
    to: u32,
    bytes: u8,
    region: u32,
    at: &Atom,
) -> Result<(), NoMemory>
    ensures { OnOk result (
        out.new.items ≡ out.old.items ++ form_text (Form.Load to bytes region at.now)) }
{
    append_target(out, to)?;
    out.extend_from_slice(b"LD")?;
    append_decimal(out, u64::from(bytes))?;
    out.extend_from_slice(b"(")?;
    append_region(out, u64::from(region))?;
    out.extend_from_slice(b", ")?;
    append_atom(out, at)?;
    out.extend_from_slice(b");")
}

fn append_store(
    out: &mut Vec<u8>,
    bytes: u8,
    region: u32,
    at: &Atom,
    value: &Atom,
) -> Result<(), NoMemory>
    ensures { OnOk result (
        out.new.items ≡ out.old.items ++ form_text (Form.Store bytes region at.now value.now)) }
{
    out.extend_from_slice(b"ST")?;
    append_decimal(out, u64::from(bytes))?;
    out.extend_from_slice(b"(")?;
    append_region(out, u64::from(region))?;
    out.extend_from_slice(b", ")?;
    append_atom(out, at)?;
    out.extend_from_slice(b", ")?;
    append_atom(out, value)?;
    out.extend_from_slice(b");")
}

fn append_device_load(out: &mut Vec<u8>, to: u32, bytes: u8, at: &Atom) -> Result<(), NoMemory>
    ensures { OnOk result (
        out.new.items ≡ out.old.items ++ form_text (Form.DeviceLoad to bytes at.now)) }
{
    append_target(out, to)?;
    out.extend_from_slice(b"DLD")?;
    append_decimal(out, u64::from(bytes))?;
    out.extend_from_slice(b"(")?;
    append_atom(out, at)?;
    out.extend_from_slice(b");")
}

fn append_device_store(
    out: &mut Vec<u8>,
    bytes: u8,
    at: &Atom,
    value: &Atom,
) -> Result<(), NoMemory>
    ensures { OnOk result (
        out.new.items ≡ out.old.items ++ form_text (Form.DeviceStore bytes at.now value.now)) }
{
    out.extend_from_slice(b"DST")?;
    append_decimal(out, u64::from(bytes))?;
    out.extend_from_slice(b"(")?;
    append_atom(out, at)?;
    out.extend_from_slice(b", ")?;
    append_atom(out, value)?;
    out.extend_from_slice(b");")
}

fn append_goto(out: &mut Vec<u8>, label: u32) -> Result<(), NoMemory>
    ensures { OnOk result (out.new.items ≡ out.old.items ++ form_text (Form.Goto label)) }
{
    out.extend_from_slice(b"goto ")?;
    append_label(out, label)?;
    out.extend_from_slice(b";")
}

fn append_if(out: &mut Vec<u8>, test: &Expr, label: u32) -> Result<(), NoMemory>
    ensures { OnOk result (out.new.items ≡ out.old.items ++ form_text (Form.If test.now label)) }
{
    out.extend_from_slice(b"if (")?;
    append_expression(out, test)?;
    out.extend_from_slice(b") goto ")?;
    append_label(out, label)?;
    out.extend_from_slice(b";")
}

fn append_switch(
    out: &mut Vec<u8>,
    on: &Atom,
    cases: &Items<(u64, u32)>,
    other: u32,
) -> Result<(), NoMemory>
    ensures { OnOk result (
        out.new.items ≡ out.old.items ++ form_text (Form.Switch on.now cases.now other)) }
{
    out.extend_from_slice(b"switch (")?;
    append_atom(out, on)?;
    out.extend_from_slice(b") { ")?;
    append_cases(out, cases.as_slice())?;
    append_default(out, other)
}

fn append_cases(out: &mut Vec<u8>, cases: &[(u64, u32)]) -> Result<(), NoMemory>
    ensures { OnOk result (out.new.items ≡ out.old.items ++ flat_map case_text cases.now) }
{
    for (number, label) in cases {
        out.extend_from_slice(b"case ")?;
        append_number(out, *number)?;
        out.extend_from_slice(b": goto ")?;
        append_label(out, *label)?;
        out.extend_from_slice(b"; ")?;
    }
    Ok(())
}

/// The end of a switch.
fn append_default(out: &mut Vec<u8>, label: u32) -> Result<(), NoMemory>
    ensures { OnOk result (
        out.new.items ≡ out.old.items
        ++ (codes "default: goto " ++ label_name label ++ codes "; }")) }
{
    out.extend_from_slice(b"default: goto ")?;
    append_label(out, label)?;
    out.extend_from_slice(b"; }")
}

fn append_call(
    out: &mut Vec<u8>,
    to: u32,
    function: u32,
    arguments: &Items<Atom>,
) -> Result<(), NoMemory>
    ensures { OnOk result (
        out.new.items ≡ out.old.items ++ form_text (Form.Call to function arguments.now)) }
{
    append_target(out, to)?;
    append_function(out, u64::from(function))?;
    out.extend_from_slice(b"(")?;
    append_atoms(out, arguments.as_slice())?;
    out.extend_from_slice(b");")
}

fn append_return(out: &mut Vec<u8>, value: &Atom) -> Result<(), NoMemory>
    ensures { OnOk result (out.new.items ≡ out.old.items ++ form_text (Form.Return value.now)) }
{
    out.extend_from_slice(b"return ")?;
    append_atom(out, value)?;
    out.extend_from_slice(b";")
}

fn append_service_call(out: &mut Vec<u8>, to: u32, service: &CService) -> Result<(), NoMemory>
    ensures { OnOk result (
        out.new.items ≡ out.old.items ++ form_text (Form.Service to service.now)) }
{
    append_target(out, to)?;
    append_service(out, service)?;
    out.extend_from_slice(b";")
}

fn append_fail(out: &mut Vec<u8>, number: u32) -> Result<(), NoMemory>
    ensures { OnOk result (out.new.items ≡ out.old.items ++ form_text (Form.Fail number)) }
{
    out.extend_from_slice(b"FAIL(")?;
    append_decimal(out, u64::from(number))?;
    out.extend_from_slice(b");")
}
