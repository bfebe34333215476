//! Prints the declarations and the definitions of functions.

ghost use Rattle.std.specs.Prelude.{◌≡◌, ◌++◌, codes, flat_map, OnOk};
ghost use Rattle.std.specs.List.{enumerate_from, range_with_len};
ghost use Rattle.csubset.specs.Text.Names.{word_name};
ghost use Rattle.csubset.specs.Text.Program.{further_word, function_declaration, function_text, heading, parameters_text};

use crate::name::{append_function, append_word};
use crate::statement::{append_label_lines, append_statements};
use csubset::CFunction;
use kes_text::NoMemory;

pub fn append_declarations(out: &mut Vec<u8>, functions: &[CFunction]) -> Result<(), NoMemory>
    ensures { OnOk result (
        out.new.items ≡ out.old.items
        ++ flat_map (λ f. function_declaration f.0 f.1) (enumerate_from 0 functions.now)) }
{
    for (number, function) in functions.iter().enumerate() {
        append_declaration(out, number as u64, function)?;
    }
    Ok(())
}

pub fn append_definitions(out: &mut Vec<u8>, functions: &[CFunction]) -> Result<(), NoMemory>
    ensures { OnOk result (
        out.new.items ≡ out.old.items
        ++ flat_map (λ f. function_text f.0 f.1) (enumerate_from 0 functions.now)) }
{
    for (number, function) in functions.iter().enumerate() {
        append_definition(out, number as u64, function)?;
    }
    Ok(())
}

fn append_declaration(out: &mut Vec<u8>, number: u64, function: &CFunction) -> Result<(), NoMemory>
    ensures { OnOk result (
        out.new.items ≡ out.old.items ++ function_declaration number function.now) }
{
    append_heading(out, number, function)?;
    out.extend_from_slice(b";\n")
}

fn append_definition(out: &mut Vec<u8>, number: u64, function: &CFunction) -> Result<(), NoMemory>
    ensures { OnOk result (out.new.items ≡ out.old.items ++ function_text number function.now) }
{
    append_heading(out, number, function)?;
    out.extend_from_slice(b" {\n")?;
    append_further_words(out, function)?;
    append_statements(out, function.statements.as_slice())?;
    append_label_lines(out, function.end_labels.as_slice())?;
    out.extend_from_slice(b"}\n")
}

/// What a declaration and a definition begin with.
fn append_heading(out: &mut Vec<u8>, number: u64, function: &CFunction) -> Result<(), NoMemory>
    ensures { OnOk result (out.new.items ≡ out.old.items ++ heading number function.now) }
{
    out.extend_from_slice(b"static W ")?;
    append_function(out, number)?;
    out.extend_from_slice(b"(")?;
    append_parameters(out, function.parameters)?;
    out.extend_from_slice(b")")
}

fn append_parameters(out: &mut Vec<u8>, parameters: u32) -> Result<(), NoMemory>
    ensures { OnOk result (out.new.items ≡ out.old.items ++ parameters_text parameters) }
{
    if parameters == 0 {
        return out.extend_from_slice(b"void");
    }
    append_parameter(out, b"W ", 0)?;
    for word in 1..parameters {
        append_parameter(out, b", W ", word)?;
    }
    Ok(())
}

fn append_parameter(out: &mut Vec<u8>, before: &[u8], word: u32) -> Result<(), NoMemory>
    ensures { OnOk result (out.new.items ≡ out.old.items ++ (before.now ++ word_name word)) }
{
    out.extend_from_slice(before)?;
    append_word(out, u64::from(word))
}

fn append_further_words(out: &mut Vec<u8>, function: &CFunction) -> Result<(), NoMemory>
    ensures { OnOk result (
        out.new.items ≡ out.old.items
        ++ flat_map further_word (range_with_len function.now.parameters function.now.further)) }
{
    let first = u64::from(function.parameters);
    for word in first..first + u64::from(function.further) {
        append_further_word(out, word)?;
    }
    Ok(())
}

fn append_further_word(out: &mut Vec<u8>, word: u64) -> Result<(), NoMemory>
    ensures { OnOk result (out.new.items ≡ out.old.items ++ further_word word) }
{
    out.extend_from_slice(b"  W ")?;
    append_word(out, word)?;
    out.extend_from_slice(b" = 0ull;\n")
}
