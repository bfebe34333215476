//! Numbers, and the names of words, labels, regions and functions.

ghost use Rattle.std.specs.Prelude.{◌≡◌, ◌++◌, OnOk};
ghost use Rattle.csubset.specs.Text.Names.{function_name, label_name, number_text, region_name, word_name};

use kes_text::{NoMemory, append_decimal};

pub fn append_number(out: &mut Vec<u8>, number: u64) -> Result<(), NoMemory>
    ensures { OnOk result (out.new.items ≡ out.old.items ++ number_text number) }
{
    append_decimal(out, number)?;
    out.extend_from_slice(b"ull")
}

pub fn append_word(out: &mut Vec<u8>, word: u64) -> Result<(), NoMemory>
    ensures { OnOk result (out.new.items ≡ out.old.items ++ word_name word) }
{
    out.push(b'w')?;
    append_decimal(out, word)
}

pub fn append_label(out: &mut Vec<u8>, label: u32) -> Result<(), NoMemory>
    ensures { OnOk result (out.new.items ≡ out.old.items ++ label_name label) }
{
    out.push(b'L')?;
    append_decimal(out, u64::from(label))
}

pub fn append_region(out: &mut Vec<u8>, region: u64) -> Result<(), NoMemory>
    ensures { OnOk result (out.new.items ≡ out.old.items ++ region_name region) }
{
    out.push(b'r')?;
    append_decimal(out, region)
}

pub fn append_function(out: &mut Vec<u8>, function: u64) -> Result<(), NoMemory>
    ensures { OnOk result (out.new.items ≡ out.old.items ++ function_name function) }
{
    out.push(b'f')?;
    append_decimal(out, function)
}
