ghost use Rattle.std.specs.Prelude.{◌≡◌, ◌++◌, IfOk, OnOk, decimal, codes};
ghost use Rattle.keso_cli.specs.Summary.{summary_text, count_line};

use first_form::Summary;
use kes_text::{NoMemory, append_decimal};
use std::alloc::Global;

fn append_count(out: &mut Vec<u8>, what: &str, number: u64) -> Result<(), NoMemory>
    ensures { OnOk result (out.new.items ≡ out.old.items ++ count_line what.now number) }
{
    out.extend_from_slice(what.as_bytes())?;
    append_decimal(out, number)?;
    out.extend_from_slice(b"\n")
}

/// The four lines of a build.
pub fn summary_lines(alloc: Global, summary: Summary) -> Result<Vec<u8>, NoMemory>
    ensures { IfOk result (λ text. text.items ≡ summary_text summary) }
{
    let mut text = Vec::new(alloc);
    append_count(&mut text, "methods ", summary.methods)?;
    append_count(&mut text, "checks kept ", summary.checks_kept)?;
    append_count(&mut text, "checks removed ", summary.checks_removed)?;
    append_count(&mut text, "direct calls ", summary.direct_calls)?;
    Ok(text)
}
