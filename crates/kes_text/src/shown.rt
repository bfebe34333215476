ghost use Rattle.std.specs.Prelude.{◌≡◌, IfOk};
ghost use Rattle.percent_encoding.specs.Percent.{percent_decode};
ghost use Rattle.kes_text.specs.Shown.{shown};

use crate::refusal::NoMemory;
use percent_encoding::{AsciiSet, CONTROLS, ascii_set, percent_encode};
use std::alloc::Global;

/// The ASCII bytes that are not shown as they are.
const ESCAPED: AsciiSet = ascii_set!(CONTROLS.add(b' ').add(b'%'));

/// A name as it is shown: each byte outside 0x21 to 0x7E, and `%`, as `%` and two upper-case
/// hexadecimal digits.
pub fn escape(alloc: Global, name: &[u8]) -> Result<Vec<u8>, NoMemory>
    ensures text { IfOk result (λ text. text.items ≡ shown name.now) }

    // What is shown gives the name again, so names that are shown alike are equal.
    ensures back { IfOk result (λ text. percent_decode text.items ≡ name.now) }
{
    let mut text = String::new(alloc);
    percent_encode(name, ESCAPED).append_to(&mut text)?;
    Ok(text.into_bytes())
}
