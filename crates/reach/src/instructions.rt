//! What the instructions of a method mention.

ghost use Rattle.std.specs.Prelude.{◌≡◌, OnOk};
ghost use Rattle.kes_text.specs.Answers.{OrNoMemory};
ghost use Rattle.kes_text.specs.declared.refusal.Stop.TheVariants.{Refused};
ghost use Rattle.mentions.specs.Mentioned.{mentioned};
ghost use Rattle.reach.specs.Methods.{place_of, called_at, with_called, gathered};

use classfile::Class;
use jcode::Ins;
use jworld::ClassId;
use kes_text::{Kind, NoMemory, Refusal, Stop};
use mentions::{Called, Setting, mentioned};
use reaching::Mention;
use std::alloc::Global;

/// The file is refused at a place.
pub fn refused(kind: Kind, at: u64) -> Stop
    ensures { result ≡ Refused (record { file = 0; kind = kind; at = at }) }
{
    Stop::Refused(Refusal { file: 0, kind, at })
}

/// Puts what an instruction mentions behind what was mentioned.
fn add(mention: &mut Mention, called: Called) -> Result<(), NoMemory>
    ensures { OnOk result (mention.new ≡ with_called mention.old called) }
{
    let targets = called.targets.len() as u64;
    mention.size = mention.size.saturating_add(targets.saturating_add(1));
    mention.pairs.append(called.initialisers)?;
    mention.pairs.append(called.targets)?;
    Ok(())
}

/// What an instruction of a code that begins at this place of its file mentions.
fn called_at(
    alloc: Global,
    s: &Setting<'_, '_>,
    domain: u32,
    own: ClassId,
    file: &Class<'_>,
    base: u64,
    ins: &Ins,
) -> Result<Called, Stop>
    ensures { OrNoMemory result (called_at (place_of base ins.now.pc) (mentioned s.now domain own.n file.now ins.now.op)) }
{
    match mentioned(alloc, s, domain, own, file, &ins.op)? {
        Ok(called) => Ok(called),
        Err(rule) => Err(refused(rule, base.saturating_add(u64::from(ins.pc)))),
    }
}

/// What these instructions mention, behind what was mentioned.
pub fn gathered(
    alloc: Global,
    s: &Setting<'_, '_>,
    domain: u32,
    own: ClassId,
    file: &Class<'_>,
    base: u64,
    first: Mention,
    code: &[Ins],
) -> Result<Mention, Stop>
    ensures { OrNoMemory result (gathered s.now domain own.n file.now base first code.now) }
{
    let mut mention = first;
    for ins in code {
        let called = called_at(alloc, s, domain, own, file, base, ins)?;
        add(&mut mention, called)?;
    }
    Ok(mention)
}
