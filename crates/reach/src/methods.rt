//! What a method mentions in a domain.

ghost use Rattle.std.specs.Prelude.{◌≡◌, ◌-◌, IfOk, slice_get};
ghost use Rattle.kes_text.specs.Answers.{OrNoMemory};
ghost use Rattle.reach.specs.Methods.{at_first, of_code, by_method, by_file, in_file, mentions_of, method_place, too_large};
ghost use Rattle.jworld.specs.Classes.{file_of};

use crate::instructions::{gathered, refused};
use classfile::{Access, Class, Code};
use kes_text::{Kind, NoMemory, Refusal, Stop};
use mentions::Setting;
use method_typing::type_method;
use reaching::{Graph, Mention, Pair, Pairs};
use sqlite_items::Items;
use std::alloc::Global;

/// An application, with the entries of its tasks.
#[derive(Drop)]
pub struct Application<'a, 's, 'w> {
    pub setting: &'a Setting<'s, 'w>,
    pub entries: Pairs,
}

/// What a method mentions before its instructions do.
fn at_first(alloc: Global, app: &Application<'_, '_, '_>, pair: Pair) -> Result<Mention, NoMemory>
    ensures { IfOk result (λ mention. mention ≡ at_first app.now.setting.now app.now.entries pair) }
{
    let pairs = if app.entries.has(pair) {
        app.setting
            .initialisers(alloc, pair.domain, pair.method.class)?
    } else {
        Items::new(alloc)
    };
    Ok(Mention { pairs, size: 0 })
}

/// What a method of this code mentions.
fn of_code(
    alloc: Global,
    app: &Application<'_, '_, '_>,
    pair: Pair,
    file: &Class<'_>,
    code: &Code<'_>,
) -> Result<Mention, Stop>
    ensures { OrNoMemory result (of_code app.now.setting.now app.now.entries pair file.now code.now) }
{
    if code.handlers != 0 {
        return Err(refused(Kind::Handlers, code.handlers_at));
    }
    let s = app.setting;
    let typed = type_method(alloc, s.world, pair.method)?;
    let first = at_first(alloc, app, pair)?;
    let (domain, own) = (pair.domain, pair.method.class);
    gathered(
        alloc,
        s,
        domain,
        own,
        file,
        code.at,
        first,
        typed.code.as_slice(),
    )
}

/// What a method of a class of this file mentions.
fn in_class(
    alloc: Global,
    app: &Application<'_, '_, '_>,
    pair: Pair,
    file: &Class<'_>,
) -> Result<Mention, Stop>
    ensures { OrNoMemory result (by_method app.now.setting.now app.now.entries pair file.now (slice_get file.now.methods pair.method.n)) }
{
    let Some(method) = file.methods().get(usize::from(pair.method.n)) else {
        return Err(refused(Kind::Typing, 0));
    };
    if method.flags.bits & Access::SYNCHRONIZED.bits != 0 {
        return Err(refused(Kind::Synchronized, method.at));
    }
    match &method.code {
        Some(code) => of_code(alloc, app, pair, file, code),
        None => Err(refused(Kind::Typing, 0)),
    }
}

/// What a method mentions, or its first fault, of whatever file.
fn anywhere(alloc: Global, app: &Application<'_, '_, '_>, pair: Pair) -> Result<Mention, Stop>
    ensures { OrNoMemory result (by_file app.now.setting.now app.now.entries pair (file_of app.now.setting.now.files pair.method.class.n)) }
{
    let s = app.setting;
    match s.world.get(pair.method.class) {
        Some(file) => in_class(alloc, app, pair, file),
        None => Err(refused(Kind::Typing, 0)),
    }
}

/// The number of the file of a pair's class, from 0.
pub fn file_number(pair: Pair) -> u32
    ensures { result ≡ pair.method.class.n - 4 }
{
    pair.method.class.n.saturating_sub(4)
}

/// Where a pair's method stands in its file.
fn method_place(s: &Setting<'_, '_>, pair: Pair) -> u64
    ensures { result ≡ method_place s.now.files pair }
{
    let Some(file) = s.world.get(pair.method.class) else {
        return 0;
    };
    match file.methods().get(usize::from(pair.method.n)) {
        Some(method) => method.at,
        None => 0,
    }
}

impl Graph for Application<'_, '_, '_> {
    ghost mentions = { λ app pair. mentions_of app.setting.now app.entries pair };

    ghost too_large = { λ app pair. too_large app.setting.now pair };

    #[tactic(auto, unfolding(crate::specs::Methods::mentions_of))]
    fn mentioned(&self, alloc: Global, pair: Pair) -> Result<Mention, Stop> {
        match anywhere(alloc, self, pair) {
            Ok(mention) => Ok(mention),
            Err(Stop::Refused(fault)) => {
                let file = file_number(pair);
                Err(Stop::Refused(Refusal { file, ..fault }))
            }
            Err(Stop::NoMemory) => Err(Stop::NoMemory),
        }
    }

    fn large(&self, pair: Pair) -> Stop {
        Stop::Refused(Refusal {
            file: file_number(pair),
            kind: Kind::Large,
            at: method_place(self.setting, pair),
        })
    }
}
