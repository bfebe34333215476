ghost use Rattle.std.specs.Prelude.{◌≡◌};
ghost use Rattle.osek_core.specs.Event.Text.{name_at};

use sqlite_items::Items;

/// The names of an application's objects by their numbers, the shown bytes of its methods, and the
/// number of its device bytes.
#[derive(Drop)]
pub struct Names {
    pub tasks: Items<Items<u8>>,
    pub resources: Items<Items<u8>>,
    pub events: Items<Items<u8>>,
    pub counters: Items<Items<u8>>,
    pub alarms: Items<Items<u8>>,
    pub methods: Items<Items<u8>>,
    pub devices: u32,
}

/// The name of this number, and no bytes where there is none.
pub fn name_at(names: &[Items<u8>], number: u32) -> &[u8]
    ensures { result.now ≡ name_at names.now number }
{
    match names.get(number as usize) {
        Some(name) => name.as_slice(),
        None => &[],
    }
}
