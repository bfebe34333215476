//! Worked examples of binding: each function promises what the definitions give of a small world.

ghost use Rattle.kbind.specs.Worked.{EachIsNamed, EntriesHaveCode, NativesAreStatic, ObjectsEndWithinTheDevices, PortalsKeepTheDescriptor, FirstLineIsShown};

/// Entries, natives, cells and objects that have their members, and entries that have none.
pub fn named_members()
    ensures named { EachIsNamed }
    ensures entries { EntriesHaveCode }
{}

/// Native methods that call no service, and the first of two lines whose rule fails.
pub fn natives_refused()
    ensures natives { NativesAreStatic }
    ensures first { FirstLineIsShown }
{}

/// Objects within the device bytes and past them.
pub fn objects_placed()
    ensures { ObjectsEndWithinTheDevices }
{}

/// Portals whose target has the same descriptor, or another one.
pub fn portals_matched()
    ensures { PortalsKeepTheDescriptor }
{}
