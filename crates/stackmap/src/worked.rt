//! Worked examples of frames: each function promises what the definitions give of them.

ghost use Rattle.stackmap.specs.Worked.Forms.{NoFrames, SameFrames, OneStackItem, OneStackItemExtended, SameExtended, FullFrames, ChopTakesLastLocals, AppendPutsLocalsBehind, FramesGoOn};
ghost use Rattle.stackmap.specs.Worked.Refused.{TablesEndWithTheirFrames, ReservedTags, PlacesAreBounded, ItemsAreTypes};
ghost use Rattle.stackmap.specs.Worked.Starts.{ConstructorsStartUninitialised, ThisComesFirst, ParametersFollow};
ghost use Rattle.stackmap.specs.Worked.Types.{EachTagHasItsType};

/// The forms of a frame.
pub fn frame_forms()
    ensures none { NoFrames }
    ensures same { SameFrames }
    ensures item { OneStackItem }
    ensures item_extended { OneStackItemExtended }
    ensures same_extended { SameExtended }
    ensures full { FullFrames }
{}

/// Frames that take locals away or put locals behind.
pub fn chopped_and_appended()
    ensures chop { ChopTakesLastLocals }
    ensures append { AppendPutsLocalsBehind }
    ensures further { FramesGoOn }
{}

/// The types of values.
pub fn verification_types()
    ensures { EachTagHasItsType }
{}

/// The frame at a method's start.
pub fn start_frames()
    ensures constructor { ConstructorsStartUninitialised }
    ensures this { ThisComesFirst }
    ensures parameters { ParametersFollow }
{}

/// First faults of tables, at their places.
pub fn tables_refused()
    ensures ends { TablesEndWithTheirFrames }
    ensures tags { ReservedTags }
    ensures places { PlacesAreBounded }
    ensures items { ItemsAreTypes }
{}
