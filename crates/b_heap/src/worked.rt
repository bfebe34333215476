//! Worked examples: each function promises what the definitions give of them.

ghost use Rattle.b_heap.specs.Worked.Costs.{LevelsAreRounded, ArraysAreRounded, RoomEnds};
ghost use Rattle.b_heap.specs.Worked.Fields.{SuperclassComesFirst, ConstantsAreKept};
ghost use Rattle.b_heap.specs.Worked.Objects.{FieldsKeepTheirBits, ItemsKeepTheirBits};
ghost use Rattle.b_heap.specs.Worked.Kinds.{ObjectsHaveTypes, ArraysHoldWhatFits};

/// What objects and arrays take, and where a heap is full.
pub fn objects_cost()
    ensures levels { LevelsAreRounded }
    ensures arrays { ArraysAreRounded }
    ensures room { RoomEnds }
{}

/// Where fields stand, and what static fields hold at first.
pub fn fields_stand()
    ensures places { SuperclassComesFirst }
    ensures constants { ConstantsAreKept }
{}

/// What fields and items keep of what is stored.
pub fn objects_keep()
    ensures fields { FieldsKeepTheirBits }
    ensures items { ItemsKeepTheirBits }
{}

/// Of which types objects are, and what arrays may hold.
pub fn objects_have_types()
    ensures types { ObjectsHaveTypes }
    ensures arrays { ArraysHoldWhatFits }
{}
