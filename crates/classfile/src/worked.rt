//! Worked examples of class files: each function promises what the definitions give of them.

ghost use Rattle.classfile.specs.Worked.ClassFiles.{SmallestIsRead, FirstConstantCounts, FirstMapsCount, NativeHasNoCode};
ghost use Rattle.classfile.specs.Worked.PoolEntries.{HandlesRefer, HandlesByVersion, MethodTypesAreMethods, DescriptorsAreOfTheirKind, ArraysAreDescriptors, WideTakeTwo, TagsAreKnown};
ghost use Rattle.classfile.specs.Worked.Spellings.{SmallestIsSpelled, LastIsWide, FaultsSpellNone};
ghost use Rattle.classfile.specs.Worked.Faults.{VersionsAreBounded, CodesAreCounted, LengthsAreKept, MembersDiffer, StructureComesFirst};

/// Small class files and what they say.
pub fn class_files()
    ensures smallest { SmallestIsRead }
    ensures constants { FirstConstantCounts }
    ensures maps { FirstMapsCount }
    ensures native { NativeHasNoCode }
{}

/// What the entries of a constant pool may name.
pub fn pool_entries()
    ensures handles { HandlesRefer }
    ensures versions { HandlesByVersion }
    ensures methods { MethodTypesAreMethods }
    ensures kinds { DescriptorsAreOfTheirKind }
    ensures arrays { ArraysAreDescriptors }
    ensures wide { WideTakeTwo }
    ensures tags { TagsAreKnown }
{}

/// First faults and their places.
pub fn first_faults()
    ensures versions { VersionsAreBounded }
    ensures codes { CodesAreCounted }
    ensures lengths { LengthsAreKept }
    ensures members { MembersDiffer }
    ensures structure { StructureComesFirst }
{}

/// Bytes that spell a class file, and bytes that spell none.
pub fn spelled_files()
    ensures smallest { SmallestIsSpelled }
    ensures wide { LastIsWide }
    ensures faults { FaultsSpellNone }
{}
