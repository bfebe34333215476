//! Worked examples of worlds: each function promises what the definitions give of them.

ghost use Rattle.jworld.specs.Worked.Above.{LadderLeadsUp, CycleOfInterfaces, CycleOfClasses};
ghost use Rattle.jworld.specs.Worked.Numbered.{NamesHaveNumbers, SuperclassesAreAlone, PrivateIsPassedOver};
ghost use Rattle.jworld.specs.Worked.FieldsFound.{FirstWayCounts, InterfacesComeBeforeTheSuperclass, DescriptorsTellApart};
ghost use Rattle.jworld.specs.Worked.Refused.{NamesStandOnce, SupersAreThere, DuplicatesComeFirst, MembersAreCounted};
ghost use Rattle.jworld.specs.Worked.Resolved.{LowerInterfaceHides, OneConcreteIsTaken, PrivateIsNotInherited};
ghost use Rattle.jworld.specs.Worked.Subtypes.{ClassesFit, ArraysFit, ArraysOfArraysFit};
ghost use Rattle.jworld.specs.Worked.Splits.{PackagesEndAtTheLastSlash, OtherPackageSplits, PrivateSplitsNothing};

/// Classes by name, their superclasses, and the methods that receivers run.
pub fn numbered_classes()
    ensures named { NamesHaveNumbers }
    ensures supers { SuperclassesAreAlone }
    ensures selected { PrivateIsPassedOver }
{}

/// Fields over diamonds of interfaces and over superclasses.
pub fn fields_found()
    ensures first { FirstWayCounts }
    ensures interfaces { InterfacesComeBeforeTheSuperclass }
    ensures descriptors { DescriptorsTellApart }
{}

/// First faults of class files, at their places.
pub fn files_refused()
    ensures duplicates { NamesStandOnce }
    ensures supers { SupersAreThere }
    ensures order { DuplicatesComeFirst }
    ensures large { MembersAreCounted }
{}

/// What stands above what, and the first class above itself.
pub fn classes_above()
    ensures ladder { LadderLeadsUp }
    ensures interfaces { CycleOfInterfaces }
    ensures classes { CycleOfClasses }
{}

/// Methods that are found in superinterfaces.
pub fn methods_of_interfaces()
    ensures lower { LowerInterfaceHides }
    ensures concrete { OneConcreteIsTaken }
    ensures private { PrivateIsNotInherited }
{}

/// Which reference types are others.
pub fn reference_types()
    ensures classes { ClassesFit }
    ensures arrays { ArraysFit }
    ensures deep { ArraysOfArraysFit }
{}

/// Methods of one package that another declares again.
pub fn split_packages()
    ensures packages { PackagesEndAtTheLastSlash }
    ensures other { OtherPackageSplits }
    ensures private { PrivateSplitsNothing }
{}
