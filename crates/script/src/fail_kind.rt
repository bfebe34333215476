ghost use Rattle.std.specs.Prelude.{◌≡◌};
ghost use Rattle.osek_core.specs.Event.Text.{kind_text};

use osek_core::FailKind;

/// The word that the map and the lines of events have for a kind of failure.
pub fn fail_kind_name(kind: FailKind) -> &'static str
    ensures { result.now ≡ kind_text kind }
{
    match kind {
        FailKind::HeldAtEnd => "HeldAtEnd",
        FailKind::Null => "Null",
        FailKind::Bounds => "Bounds",
        FailKind::DivZero => "DivZero",
        FailKind::NegativeSize => "NegativeSize",
        FailKind::Cast => "Cast",
        FailKind::Store => "Store",
        FailKind::Interface => "Interface",
        FailKind::HeapFull => "HeapFull",
        FailKind::CopyLimit => "CopyLimit",
        FailKind::NotPortable => "NotPortable",
        FailKind::Thrown => "Thrown",
        FailKind::Depth => "Depth",
    }
}

#[cfg(test)]
mod tests {
    use super::*;
    use std::test::Fail;

    #[test]
    fn each_kind_is_named_as_it_is_spelled(rt: HostRuntime) -> Result<(), Fail> {
        for kind in [
            FailKind::HeldAtEnd,
            FailKind::Null,
            FailKind::Bounds,
            FailKind::DivZero,
            FailKind::NegativeSize,
            FailKind::Cast,
            FailKind::Store,
            FailKind::Interface,
            FailKind::HeapFull,
            FailKind::CopyLimit,
            FailKind::NotPortable,
            FailKind::Thrown,
            FailKind::Depth,
        ] {
            let spelled = format!(in rt.alloc(); "{kind:?}")?;
            assert_eq!(rt; spelled.as_str(), fail_kind_name(kind));
        }
        Ok(())
    }
}
