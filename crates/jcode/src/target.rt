//! Where a jump goes.

ghost use Rattle.std.specs.Prelude.{◌≡◌};
ghost use Rattle.jcode.specs.Targets.{target};

/// The place that is `far` behind `pc`, or `u16::MAX` where no code has it.
pub fn target(pc: u16, far: i32) -> u16
    ensures { result ≡ target pc far }
{
    let place = i64::from(pc) + i64::from(far);
    if 0 <= place && place < 65535 {
        place as u16
    } else {
        u16::MAX
    }
}
