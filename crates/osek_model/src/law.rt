ghost use Rattle.osek_model.specs.Reached.{StaysDispatched};

/// The kernel of well-configured tables, after its start and any services and ticks: what holds after each dispatch.
pub fn kernel_stays_dispatched()
    ensures { StaysDispatched }
{}
