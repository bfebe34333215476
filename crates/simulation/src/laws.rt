//! Laws of all runs: each function's contract is one, and its proof stands beside it.
ghost use Rattle.simulation.specs.Laws.{KernelKeepsTasks, NeverStuck};

/// No run of the bytecode shows a step without a meaning.
pub fn bytecode_is_never_stuck()
    ensures { NeverStuck }
{}

/// A service, a tick and the start keep how many tasks the kernel has, and whether interrupts are suspended.
pub fn kernel_keeps_tasks()
    ensures { KernelKeepsTasks }
{}
