//! What holds of operations on a machine.

ghost use Rattle.std.specs.Prelude.{◌≡◌, ℕ, ◌+◌, ◌-◌, ◌^◌, ◌≤◌, List, []};
ghost use Rattle.vt_types.specs.declared.operation.EventAt.{EventAt};
ghost use Rattle.vt_types.specs.Program.{CountsAtMost, Gives, Program};
ghost use Rattle.report_text.specs.Access.{longest_access_line};
ghost use Rattle.report_text.specs.Text.{LINE_SPARE};
ghost use Rattle.vt_machine.specs.Happens.{Happens};
ghost use Rattle.vt_machine.specs.IsTraced.{IsTraced};
ghost use Rattle.vt_machine.specs.Machine.{MachineMark, MachineStep, MachineView, longest_lines};
ghost use Rattle.vt_machine.specs.Trace.{trace_from};

use dev_core::Bus;

/// What a program gives over a machine on which an operation has begun, once the events that are left have happened, is its
/// trace with the events of the operation: its result, the raw machine, the number of accesses, the place and the lines. The
/// lines of the program's accesses come to at most `most` bytes, for which the machine has spare ones beside those of its
/// events.
pub fn operation_traced<B: Bus, X>()
    ensures { (program : Program X) (events : List EventAt) (before m m2 m3 : MachineView B) (x : X) (most : ℕ) → m ≡ record before { left = events; count = 0; happened = 0; place = 0; lines = [] } → CountsAtMost longest_access_line program most → most + longest_lines events + LINE_SPARE ≤ before.line_spare → most ≤ 2 ^ 32 - 1 → Gives (MachineStep B.table) MachineMark program m x m2 → Happens B.table m2.left [] m2 m3 → IsTraced (trace_from B.table program before.raw events 0 0 0) x m m3 }
{}
