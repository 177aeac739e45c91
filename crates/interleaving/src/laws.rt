//! The laws of an operation in progress.

ghost use Rattle.std.specs.Prelude.{◌≡◌, ℕ, ◌+◌, ◌<◌, ◌≤◌, ◌^◌, suc, List, [], length};
ghost use Rattle.vt_types.specs.declared.access.Answer.{Answer};
ghost use Rattle.vt_types.specs.declared.operation.Event.{Event};
ghost use Rattle.vt_types.specs.declared.operation.EventAt.{EventAt};
ghost use Rattle.vt_types.specs.Access.{AccessValue};
ghost use Rattle.vt_types.specs.Operation.{Operation};
ghost use Rattle.vt_types.specs.Program.{Program, Do, Mark, End};
ghost use Rattle.abstract_devices.specs.World.{World};
ghost use Rattle.abstract_devices.specs.Operate.{Outcome, happen, operate, placed_line};
ghost use Rattle.dev_core.specs.Bus.{Raw, raw_access, raw_event};
ghost use Rattle.drv_core.specs.Driver.{DriverRecord, Ended};
ghost use Rattle.interleaving.specs.Agrees.{AgreeBoth, Agrees};
ghost use Rattle.interleaving.specs.Asked.{IsAsked};
ghost use Rattle.interleaving.specs.BusDefinition.{driven, trace_of, trace_with};
ghost use Rattle.interleaving.specs.InProgress.{InProgress, with_event};

use crate::simulation::Simulation;

/// From related halves an operation of a script gives, whatever its events are, the reply and the world of the operation that
/// is placed where its last mark was, and leaves them related.
pub fn interleaved<S: Simulation>()
    ensures { (op : Operation) (w : World) (raw : Raw S.Bus) (known : DriverRecord) (events : List EventAt) → IsAsked op → length events + 1 < 2 ^ 32 → S.related w raw known → Agrees S.related (placed_line S.kind w op events (trace_of (driven S.Bus.table S.Driver.lowering S.kind) raw known op events).place) (trace_of (driven S.Bus.table S.Driver.lowering S.kind) raw known op events) }
{
    S::begins();
}

/// The same with any number of repeats that is not below the number of the events: so many are always enough.
pub fn enough_repeats<S: Simulation>()
    ensures { (op : Operation) (w : World) (raw : Raw S.Bus) (known : DriverRecord) (events : List EventAt) (repeats : ℕ) → IsAsked op → length events ≤ repeats → repeats < 2 ^ 32 → S.related w raw known → Agrees S.related (placed_line S.kind w op events (trace_with (driven S.Bus.table S.Driver.lowering S.kind) raw known op events repeats).place) (trace_with (driven S.Bus.table S.Driver.lowering S.kind) raw known op events repeats) }
{
    S::begins();
}

/// What the relation leaves open decides no reply: over two raw machines that are related to the same world an operation
/// without events gives the same reply, that of the abstract devices, and leaves both related to the same world.
pub fn replies_at_rest<S: Simulation>()
    ensures { (op : Operation) (w : World) (raw raw2 : Raw S.Bus) (known known2 : DriverRecord) → IsAsked op → S.related w raw known → S.related w raw2 known2 → AgreeBoth S.related (operate S.kind w op) (trace_of (driven S.Bus.table S.Driver.lowering S.kind) raw known op []) (trace_of (driven S.Bus.table S.Driver.lowering S.kind) raw2 known2 op []) }
{
    S::begins();
}

/// Each access keeps an operation in progress, a mark places it on the world as it is, and an event is one of those that may
/// come, also after the end. At the end the reply is that of the operation, and the relation holds again.
pub fn steps<S: Simulation>()
    ensures access { (op : Operation) (a : AccessValue) (rest : Answer → List ℕ → Program Ended) (n : ℕ) (w : World) (o : Outcome) (raw : Raw S.Bus) → InProgress (driven S.Bus.table S.Driver.lowering S.kind) S.related op (Do a rest) n w o raw → InProgress (driven S.Bus.table S.Driver.lowering S.kind) S.related op (rest (raw_access S.Bus.table a raw).0 (raw_access S.Bus.table a raw).1) n w o (raw_access S.Bus.table a raw).2 }
    ensures mark { (op : Operation) (rest : Program Ended) (n : ℕ) (w : World) (o : Outcome) (raw : Raw S.Bus) → InProgress (driven S.Bus.table S.Driver.lowering S.kind) S.related op (Mark rest) n w o raw → InProgress (driven S.Bus.table S.Driver.lowering S.kind) S.related op rest n w (operate S.kind w op) raw }
    ensures event { (op : Operation) (a : AccessValue) (rest : Answer → List ℕ → Program Ended) (n : ℕ) (w : World) (o : Outcome) (raw : Raw S.Bus) (e : Event) → InProgress (driven S.Bus.table S.Driver.lowering S.kind) S.related op (Do a rest) (suc n) w o raw → InProgress (driven S.Bus.table S.Driver.lowering S.kind) S.related op (Do a rest) n (happen w e) (with_event o e) (raw_event S.Bus.table raw e) }
    ensures later_event { (op : Operation) (x : Ended) (n : ℕ) (w : World) (o : Outcome) (raw : Raw S.Bus) (e : Event) → InProgress (driven S.Bus.table S.Driver.lowering S.kind) S.related op (End x) (suc n) w o raw → InProgress (driven S.Bus.table S.Driver.lowering S.kind) S.related op (End x) n (happen w e) (with_event o e) (raw_event S.Bus.table raw e) }
    ensures end { (op : Operation) (x : Ended) (n : ℕ) (w : World) (o : Outcome) (raw : Raw S.Bus) → InProgress (driven S.Bus.table S.Driver.lowering S.kind) S.related op (End x) n w o raw → (o.reply ≡ x.reply) × S.related o.world raw x.known }
{}
