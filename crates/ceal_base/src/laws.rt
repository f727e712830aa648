// The laws of a trace and its flat form.

ghost use Rattle.std.specs.Prelude.{◌≡◌, Some};
ghost use Rattle.ceal_base.specs.Trace.{Trace, flat, trace_of, steps_of, steps_in};

/// A law: flat items stand for one trace at most, and for the one that they are the flat form of; they have its steps.
pub fn flat_form()
    ensures trace { (f : Trace) → trace_of (flat f) ≡ Some f }
    ensures steps { (f : Trace) → steps_in (flat f) ≡ steps_of f }
{}
