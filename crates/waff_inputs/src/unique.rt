//! One fault for each input. Each law is a function that does nothing, and its contract is the law.

ghost use Rattle.std.specs.Prelude.{ℕ, List};
ghost use Rattle.waff_model.specs.Unique.{AtMostOne};
ghost use Rattle.waff_inputs.specs.Inputs.{Refuses, TellsOfFiles};
ghost use Rattle.waff_inputs.specs.Unique.{AcceptedIsNotRefused};

/// The error that tells why a hierarchy and a trace are refused is one.
pub fn refusal_is_one()
    ensures equal { (hierarchy_file trace_file : List ℕ)
        → AtMostOne
        (λ e. TellsOfFiles e × Refuses hierarchy_file trace_file e) }
{}

/// A hierarchy and a trace that are accepted are not refused, but for an allocation failure or a writer's
/// fault.
pub fn accepted_is_not_refused()
    ensures none { (hierarchy_file trace_file : List ℕ)
        → AcceptedIsNotRefused hierarchy_file trace_file }
{}
