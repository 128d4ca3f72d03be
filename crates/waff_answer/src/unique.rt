//! One answer to each question, or one error: functions that do nothing, and whose contracts are the laws.
ghost use Rattle.std.specs.Prelude.{ℕ, List};
ghost use Rattle.waff_cli.specs.declared.words.Asked.{Asked};
ghost use Rattle.waff_answer.specs.Unique.{AnswerIsOne, AnsweredIsNotRefused, RefusalIsOne};

/// What is asked of files has one answer.
pub fn answer_is_one()
    ensures equal { (asked : Asked) (files : List (List ℕ)) → AnswerIsOne asked files }
{}

/// The error that tells why what is asked of files is refused is one, but for an allocation failure or a
/// writer's fault.
pub fn asked_refusal_is_one()
    ensures equal { (asked : Asked) (files : List (List ℕ)) → RefusalIsOne asked files }
{}

/// Files on which what is asked has an answer are not refused, but for an allocation failure or a writer's
/// fault.
pub fn answered_is_not_refused()
    ensures none { (asked : Asked) (files : List (List ℕ)) → AnsweredIsNotRefused asked files }
{}
