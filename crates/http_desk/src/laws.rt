//! The laws of sessions over a desk, each the contract of a function without a body.
ghost use Rattle.std.specs.Prelude.{◌≢◌, ℕ, List, Option};
ghost use Rattle.http_session.specs.Sessions.{Finishes, SoFar};
ghost use Rattle.http_session.specs.declared.why.Why.{Why};
ghost use Rattle.http_session.specs.declared.why.Why.TheVariants.{NoMemory};
ghost use Rattle.spec_desk.specs.Lived.{Follows};
ghost use Rattle.http_desk.specs.Chains.{AnswersAlone, IsChained, KeepsAlone, NamedDesk};
ghost use Rattle.http_desk.specs.Completeness.{HasNoFault, IsFinished, IsValid};
ghost use Rattle.http_desk.specs.ProgramSessions.{EndsSo, Session};
ghost use Rattle.http_desk.specs.declared.serving.ServeEnd.{ServeEnd};

/// In a session over the desk of one caller each request that reaches the desk has a true receipt, whose looks begin on what the one before it left,
/// and the etags that they took are all that were made. So it is at each point of a session, and at its end, unless memory ran out.
pub fn sessions_are_chains()
    ensures so_far { (a : NamedDesk) (bytes : List ℕ) (n : ℕ) (written : List ℕ) (b : NamedDesk) (rest : List ℕ) → SoFar AnswersAlone a bytes n written b rest → IsChained a.0 b.0 }
    ensures finished { (a b : NamedDesk) (bytes : List ℕ) (held now : Option (List ℕ)) (why : Why) → why ≢ NoMemory → Finishes AnswersAlone KeepsAlone a bytes held why b now → IsChained a.0 b.0 }
{}

/// A valid session over an input and an output is answered to its end, if no device fails and there is memory.
pub fn valid_sessions_come_to_their_end()
    ensures { (s : Session) (end : ServeEnd) → EndsSo end s → IsValid s → HasNoFault s → IsFinished end }
{}

/// The value that a session leaves follows the one that it found: its world is later. So it is also if memory ran out.
pub fn sessions_go_on()
    ensures { (a b : NamedDesk) → KeepsAlone a b → Follows a.0.live b.0.live }
{}
