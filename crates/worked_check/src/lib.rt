//! Histories that an independent model of the store made, with its answers: the definitions of `flsm_model`
//! give the same ones. Each function runs nothing; its contract is that.
#![tactic(auto)]

ghost use Rattle.flsm_model.specs.Legal.{IsLegal};
ghost use Rattle.worked_check.specs.Answers.{Agrees, begin};
ghost use Rattle.worked_check.specs.Samples.{small};
ghost use Rattle.worked_check.specs.Tiny.{tiny_events, tiny_answers};
ghost use Rattle.worked_check.specs.Legal0.{legal0_events, legal0_answers};
ghost use Rattle.worked_check.specs.Legal1.{legal1_events, legal1_answers};
ghost use Rattle.worked_check.specs.Deep0.{deep0_events, deep0_answers};

/// A history of one session: flushes, and a table moved down to the last level.
pub fn law_tiny()
    ensures legal { IsLegal small begin tiny_events }
    ensures agrees { Agrees tiny_events tiny_answers }
{}

/// A history with guards: flushes, moves, guards committed inside tables, a
/// merge, and a job that was cut short.
pub fn law_legal0()
    ensures legal { IsLegal small begin legal0_events }
    ensures agrees { Agrees legal0_events legal0_answers }
{}

/// A history of two sessions: a stop between them, guards committed inside
/// tables, and a job that was cut short.
pub fn law_legal1()
    ensures legal { IsLegal small begin legal1_events }
    ensures agrees { Agrees legal1_events legal1_answers }
{}

/// A history whose last level fills up, with numbers that are held and let go: which jobs are due on the
/// way, and a merge of the last level. It is compared without a proof that it is legal.
pub fn law_deep0()
    ensures agrees { Agrees deep0_events deep0_answers }
{}
