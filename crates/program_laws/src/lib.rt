//! Laws about the definitions of programs, each the contract of a function with an empty body: the
//! accesses of a seat, answers at hooks, and what the definitions say of small programs. Laws about
//! runs of code that counts turns, and about what a loaded program can do to a router.
#![tactic(auto)]

ghost use Rattle.program_laws.specs.Answers.{AnswersAreOfWhatStands};
ghost use Rattle.program_laws.specs.Seats.{AdditionsAreRefusedLast, SeatsGrow, SeatsStayLawful};

pub mod counted;
pub mod routers;
pub mod small_programs;

/// A seat's list of accesses stays lawful after any steps that it may make: each read of a counter
/// found at least what the list knew, each load of a cell what was last stored, and there are at
/// most 2^31 additions.
pub fn seats_stay_lawful()
    ensures { SeatsStayLawful }
{}

/// An addition is refused only after 2^31 of them.
pub fn additions_are_refused_last()
    ensures { AdditionsAreRefusedLast }
{}

/// A seat's list grows only by the accesses of its steps.
pub fn seats_grow()
    ensures { SeatsGrow }
{}

/// An answer is that of the program that is at the hook after the operations, or the default if
/// there is none; the seat made exactly the accesses of that run, and none without a program; what
/// was known is still known, and the list of accesses is still lawful.
pub fn answers_are_of_what_stands()
    ensures { AnswersAreOfWhatStands }
{}
