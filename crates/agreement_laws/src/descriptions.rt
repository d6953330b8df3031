//! Laws on what moves an exchange of Descriptions.
ghost use Rattle.agreement_laws.specs.Moves.{OnlyDescriptionsMoveAnExchange};
ghost use Rattle.agreement_laws.specs.Numbers.{AcceptedDescriptionsMoveNumbers};

/// In each event but a Description of the neighbor its exchange stays as it is: who is the master,
/// the DD sequence number, the last Description received and what is still to be described; unless
/// the conversation is over, or isn't in Exchange yet (RFC 2328, sections 10.6 and 10.8). It asks
/// that the router is in order, as it is in every run.
pub fn only_descriptions_move_an_exchange()
    ensures { OnlyDescriptionsMoveAnExchange }
{}

/// A Description that is accepted in Exchange has the expected DD sequence number, and is the last
/// one received after the event, in the same conversation; the slave takes its number over, the
/// master goes on to the next one, or is done (RFC 2328, sections 10.6 and 10.8). It asks that the
/// router is in order, as it is in every run.
pub fn accepted_descriptions_move_numbers()
    ensures { AcceptedDescriptionsMoveNumbers }
{}
