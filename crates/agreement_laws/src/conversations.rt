//! Worked conversations between routers, as theorems about the rules (RFC 2328, sections 9 to 13),
//! each the contract of a function with an empty body: each holds for every router that satisfies
//! the stated conditions.

ghost use Rattle.agreement_laws.specs.CarriedOut.{EachCaseIsCarriedOut};
ghost use Rattle.agreement_laws.specs.HellosDiscarded.{HellosAreDiscarded};
ghost use Rattle.agreement_laws.specs.RequestsMet.{RequestsAreMetByFlooding};
ghost use Rattle.agreement_laws.specs.SentInOrder.{WhatIsSentStandsInOrder};
ghost use Rattle.agreement_laws.specs.TableTests.{EachTestOfTheTableCounts};
ghost use Rattle.agreement_laws.specs.TakenOff.{AcknowledgmentsTakeOffWhatTheyName};
ghost use Rattle.agreement_laws.specs.Worked.{WorkedEvents};
ghost use Rattle.agreement_laws.specs.WorkedAdjacency.{AnAdjacencyBegins};
ghost use Rattle.agreement_laws.specs.WorkedAged.{AnAgedLsaComes};
ghost use Rattle.agreement_laws.specs.WorkedExchange.{AnExchangeAsSlave};
ghost use Rattle.agreement_laws.specs.WorkedFlush.{TheNumbersEnd};
ghost use Rattle.agreement_laws.specs.WorkedHello.{ANeighborIsHeard};
ghost use Rattle.agreement_laws.specs.WorkedMetrics.{MetricsAnnounceOrWithhold};
ghost use Rattle.agreement_laws.specs.WorkedOwn.{ALastRequestIsMet};
ghost use Rattle.agreement_laws.specs.WorkedRun.{AnAdjacencyIsNegotiated};
ghost use Rattle.agreement_laws.specs.ConversationsWorkedAnswers.{AnswersChangeNoDatabase};
ghost use Rattle.agreement_laws.specs.WorkedTicks.{ATickOriginates};
ghost use Rattle.agreement_laws.specs.WorkedUnannounced.{WhatIsNotAnnouncedIsFlushed};
ghost use Rattle.agreement_laws.specs.WorkedUpdates.{ANewLsaComesTwice};

/// Worked parts of events: a clash of two destinations, a withdrawal of nothing, a metric that
/// withholds, MinLSInterval between instances, refreshing, MaxSequenceNumber, and the ages in
/// packets.
pub fn worked_events()
    ensures { WorkedEvents }
{}

/// Worked events of a router at rest, whatever its interfaces: a `Redistribute` with the metric
/// 16,777,214 announces the destination, and its AS-external-LSA is in the database; LSInfinity,
/// 16,777,215, withholds it (RFC 2328, appendix B).
pub fn metrics_announce_or_withhold()
    ensures { MetricsAnnounceOrWithhold }
{}

/// Worked events: an LSA at MaxAge without a database copy is received from a Full neighbor. If no
/// neighbor is in Exchange or Loading it is acknowledged directly and not installed; if another
/// neighbor is in Loading it is installed, sent there, and acknowledged at a Tick.
pub fn an_aged_lsa_comes()
    ensures { AnAgedLsaComes }
{}

/// Worked events of a router with one interface: a Link State Update satisfies the last request of
/// a neighbor in Loading, which becomes Full. The router-LSA is originated at once if MinLSInterval
/// has passed since the last origination, else it waits for a Tick.
pub fn a_last_request_is_met()
    ensures { ALastRequestIsMet }
{}

/// Worked events of a router with one interface: its router-LSA is received with MaxSequenceNumber,
/// and is flushed; once that is acknowledged, it is removed from the database.
pub fn the_numbers_end()
    ensures { TheNumbersEnd }
{}

/// A worked event of a router with one interface: it receives an LSA in its own name that it
/// doesn't originate, such as a summary-LSA, from a Full neighbor. It is flushed: its copy has
/// MaxAge, one Link State Update with it is sent, and it is on the neighbor's retransmission list.
pub fn what_is_not_announced_is_flushed()
    ensures { WhatIsNotAnnouncedIsFlushed }
{}

/// A worked Tick of a router with one interface: its router-LSA, which waits or was removed from
/// the database, is originated, and the delayed acknowledgments are sent.
pub fn a_tick_originates()
    ensures { ATickOriginates }
{}

/// Worked events of a router with one interface: a Hello that lists it starts an adjacency; in
/// Loading, a duplicate of the last Database Description is answered again, and a mismatch makes
/// the adjacency start over.
pub fn an_adjacency_begins()
    ensures { AnAdjacencyBegins }
{}

/// Worked events of a router with one interface, the slave of an exchange: an initial Database
/// Description is answered with the database's headers, and the master's last one, with a header
/// that is wanted, leads to Loading, a reply and a Link State Request.
pub fn an_exchange_as_slave()
    ensures { AnExchangeAsSlave }
{}

/// A worked run of a router with one interface: a Hello from a new neighbor with a larger Router ID
/// starts an adjacency, and in the next event that neighbor's initial Database Description makes
/// this router the slave of an exchange.
pub fn an_adjacency_is_negotiated()
    ensures { AnAdjacencyIsNegotiated }
{}

/// A worked event of a router with any number of interfaces, none of whose neighbors is in Exchange
/// or Loading: an accepted Hello from a new neighbor that lists this router leads to ExStart, and
/// only the initial Database Description is sent.
pub fn a_neighbor_is_heard()
    ensures { ANeighborIsHeard }
{}

/// Which received Hellos are discarded, whatever the router's state, and whatever it has sent so
/// far in the event: those with another HelloInterval or RouterDeadInterval, with a clear E-bit,
/// from another router than the neighbor there, without a Router ID, and from this router; and that
/// the network mask doesn't matter (RFC 2328, section 10.5).
pub fn some_hellos_are_discarded()
    ensures { HellosAreDiscarded }
{}

/// A worked event: a Link State Update with a new LSA is received twice from a Full neighbor. After
/// the first the LSA is held and its acknowledgment is delayed. The second is acknowledged
/// directly, nothing else is sent, and the router stays as it is.
pub fn a_new_lsa_comes_twice()
    ensures { ANewLsaComesTwice }
{}

/// The answers of the programs, vetoes included, change only the routing table: nothing is sent,
/// and the neighbors and the copies that aren't at MaxAge stay the same.
pub fn answers_change_no_database()
    ensures { AnswersChangeNoDatabase }
{}

/// Further rows of the table of received LSAs, in each of which only one test decides: whether
/// there is a copy, whether it is young, was installed by flooding, has MaxSequenceNumber, is at
/// MaxAge (RFC 2328, section 13).
pub fn each_test_of_the_table_counts()
    ensures { EachTestOfTheTableCounts }
{}

/// How an LSA of a Link State Update is processed in each of the ten cases, whatever the router's
/// state, and whatever it has sent so far in the event: what is sent, what changes in the database
/// and in the sender's lists, and that the LSAs after it are processed except after a bad request
/// (RFC 2328, section 13).
pub fn each_case_is_carried_out()
    ensures { EachCaseIsCarriedOut }
{}

/// What a Link State Acknowledgment removes from a retransmission list: exactly the entries whose
/// instances it has headers of; nothing else of the neighbor changes (RFC 2328, section 13.7).
pub fn acknowledgments_take_off_what_they_name()
    ensures { AcknowledgmentsTakeOffWhatTheyName }
{}

/// Three instances of an LSA, flooded to a neighbor with the middle one on its request list: the
/// older one keeps the request and isn't sent, the same one satisfies it and isn't sent, the newer
/// one satisfies it and is sent, unless it came from this neighbor (RFC 2328, section 13.3).
pub fn requests_are_met_by_flooding()
    ensures { RequestsAreMetByFlooding }
{}

/// The packets of an interface are Hellos, Database Descriptions, Link State Requests, Updates and
/// Acknowledgments, in this order. The Updates contain all LSAs that are sent in the order of LS
/// type, then Link State ID, then Advertising Router, and the Acknowledgments all headers likewise.
pub fn what_is_sent_stands_in_order()
    ensures { WhatIsSentStandsInOrder }
{}
