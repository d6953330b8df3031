//! What a turn asks the programs, and the event that it makes of the answers.
ghost use Rattle.std.specs.Prelude.{◌≡◌, IfErr, IfOk};
ghost use Rattle.maps.specs.Words.{IsSeatOf};
ghost use Rattle.hooks.specs.Known.{asker_history};
ghost use Rattle.turns.specs.Askers.{AreVetoes, IsLater, asker_state};
ghost use Rattle.turns.specs.Turns.{
  AreBeside,
  AsksFor,
  CountsIfReadFor,
  IsEventOfWork,
  IsInstall,
  IsPriceOn,
  IsTagOn,
  RefusesQuestions,
};

use crate::hub::Hub;
use crate::site::Site;
use crate::taker::Taker;
use crate::turned::TurnError;
use crate::work::Work;
use flood::{Event, Offered};
use hooks::{Asker, PriceAnswer, TagAnswer, VetoAnswer, VetoAnswers};
use maps::{Seat, Shared};
use std::sync::Wait;
use words::{External, Second, TableRow};

/// The event that this work gives to the book, with the answers of the programs that it needs.
///
/// # Errors
/// `Away` if `tag`, `price` or `veto` got no reading of the published programs; `Memory` if an
/// allocation is refused.
pub fn make_event<L: Site, B: Taker<L>, R: Wait>(
    rt: &R,
    hub: &Hub<L, B>,
    asker: &mut Asker,
    seat: &mut Seat,
    moment: Second,
    work: &Work,
) -> Result<Event, TurnError>
    requires { IsSeatOf L.words seat.old }
    ensures event { IfOk result (λ event.
        IsEventOfWork B.offers B.refuses (asker_state asker.old seat.old)
        (asker_state asker.new seat.new) work.now moment event) }
    ensures counted { CountsIfReadFor B.refuses (asker_state asker.old seat.old)
        (asker_state asker.new seat.new) work.now moment }
    ensures asked { AsksFor B.took moment work.now }
    ensures err { IfErr result (RefusesQuestions B.refuses work.now moment) }
    ensures seat { IsSeatOf L.words seat.new }
    ensures history { asker_history asker.new ≡ asker_history asker.old }
    ensures later { IsLater (asker_state asker.old seat.old) (asker_state asker.new seat.new) }
{
    match work {
        Work::Datagram(interface, bytes) => {
            // Without a reading of the programs the datagram isn't counted, and taken all the same.
            let _answer = B::count(
                asker,
                *interface,
                moment,
                bytes.as_slice(),
                &hub.shared,
                seat,
            );
            Ok(Event::Packet(*interface, B::copied(bytes)?))
        }
        Work::Tick => Ok(Event::Tick),
        Work::Add(external) => make_redistribute(rt, hub, asker, seat, moment, external),
        Work::Withdraw(prefix) => Ok(Event::Withdraw(*prefix)),
        Work::Down(interface) => Ok(Event::LinkDown(*interface)),
        Work::Refresh => make_install(rt, hub, asker, seat, moment),
    }
}

// A destination to announce, with its tag and its metric. If neither hook has a program the table
// isn't made, which would take as long as the router's candidates do.
fn make_redistribute<L: Site, B: Taker<L>, R: Wait>(
    rt: &R,
    hub: &Hub<L, B>,
    asker: &mut Asker,
    seat: &mut Seat,
    moment: Second,
    external: &External,
) -> Result<Event, TurnError>
    requires { IsSeatOf L.words seat.old }
    ensures event { IfOk result (λ event.
        IsEventOfWork B.offers B.refuses (asker_state asker.old seat.old)
        (asker_state asker.new seat.new) (Work.Add external.now) moment event) }
    ensures err { IfErr result (RefusesQuestions B.refuses (Work.Add external.now) moment) }
    ensures seat { IsSeatOf L.words seat.new }
    ensures history { asker_history asker.new ≡ asker_history asker.old }
    ensures later { IsLater (asker_state asker.old seat.old) (asker_state asker.new seat.new) }
{
    match asker.configured(external, moment) {
        Some((tagged, priced)) => Ok(Event::Redistribute(tagged, priced)),
        None => ask_about_external(rt, hub, asker, seat, moment, external),
    }
}

// Asks both hooks about the destination beside the rows of the table, which a program at `tag` or
// `price` may look up.
fn ask_about_external<L: Site, B: Taker<L>, R: Wait>(
    rt: &R,
    hub: &Hub<L, B>,
    asker: &mut Asker,
    seat: &mut Seat,
    moment: Second,
    external: &External,
) -> Result<Event, TurnError>
    requires { IsSeatOf L.words seat.old }
    ensures event { IfOk result (λ event.
        IsEventOfWork B.offers B.refuses (asker_state asker.old seat.old)
        (asker_state asker.new seat.new) (Work.Add external.now) moment event) }
    ensures err { IfErr result (RefusesQuestions B.refuses (Work.Add external.now) moment) }
    ensures seat { IsSeatOf L.words seat.new }
    ensures history { asker_history asker.new ≡ asker_history asker.old }
    ensures later { IsLater (asker_state asker.old seat.old) (asker_state asker.new seat.new) }
{
    let offered = hub.offered(rt)?;
    let (tagged, priced) = ask_tag_and_price::<L, B>(
        &hub.shared,
        asker,
        seat,
        moment,
        external,
        &offered,
    )?;
    Ok(Event::Redistribute(tagged, priced))
}

// The tag and the metric that a destination is announced with, beside the rows of the table.
fn ask_tag_and_price<L: Site, B: Taker<L>>(
    shared: &Shared,
    asker: &mut Asker,
    seat: &mut Seat,
    moment: Second,
    external: &External,
    offered: &Offered,
) -> Result<(TagAnswer, PriceAnswer), TurnError>
    requires { IsSeatOf shared.now seat.old }
    ensures both { IfOk result (λ r.
        AreBeside (asker_state asker.old seat.old) (asker_state asker.new seat.new)
        external.now moment offered.now.rows.items r.0 r.1) }
    ensures err { IfErr result (RefusesQuestions B.refuses (Work.Add external.now) moment) }
    ensures seat { IsSeatOf shared.now seat.new }
    ensures history { asker_history asker.new ≡ asker_history asker.old }
    ensures later { IsLater (asker_state asker.old seat.old) (asker_state asker.new seat.new) }
{
    let rows = offered.rows.as_slice();
    let tagged = tag::<L, B>(asker, external, moment, rows, shared, seat)?;
    match price::<L, B>(asker, external, moment, rows, shared, seat) {
        Ok(priced) => Ok((tagged, priced)),
        Err(error) => Err(error),
    }
}

fn tag<L: Site, B: Taker<L>>(
    asker: &mut Asker,
    external: &External,
    moment: Second,
    rows: &[TableRow],
    shared: &Shared,
    seat: &mut Seat,
) -> Result<TagAnswer, TurnError>
    requires { IsSeatOf shared.now seat.old }
    ensures answer { IfOk result (λ a.
        IsTagOn (asker_state asker.old seat.old) (asker_state asker.new seat.new)
        external.now moment rows.now a) }
    ensures err { IfErr result (RefusesQuestions B.refuses (Work.Add external.now) moment) }
    ensures seat { IsSeatOf shared.now seat.new }
    ensures history { asker_history asker.new ≡ asker_history asker.old }
    ensures later { IsLater (asker_state asker.old seat.old) (asker_state asker.new seat.new) }
{
    match B::tag(asker, external, moment, rows, shared, seat) {
        Some(answer) => Ok(answer),
        None => Err(TurnError::Away),
    }
}

fn price<L: Site, B: Taker<L>>(
    asker: &mut Asker,
    external: &External,
    moment: Second,
    rows: &[TableRow],
    shared: &Shared,
    seat: &mut Seat,
) -> Result<PriceAnswer, TurnError>
    requires { IsSeatOf shared.now seat.old }
    ensures answer { IfOk result (λ a.
        IsPriceOn (asker_state asker.old seat.old) (asker_state asker.new seat.new)
        external.now moment rows.now a) }
    ensures err { IfErr result (RefusesQuestions B.refuses (Work.Add external.now) moment) }
    ensures seat { IsSeatOf shared.now seat.new }
    ensures history { asker_history asker.new ≡ asker_history asker.old }
    ensures later { IsLater (asker_state asker.old seat.old) (asker_state asker.new seat.new) }
{
    match B::price(asker, external, moment, rows, shared, seat) {
        Some(answer) => Ok(answer),
        None => Err(TurnError::Away),
    }
}

/// An `Install`: of each candidate now, whether it is kept out of the table. If `veto` has no
/// program, one reading of the programs answers for all of them, and the table isn't made. Another
/// reading before it tells which way to go, so that candidates are fetched once.
///
/// # Errors
/// `Away` if `veto` got no reading of the published programs; `Memory` if an allocation is refused.
pub fn make_install<L: Site, B: Taker<L>, R: Wait>(
    rt: &R,
    hub: &Hub<L, B>,
    asker: &mut Asker,
    seat: &mut Seat,
    moment: Second,
) -> Result<Event, TurnError>
    requires { IsSeatOf L.words seat.old }
    ensures event { IfOk result (λ event.
        IsInstall B.offers (asker_state asker.old seat.old) (asker_state asker.new seat.new)
        moment event) }
    ensures err { IfErr result (RefusesQuestions B.refuses Work.Refresh moment) }
    ensures seat { IsSeatOf L.words seat.new }
    ensures history { asker_history asker.new ≡ asker_history asker.old }
    ensures later { IsLater (asker_state asker.old seat.old) (asker_state asker.new seat.new) }
{
    match asker.is_veto_vacant() {
        Some(false) => ask_about_candidates(rt, hub, asker, seat, moment),
        _ => install_if_vacant(rt, hub, asker, seat, moment),
    }
}

// The same, if the first reading showed no program at `veto`, or none was got. If the reading for
// the answers shows one after all, it is asked.
fn install_if_vacant<L: Site, B: Taker<L>, R: Wait>(
    rt: &R,
    hub: &Hub<L, B>,
    asker: &mut Asker,
    seat: &mut Seat,
    moment: Second,
) -> Result<Event, TurnError>
    requires { IsSeatOf L.words seat.old }
    ensures event { IfOk result (λ event.
        IsInstall B.offers (asker_state asker.old seat.old) (asker_state asker.new seat.new)
        moment event) }
    ensures err { IfErr result (RefusesQuestions B.refuses Work.Refresh moment) }
    ensures seat { IsSeatOf L.words seat.new }
    ensures history { asker_history asker.new ≡ asker_history asker.old }
    ensures later { IsLater (asker_state asker.old seat.old) (asker_state asker.new seat.new) }
{
    let candidates = hub.candidates(rt)?;
    match B::all_let_in(asker, candidates, moment) {
        Some(answers) => Ok(Event::Install(answers)),
        None => ask_about_candidates(rt, hub, asker, seat, moment),
    }
}

// The installation if `veto` may have a program: it is asked about each candidate beside the rows
// of the table, which it may look up.
fn ask_about_candidates<L: Site, B: Taker<L>, R: Wait>(
    rt: &R,
    hub: &Hub<L, B>,
    asker: &mut Asker,
    seat: &mut Seat,
    moment: Second,
) -> Result<Event, TurnError>
    requires { IsSeatOf L.words seat.old }
    ensures event { IfOk result (λ event.
        IsInstall B.offers (asker_state asker.old seat.old) (asker_state asker.new seat.new)
        moment event) }
    ensures err { IfErr result (RefusesQuestions B.refuses Work.Refresh moment) }
    ensures seat { IsSeatOf L.words seat.new }
    ensures history { asker_history asker.new ≡ asker_history asker.old }
    ensures later { IsLater (asker_state asker.old seat.old) (asker_state asker.new seat.new) }
{
    let offered = hub.offered(rt)?;
    let answers = ask_vetoes::<L, B>(&hub.shared, asker, seat, moment, &offered)?;
    Ok(Event::Install(VetoAnswers::each(answers)))
}

// The answers on the candidates, in their order.
fn ask_vetoes<L: Site, B: Taker<L>>(
    shared: &Shared,
    asker: &mut Asker,
    seat: &mut Seat,
    moment: Second,
    offered: &Offered,
) -> Result<Vec<VetoAnswer>, TurnError>
    requires { IsSeatOf shared.now seat.old }
    ensures answers { IfOk result (λ answers. AreVetoes (asker_state asker.old seat.old)
        (asker_state asker.new seat.new) moment offered.now.rows.items
        offered.now.candidates.items answers.items) }
    ensures err { IfErr result (RefusesQuestions B.refuses Work.Refresh moment) }
    ensures seat { IsSeatOf shared.now seat.new }
    ensures history { asker_history asker.new ≡ asker_history asker.old }
    ensures later { IsLater (asker_state asker.old seat.old) (asker_state asker.new seat.new) }
{
    let alloc = *offered.candidates.allocator();
    let routes = offered.candidates.as_slice();
    let rows = offered.rows.as_slice();
    let all = B::vetoes(asker, alloc, routes, moment, rows, shared, seat)?;
    match all {
        Some(answers) => Ok(answers),
        None => Err(TurnError::Away),
    }
}
