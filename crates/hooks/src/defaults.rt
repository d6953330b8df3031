//! The answers at hooks without a program.
ghost use Rattle.std.specs.Prelude.{◌≡◌, ◌↔◌, List, IfSome, IsTrue, map};
ghost use mathlib.Core.List.{IsPrefix};
ghost use Rattle.isa.specs.declared.hook.Hook.TheVariants.{Price, Tag, Veto};
ghost use Rattle.left_right.specs.Sides.{view};
ghost use Rattle.words.specs.declared.route.Route.{Route};
ghost use Rattle.words.specs.declared.route.TableRow.{TableRow};
ghost use Rattle.hooks.specs.Known.{known_to, asker_history};
ghost use Rattle.hooks.specs.Questions.{tag_input, price_input, veto_input};
ghost use Rattle.hooks.specs.Rule.{HasSeen};
ghost use Rattle.hooks.specs.Vacant.{AreVacancies, IsAnsweredWithoutSeat, IsVacant, let_in_answer};

use crate::answer::{PriceAnswer, TagAnswer};
use crate::asker::Asker;
use crate::history::HistoryPrefix;
use crate::rule::{ProgramReader, Sees};
use crate::value::Vacancies;
use crate::veto_answers::VetoAnswers;
use keyed_map::Pages;
use words::{External, Route, Second};

// The hooks without a program, by one reading; `None` if the published programs can't be read, or
// are older than those that the asker knows.
fn look(reader: ProgramReader, prefix: &mut HistoryPrefix) -> (ProgramReader, Option<Vacancies>)
    requires { HasSeen prefix.old.seen.book (view reader.place) }
    ensures same { (prefix.new.seen.book ≡ prefix.old.seen.book)
        × HasSeen prefix.new.seen.book (view result.0.place) }
    ensures begins { IsPrefix prefix.old.seen.log prefix.new.seen.log }
    ensures vacant { IfSome result.1 (AreVacancies prefix.new.seen.log) }
{
    let reading = match reader.enter_as::<Sees>() {
        Err(reader) => return (reader, None),
        Ok(reading) => reading,
    };
    let programs = reading.get();
    if !programs.prefix.reaches(prefix) {
        return (reading.leave(), None);
    }
    let vacancies = programs.vacancies();
    *prefix = programs.prefix.copy();
    (reading.leave(), Some(vacancies))
}

impl Asker {
    // Which hooks have no program, by one reading of the published programs; `None` if they can't
    // be read, or are older than those that the asker knows.
    fn vacancies(&mut self) -> Option<Vacancies>
        ensures history { asker_history self.new ≡ asker_history self.old }
        ensures known { IsPrefix (known_to self.old) (known_to self.new) }
        ensures vacant { IfSome result (AreVacancies (known_to self.new)) }
    {
        let Some(reader) = self.reader.take() else {
            unreachable!()
        };
        let (reader, vacancies) = look(reader, &mut self.prefix);
        self.reader = Some(reader);
        vacancies
    }

    /// Whether no program stands at `veto`, as one reading shows. `None` if the published programs
    /// can't be read, or are older than those that the asker knows.
    pub fn is_veto_vacant(&mut self) -> Option<bool>
        ensures history { asker_history self.new ≡ asker_history self.old }
        ensures known { IsPrefix (known_to self.old) (known_to self.new) }
        ensures vacant { IfSome result (λ vacant.
            IsTrue vacant ↔ IsVacant Veto (known_to self.new)) }
    {
        let vacancies = self.vacancies()?;
        Some(vacancies.veto)
    }

    /// The answers of `tag` and `price` on an external destination if one reading shows no program
    /// at either: the configured tag and the configured metric. They are the same whatever the
    /// rows, and use no seat. `None` if either hook has a program, or if the published programs
    /// can't be read.
    pub fn configured(
        &mut self,
        external: &External,
        moment: Second,
    ) -> Option<(TagAnswer, PriceAnswer)>
        ensures history { asker_history self.new ≡ asker_history self.old }
        ensures known { IsPrefix (known_to self.old) (known_to self.new) }
        ensures vacant { IfSome result (λ _.
            IsVacant Tag (known_to self.new) × IsVacant Price (known_to self.new)) }
        ensures tag { IfSome result (λ r. (r.0.external ≡ external.now) × (r.0.moment ≡ moment)) }
        ensures price { IfSome result (λ r. (r.1.external ≡ external.now) × (r.1.moment ≡ moment)) }
        ensures tagged { IfSome result (λ r. (rows : List TableRow) → IsAnsweredWithoutSeat
            (known_to self.old) (known_to self.new) (tag_input external.now moment rows) r.0.word) }
        ensures priced { IfSome result (λ r. (rows : List TableRow) → IsAnsweredWithoutSeat
            (known_to self.old) (known_to self.new) (price_input external.now moment rows)
            r.1.word) }
    {
        let vacancies = self.vacancies()?;
        if !vacancies.tag || !vacancies.price {
            return None;
        }
        let tag = TagAnswer::new(*external, moment, u64::from(external.tag));
        let price = PriceAnswer::new(*external, moment, u64::from(external.metric));
        Some((tag, price))
    }

    /// The answers of `veto` on routes, in order, if one reading shows no program there: each route
    /// is let in. They are the same whatever the rows, and use no seat. `None` if the hook has a
    /// program, or if the published programs can't be read.
    pub fn all_let_in(&mut self, routes: Pages<Route>, moment: Second) -> Option<VetoAnswers>
        ensures history { asker_history self.new ≡ asker_history self.old }
        ensures known { IsPrefix (known_to self.old) (known_to self.new) }
        ensures vacant { IfSome result (λ _. IsVacant Veto (known_to self.new)) }
        ensures all { IfSome result (λ answers. answers ≡ map (let_in_answer moment) routes) }
        ensures answered { IfSome result (λ answers.
            (route : Route) (rows : List TableRow) → IsAnsweredWithoutSeat
            (known_to self.old) (known_to self.new) (veto_input route moment rows) 0) }
    {
        match self.vacancies() {
            Some(vacancies) if vacancies.veto => Some(VetoAnswers::all_in(moment, routes)),
            _ => None,
        }
    }
}
