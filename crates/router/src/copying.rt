//! Copies of routers.
ghost use Rattle.std.specs.Prelude.{◌≡◌, IfOk};
ghost use Rattle.area.specs.Drafted.{nothing_at};

use crate::state::Router;
use area::Revertible;
use keyed_map::RouteAnswers;
use std::alloc::{AllocError, Global};
use words::Second;

fn copy_answers(answers: &Revertible<RouteAnswers>) -> Result<Revertible<RouteAnswers>, AllocError>
    ensures { IfOk result (λ made. made
        ≡ record { present = answers.now.present; committed = answers.now.present }) }
{
    let again = answers.get().copy()?;
    Ok(Revertible::new(again))
}

fn copy_moment(moment: &Revertible<Second>) -> Revertible<Second>
    ensures { result ≡ record { present = moment.now.present; committed = moment.now.present } }
{
    Revertible::new(*moment.get())
}

impl Router {
    /// A copy of the router, committed, with nothing drafted.
    ///
    /// # Errors
    /// `AllocError` if an allocation is refused.
    pub fn copy(&self, alloc: Global) -> Result<Self, AllocError>
        ensures { IfOk result (λ made. made ≡ record {
          present = self.now.present;
          committed = self.now.present;
          drafted = nothing_at self.now.present.area.links;
        }) }
    {
        // For the prover alone, by what the call ensures.
        let _links = self.area.links();
        let area = self.area.copy(alloc)?;
        let announced = self.announced.copied(alloc)?;
        let waiting = self.waiting.copied(alloc)?;
        let originated = self.originated.copied(alloc)?;
        let answers = copy_answers(&self.answers)?;
        let moment = copy_moment(&self.moment);
        Ok(Router {
            id: self.id,
            area,
            announced,
            waiting,
            originated,
            answers,
            moment,
        })
    }
}
