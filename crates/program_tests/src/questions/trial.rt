//! A loader, one of its askers, and a seat of a table.
ghost use Rattle.std.specs.Prelude.{◌≡◌, All, IfOk, IfSome};
ghost use Rattle.maps.specs.Words.{IsSeatOf};
ghost use Rattle.hooks.specs.Known.{IsNew, asker_history, loader_history};

use crate::trials::{accepted_in, file_of, one_seat, row};
use hooks::{Asker, HookError, Loader, MAX_ASKERS, VetoAnswers, programs};
use keyed_map::Pages;
use machine::Hook;
use maps::{Seat, Shared};
use std::alloc::{AllocError, Global};
use std::sync::Wait;
use verifier::Accepted;
use words::{Address, External, ExternalType, Hops, Prefix, Route, RouteKind, Second, TableRow};

/// The moment of every question, in seconds.
pub const MOMENT: u64 = 5;

/// Answers 7 at `price`.
pub const SEVEN: &str = "hook price\nrank 0\nr0 = 7\nexit";

/// The program of the text.
pub fn accepted(alloc: Global, text: &str) -> Option<Accepted> {
    let bytes = file_of(alloc, text)?;
    accepted_in(alloc, &bytes)
}

/// What is asked about.
#[derive(Clone, Copy)]
pub struct Subjects {
    /// 203.0.113.0/24 of type 2 with the configured metric 20 and the configured tag 0x05060708.
    pub external: External,
    /// 192.0.2.0/24 within the area by interface 1, with cost 20 and with cost 21.
    pub routes: [Route; 2],
    /// The table: 192.0.2.0/24 with cost 20.
    pub rows: [TableRow; 1],
}

fn words_of(alloc: Global, answers: &VetoAnswers) -> Result<Vec<(Route, u64)>, AllocError> {
    answers.words(alloc)?.to_vec(alloc)
}

fn route(cost: u32) -> Option<Route> {
    let prefix = Prefix::new(Address::new(0xc000_0200), 24)?;
    Some(Route {
        prefix,
        kind: RouteKind::Intra,
        cost,
        distance: 0,
        hops: Hops::only(1),
        tag: 0,
    })
}

pub fn samples() -> Option<Subjects> {
    let prefix = Prefix::new(Address::new(0xcb00_7100), 24)?;
    let external = External {
        prefix,
        metric: 20,
        kind: ExternalType::Type2,
        tag: 0x0506_0708,
    };
    let routes = [route(20)?, route(21)?];
    let rows = [row()?];
    Some(Subjects {
        external,
        routes,
        rows,
    })
}

/// The asker belongs to the loader, and the seat to the table.
#[derive(Drop)]
pub struct HookTrial<R: Wait + Drop> {
    pub loader: Loader<R>,
    pub asker: Asker,
    pub shared: Shared,
    pub seat: Seat,
    ghost same: { asker_history asker ≡ loader_history loader },
    ghost table: { IsSeatOf shared seat },
}

// A loader with as many askers as there may be. It says less than `programs`, so that search goes
// through less.
fn loader_and_askers<R: Wait + Drop>(
    alloc: Global,
    rt: R,
) -> Result<(Loader<R>, Vec<Asker>), HookError>
    ensures { IfOk result (λ t. All (IsNew (loader_history t.0)) t.1.items) }
{
    programs(alloc, rt, MAX_ASKERS)
}

// A loader with the last of its askers.
fn loader_and_asker<R: Wait + Drop>(alloc: Global, rt: R) -> Option<(Loader<R>, Asker)>
    ensures { IfSome result (λ t. asker_history t.1 ≡ loader_history t.0) }
{
    let Ok((loader, mut askers)) = loader_and_askers(alloc, rt) else {
        return None;
    };
    let Some(asker) = askers.pop() else {
        return None;
    };
    Some((loader, asker))
}

impl<R: Wait + Drop> HookTrial<R> {
    /// A trial with no program attached.
    pub fn new(alloc: Global, rt: R) -> Option<HookTrial<R>> {
        let (shared, seat) = one_seat(alloc)?;
        let (loader, asker) = loader_and_asker(alloc, rt)?;
        Some(HookTrial {
            loader,
            asker,
            shared,
            seat,
        })
    }

    /// Attaches the program of the text. Returns whether it did.
    pub fn attach(&mut self, alloc: Global, text: &str) -> bool {
        match accepted(alloc, text) {
            Some(program) => self.loader.attach(program).is_ok(),
            None => false,
        }
    }

    pub fn detach(&mut self, hook: Hook) -> bool {
        self.loader.detach(hook).is_ok()
    }

    /// The asker learns of all that the loader has done.
    pub fn learn(&mut self) {
        self.asker.learn(self.loader.notice());
    }

    /// The word of `count` on the packet.
    pub fn count(&mut self, packet: &[u8]) -> Option<u64> {
        let answer = self.asker.count(
            1,
            Second::new(MOMENT),
            packet,
            &self.shared,
            &mut self.seat,
        )?;
        Some(answer.word())
    }

    /// The word of `tag` with a table of one row, and the tag in it.
    pub fn tag(&mut self, of: &Subjects) -> Option<(u64, u32)> {
        let (shared, seat) = (&self.shared, &mut self.seat);
        let answer = self
            .asker
            .tag(&of.external, Second::new(MOMENT), &of.rows, shared, seat)?;
        Some((answer.word(), answer.tag()))
    }

    /// The word of `price`.
    pub fn price(&mut self, of: &Subjects) -> Option<u64> {
        let (shared, seat) = (&self.shared, &mut self.seat);
        let priced = self
            .asker
            .price(&of.external, Second::new(MOMENT), &[], shared, seat)?;
        Some(priced.word())
    }

    /// The word of `veto`.
    pub fn veto(&mut self, of: &Subjects) -> Option<u64> {
        let (shared, seat) = (&self.shared, &mut self.seat);
        let vetoed = self
            .asker
            .veto(&of.routes[0], Second::new(MOMENT), &[], shared, seat)?;
        Some(vetoed.word())
    }

    /// The words of `veto` on both routes, by one reading; others if memory was refused.
    pub fn vetoes(&mut self, alloc: Global, of: &Subjects) -> Option<(u64, u64)> {
        let (shared, seat) = (&self.shared, &mut self.seat);
        let asked = self
            .asker
            .vetoes(alloc, &of.routes, Second::new(MOMENT), &[], shared, seat);
        let Ok(vetoed) = asked else {
            return Some((u64::MAX, u64::MAX));
        };
        let answers = vetoed?;
        match answers.as_slice() {
            [near, far] => Some((near.word(), far.word())),
            _ => None,
        }
    }

    /// The words of `tag` and `price`, if neither hook has a program.
    pub fn configured(&mut self, of: &Subjects) -> Option<(u64, u64)> {
        let (tag, price) = self.asker.configured(&of.external, Second::new(MOMENT))?;
        Some((tag.word(), price.word()))
    }

    /// How many of two routes are accepted, if `veto` has no program; none that there are if memory
    /// was refused.
    pub fn let_in(&mut self, alloc: Global, of: &Subjects) -> Option<usize> {
        let Ok(routes) = Pages::from_slice(alloc, &of.routes) else {
            return Some(usize::MAX);
        };
        let answers = self.asker.all_let_in(routes, Second::new(MOMENT))?;
        match words_of(alloc, &answers) {
            Ok(words) => Some(words.len()),
            Err(_) => Some(usize::MAX),
        }
    }
}
