//! An operator who changes the programs while a turn passes its gate.
use crate::side_by_side::number_of;
use crate::stage::Stage;
use operator::{Desk, Outlet, ReadsFiles};
use std::alloc::Global;
use std::marker::PhantomData;
use std::sync::Wait;
use std::sync::atomic::AtomicBool;
use whole_files::ReadFault;
use words::Second;
use worker::{Gate, Hub, Port, Script, Site, Taker, Times, Work, turn};

// 2^62, the first moment that no router takes.
const CLOCK_END: u64 = 1 << 62;

struct NoFiles {}

impl ReadsFiles for NoFiles {
    ghost holds = { λ path bytes. Unit {0} };

    ghost unreadable = { λ path. Unit {0} };

    fn bytes(&self, _path: &str) -> Result<Vec<u8>, ReadFault> {
        Err(ReadFault::Unreadable)
    }
}

// As a turn passes, an operator at port 0 detaches what stands at `veto`.
#[derive(Drop)]
struct Detaching<'r, 'h, 's, L: Site, B: Taker<L>, R: Wait, Q: Wait + Drop> {
    rt: &'r R,
    hub: &'h Hub<L, B>,
    desk: Desk<L, Q, Script<'s>, Times>,
    port: Port<L>,
}

impl<'r, 'h, 's, L: Site, B: Taker<L>, R: Wait, Q: Wait + Drop> Gate
    for Detaching<'r, 'h, 's, L, B, R, Q> {
    fn pass(&mut self, _port: u16) {
        let port = &mut self.port;
        let _told = self
            .desk
            .obey_with(self.rt, &NoFiles {}, self.hub, port, "detach veto");
    }
}

/// Port 1 makes a Tick's turn; as it passes, an operator detaches what stands at `veto`, by a clock
/// at which no refresh is taken. The number of the Tick's refusal, or 0.
pub fn operate<L: Site, B: Taker<L>, R: Wait, Q: Wait + Drop>(
    rt: &R,
    alloc: Global,
    hub: &Hub<L, B>,
    stage: Stage<L, Q>,
) -> u8 {
    let Stage { mut ports, loader } = stage;
    let (Some(port), Some(ticks)) = (ports.pop(), ports.pop()) else {
        return 9;
    };
    let mut ticks = ticks;
    let mut moments = Vec::new(alloc);
    let _is_pushed = moments.push(CLOCK_END).is_ok();
    let quit = AtomicBool::new(false);
    let desk = Desk {
        alloc,
        loader,
        interfaces: 2,
        outlet: Outlet {
            transport: Script::new(Vec::new(alloc), &quit),
            clock: Times::new(moments),
        },
        unrefreshed: false,
        of: PhantomData,
    };
    let mut gate = Detaching {
        rt,
        hub,
        desk,
        port,
    };
    let turned = turn(rt, hub, &mut ticks, &mut gate, Second::new(5), &Work::Tick);
    number_of(turned)
}
