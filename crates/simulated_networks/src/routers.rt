//! The routers of a network.
use crate::fault::NetworkError;
use crate::one_router::{InterfaceTimes, begun, fulls_of, print_of};
use crate::topology::{FarEnd, Topology};
use flood::{Core, CoreError, Event, Out};
use std::alloc::{AllocError, AllocFailed, Global};
use std::mem::replace;
use words::{Hops, Route, Second};

/// The routers of a network, by their places. They have no `Drop`: their owner closes them, so that
/// no other crate proves once more how the parts of a router are dropped.
pub struct Routers {
    /// Why something is left out: memory was refused, or the times aren't allowed.
    pub fault: Option<NetworkError>,
    /// How many events were refused.
    pub refused: u64,
    alloc: Global,
    times: InterfaceTimes,
    cores: Vec<Core>,
}

impl Routers {
    /// Those of the topology, which begin at 0.
    pub fn new(alloc: Global, topology: &Topology, times: InterfaceTimes) -> Routers {
        let mut routers = Routers {
            fault: None,
            refused: 0,
            alloc,
            times,
            cores: Vec::new(alloc),
        };
        for ends in &topology.ends {
            routers.add(ends);
        }
        routers
    }

    fn add(&mut self, ends: &[FarEnd]) {
        match begun(self.alloc, ends, self.cores.len(), self.times, 0) {
            Ok(core) => self.keep(core),
            Err(fault) => self.fault = Some(fault),
        }
    }

    fn keep(&mut self, core: Core) {
        match self.cores.push(core) {
            Ok(()) => (),
            Err(failed) => {
                let AllocFailed { value } = failed;
                value.close();
                self.fault = Some(NetworkError::Memory);
            }
        }
    }

    /// The router at a place.
    pub fn get(&self, place: usize) -> Option<&Core> {
        if place < self.cores.len() {
            Some(&self.cores[place])
        } else {
            None
        }
    }

    fn answered(
        &mut self,
        place: usize,
        moment: u64,
        event: &Event,
    ) -> Result<Vec<Out>, CoreError> {
        if place < self.cores.len() {
            self.cores[place].step(Second::new(moment), event)
        } else {
            Err(CoreError::NoInterface)
        }
    }

    /// What the router at a place sends at an event: nothing if there is no router, or it refuses
    /// the event.
    pub fn step(&mut self, place: usize, moment: u64, event: &Event) -> Vec<Out> {
        match self.answered(place, moment, event) {
            Ok(outs) => outs,
            Err(error) => {
                self.refused = self.refused.saturating_add(1);
                self.fault = fault_after(self.fault, error);
                Vec::new(self.alloc)
            }
        }
    }

    fn put(&mut self, place: usize, core: Core) {
        if place < self.cores.len() {
            replace(&mut self.cores[place], core).close();
        } else {
            core.close();
        }
    }

    /// The router at a place, if there is one, begins anew at this moment.
    pub fn restart(&mut self, topology: &Topology, place: usize, moment: u64) {
        if place >= self.cores.len() {
            return;
        }
        match begun(
            self.alloc,
            topology.ends_of(place),
            place,
            self.times,
            moment,
        ) {
            Ok(core) => self.put(place, core),
            Err(fault) => self.fault = Some(fault),
        }
    }

    /// The interfaces of the router with a Full neighbor.
    pub(crate) fn fulls(&self, place: usize) -> Hops {
        if place < self.cores.len() {
            fulls_of(&self.cores[place])
        } else {
            Hops::NONE
        }
    }

    /// A hash of the instances that the router holds below MaxAge.
    pub(crate) fn print(&self, place: usize) -> u64 {
        if place < self.cores.len() {
            print_of(&self.cores[place])
        } else {
            0
        }
    }

    /// The routes that the router has for its table.
    ///
    /// # Errors
    /// `AllocError` if an allocation is refused.
    pub(crate) fn routes(&self, place: usize) -> Result<Vec<Route>, AllocError> {
        if place < self.cores.len() {
            self.cores[place].candidates()?.to_vec()
        } else {
            Ok(Vec::new(self.alloc))
        }
    }

    /// How many walks they have made and kept.
    pub fn walks(&self) -> u64 {
        let mut walks = 0_u64;
        for core in &self.cores {
            walks = walks.saturating_add(core.walks());
        }
        walks
    }

    /// Frees the routers.
    pub fn close(self) {
        let Routers {
            fault: _,
            refused: _,
            alloc: _,
            times: _,
            mut cores,
        } = self;
        while let Some(core) = cores.pop() {
            core.close();
        }
        cores.destroy_empty();
    }
}

fn fault_after(before: Option<NetworkError>, error: CoreError) -> Option<NetworkError> {
    match error {
        CoreError::Memory => Some(NetworkError::Memory),
        _ => before,
    }
}
