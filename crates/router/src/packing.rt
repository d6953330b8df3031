//! As many items in each packet as fit.
ghost use Rattle.std.specs.Prelude.{◌≡◌, ◌≤◌, ◌+◌, List, [], ◌∷◌, ◌++◌};
ghost use Rattle.std.specs.Prelude.{IfOk, OnOk};
ghost use Rattle.std.specs.List.{AllByRecursion};
ghost use Rattle.words.specs.Constants.{largest_packet};
ghost use Rattle.event_rules.specs.Packing.{packed_groups};
ghost use Rattle.router.specs.Fillings.{IsFilling, finished_packets};

use crate::contents::HasSize;
use std::alloc::{AllocError, Global};
use words::{LARGEST_PACKET, Sequence};

// The items of the full packets, and of the one that is being filled.
#[derive(Drop)]
struct Filling<X> {
    packets: Vec<Sequence<X>>,
    taken: Vec<X>,
    // the bytes of a packet before its first item, and those of the one that is being filled so far
    start: usize,
    used: usize,
}

impl<X: HasSize + Drop> Filling<X> {
    fn new(alloc: Global, start: usize) -> Self
        ensures packets { result.packets.items ≡ [] }
        ensures taken { result.taken.items ≡ [] }
        ensures start { result.start ≡ start }
        ensures used { result.used ≡ start }
    {
        Filling {
            packets: Vec::new(alloc),
            taken: Vec::new(alloc),
            start,
            used: start,
        }
    }

    // Completes the packet that is being filled.
    fn close(&mut self, alloc: Global) -> Result<(), AllocError>
        ensures packets { OnOk result (self.new.packets.items
            ≡ self.old.packets.items ++ self.old.taken.items ∷ []) }
        ensures taken { OnOk result (self.new.taken.items ≡ []) }
        ensures start { OnOk result (self.new.start ≡ self.old.start) }
        ensures used { OnOk result (self.new.used ≡ self.old.start) }
    {
        let taken = std::mem::replace(&mut self.taken, Vec::new(alloc));
        self.packets.push(Sequence::from_vec(taken))?;
        self.used = self.start;
        Ok(())
    }

    // Adds the item to the packet that is being filled.
    fn add(&mut self, item: X) -> Result<(), AllocError>
        requires { self.old.used + X.size item ≤ largest_packet }
        ensures packets { OnOk result (self.new.packets.items ≡ self.old.packets.items) }
        ensures taken { OnOk result (self.new.taken.items ≡ self.old.taken.items ++ item ∷ []) }
        ensures start { OnOk result (self.new.start ≡ self.old.start) }
        ensures used { OnOk result (self.new.used ≡ self.old.used + X.size item) }
    {
        self.used += item.size();
        self.taken.push(item)?;
        Ok(())
    }

    // Adds the item to the packet that is being filled, or to the next one if it doesn't fit.
    fn pack(&mut self, alloc: Global, item: X) -> Result<(), AllocError>
        requires filling { IsFilling self.old.start self.old.used self.old.taken.items }
        requires room { self.old.start + X.size item ≤ largest_packet }
        ensures filling { OnOk result
            (IsFilling self.new.start self.new.used self.new.taken.items) }
        ensures start { OnOk result (self.new.start ≡ self.old.start) }
        ensures packed { OnOk result ((rest : List X)
            → finished_packets X.size self.new.start self.new.used
            self.new.packets.items self.new.taken.items rest
            ≡ finished_packets X.size self.old.start self.old.used
            self.old.packets.items self.old.taken.items (item ∷ rest)) }
    {
        if self.used + item.size() <= usize::from(LARGEST_PACKET) {
            return self.add(item);
        }
        self.close(alloc)?;
        self.add(item)
    }

    // All packets, including the one that is being filled.
    fn finish(mut self, alloc: Global) -> Result<Vec<Sequence<X>>, AllocError>
        ensures { IfOk result (λ packets. packets.items
            ≡ finished_packets X.size self.start self.used self.packets.items self.taken.items []) }
    {
        if !self.taken.is_empty() {
            self.close(alloc)?;
        }
        Ok(self.packets)
    }
}

/// The items in order, as many in each packet as fit after its first `start` bytes.
///
/// # Errors
/// `AllocError` if an allocation is refused.
pub fn packed<X: HasSize + Drop>(
    alloc: Global,
    start: usize,
    items: Vec<X>,
) -> Result<Vec<Sequence<X>>, AllocError>
    requires start { start ≤ largest_packet }
    // Each fits into a packet of its own.
    requires room { AllByRecursion (λ item. start + X.size item ≤ largest_packet) items.items }
    ensures { IfOk result (λ packets. packets.items ≡ packed_groups X.size start items.items) }
{
    let mut filling = Filling::new(alloc, start);
    for item in items {
        filling.pack(alloc, item)?;
    }
    filling.finish(alloc)
}
