//! What packing needs to know of an item: its key, its size in a packet, and the packet's body.
ghost use Rattle.std.specs.Prelude.{◌≡◌};

use adjacency::Update;
use lsa::{HEADER_LENGTH, Header};
use packet::{Description, Hello, PacketBody};
use words::{Key, LinkStateId, RouterId, Sequence};

/// An item that is sorted by a key.
pub trait HasKey {
    ghost use Rattle.words.specs.declared.key.Key.{Key};

    ghost order_key: { Self → Key };

    fn order_key(&self) -> Key
        ensures { result ≡ order_key self.now };
}

impl HasKey for Update {
    ghost order_key = { λ update. update.key };

    fn order_key(&self) -> Key {
        self.key
    }
}

impl HasKey for Header {
    ghost use Rattle.lsdb.specs.Headers.{key_of};

    ghost order_key = { λ header. key_of header };

    fn order_key(&self) -> Key {
        self.key()
    }
}

/// Link State Requests are sorted by their first keys.
impl HasKey for Sequence<Key> {
    ghost use Rattle.event_rules.specs.Packing.{first_key};

    ghost order_key = { λ keys. first_key keys };

    fn order_key(&self) -> Key {
        match self.as_slice() {
            [] => Key {
                ls_type: 0,
                link_state_id: LinkStateId::new(0),
                advertising_router: RouterId::new(0),
            },
            [first, ..] => *first,
        }
    }
}

/// An item that is packed with others of its kind.
pub trait HasSize {
    ghost use Rattle.std.specs.Prelude.{ℕ};

    ghost size: { Self → ℕ };

    fn size(&self) -> usize
        ensures { result ≡ size self.now };
}

/// The bytes of an LSA.
impl HasSize for Sequence<u8> {
    ghost use Rattle.std.specs.Prelude.{length};

    ghost size = { λ text. length text };

    fn size(&self) -> usize {
        self.as_slice().len()
    }
}

impl HasSize for Header {
    ghost use Rattle.event_rules.specs.Packing.{header_size};

    ghost size = { λ header. header_size header };

    fn size(&self) -> usize {
        HEADER_LENGTH
    }
}

/// The contents of a packet.
pub trait Says {
    ghost use Rattle.packet.specs.declared.model.PacketBody.{PacketBody};

    ghost says: { Self → PacketBody };

    fn body(self) -> PacketBody
        ensures { result ≡ says self };
}

impl Says for Hello {
    ghost use Rattle.packet.specs.declared.model.PacketBody.TheVariants as body;

    ghost says = { λ hello. body.Hello hello };

    fn body(self) -> PacketBody {
        PacketBody::Hello(self)
    }
}

impl Says for Description {
    ghost use Rattle.packet.specs.declared.model.PacketBody.TheVariants as body;

    ghost says = { λ description. body.Description description };

    fn body(self) -> PacketBody {
        PacketBody::Description(self)
    }
}

impl Says for Sequence<Key> {
    ghost use Rattle.packet.specs.declared.model.PacketBody.TheVariants as body;

    ghost says = { λ keys. body.Request keys };

    fn body(self) -> PacketBody {
        PacketBody::Request(self)
    }
}

impl Says for Sequence<Sequence<u8>> {
    ghost use Rattle.packet.specs.declared.model.PacketBody.TheVariants as body;

    ghost says = { λ lsas. body.Update lsas };

    fn body(self) -> PacketBody {
        PacketBody::Update(self)
    }
}

impl Says for Sequence<Header> {
    ghost use Rattle.packet.specs.declared.model.PacketBody.TheVariants as body;

    ghost says = { λ headers. body.Acknowledgment headers };

    fn body(self) -> PacketBody {
        PacketBody::Acknowledgment(self)
    }
}
