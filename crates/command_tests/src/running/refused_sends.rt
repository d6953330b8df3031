//! A transport whose socket refuses sends, as by a rule of a firewall, for some calls.
use std::io;
use std::process::Abort;
use std::sync::atomic::{AtomicUsize, Ordering};
use worker::{DatagramSocket, Sockets, Transport, Wire, judge_receive, judge_send};

// EPERM, EACCES, EAGAIN, ENOMEM, EMSGSIZE, EADDRNOTAVAIL, ENETDOWN, ENETUNREACH, ENETRESET,
// ENOBUFS, ECONNREFUSED, EHOSTDOWN and EHOSTUNREACH of Linux, and at last EINVAL, which a route
// gives that lets packets vanish: a packet is lost, and the socket is of use.
const OF_A_SEND: [i32; 14] = [1, 13, 11, 12, 90, 99, 100, 101, 102, 105, 111, 112, 113, 22];

// Refuses its calls with these numbers of the system, one after the other, and none after the last;
// it counts what it was handed for UDP port 7002.
#[derive(Drop)]
struct Refusing<'a> {
    numbers: &'a [i32],
    calls: AtomicUsize,
    handed: AtomicUsize,
}

impl<'a> Refusing<'a> {
    fn new(numbers: &'a [i32]) -> Refusing<'a> {
        Refusing {
            numbers,
            calls: AtomicUsize::new(0),
            handed: AtomicUsize::new(0),
        }
    }
}

impl<'a> DatagramSocket for Refusing<'a> {
    ghost use Rattle.std.specs.Prelude.{⊤};

    ghost takes = { λ _ _ _. ⊤ };

    ghost hands = { λ _ _. ⊤ };

    ghost refuses = { λ _ _. ⊤ };

    fn send(&self, bytes: &[u8], udp_port: u16) -> io::Result<usize> {
        let call = self.calls.fetch_add(1, Ordering::SeqCst);
        if let Some(number) = self.numbers.get(call) {
            return Err(io::Error::from_raw_os_error(*number));
        }
        if udp_port == 7002 {
            self.handed.fetch_add(bytes.len(), Ordering::SeqCst);
        }
        Ok(bytes.len())
    }

    fn receive(&self, _buffer: &mut [u8; 8193]) -> io::Result<usize> {
        Ok(0)
    }
}

// A send at an interface: whether the packet is sent (else it is lost); `None` if the transport
// fails.
type Send<'a> = (u16, &'a [u8], Option<bool>);

const LOST: Send<'_> = (2, b"lost", Some(false));

const AT_1: Send<'_> = (1, b"at 1", Some(true));

const SENT: Send<'_> = (2, b"sent", Some(true));

const AT_0: Send<'_> = (0, b"none", Some(false));

const AT_3: Send<'_> = (3, b"none", Some(false));

const FAULT: Send<'_> = (2, b"fault", None);

const NONE: Send<'_> = (2, b"none", Some(false));

// The numbers with which the socket of interface 2 refuses its first calls, the sends, and the
// number of bytes that this socket takes.
type Row<'a> = (&'a [i32], &'a [Send<'a>], usize);

const ROWS: &[Row<'_>] = &[
    // each refused send is lost, one at the other interface goes out, and so does the next one; at
    // an interface that there isn't none does
    (
        &OF_A_SEND,
        &[
            LOST, AT_1, LOST, AT_1, LOST, AT_1, LOST, AT_1, LOST, AT_1, LOST, AT_1, LOST, AT_1,
            LOST, AT_1, LOST, AT_1, LOST, AT_1, LOST, AT_1, LOST, AT_1, LOST, AT_1, LOST, AT_1,
            SENT, AT_0, AT_3,
        ],
        4,
    ),
    // EBADF, EFAULT, ENOTSOCK, EOPNOTSUPP and EAFNOSUPPORT: the socket is of no use, and the
    // transport sends nothing more
    (&[9], &[FAULT, NONE], 0),
    (&[14], &[FAULT, NONE], 0),
    (&[88], &[FAULT, NONE], 0),
    (&[95], &[FAULT, NONE], 0),
    (&[97], &[FAULT, NONE], 0),
];

fn goes<L: Transport>(transport: &mut L, sends: &[Send<'_>]) -> bool {
    for send in sends {
        let (interface, bytes, wanted) = *send;
        if transport.send(interface, bytes).ok() != wanted {
            return false;
        }
    }
    true
}

fn plays(numbers: &[i32], sends: &[Send<'_>], handed: usize) -> bool {
    let wires = [
        Wire::new(Refusing::new(&[]), 7001),
        Wire::new(Refusing::new(numbers), 7002),
    ];
    let mut transport = Sockets::of_console(&wires);
    goes(&mut transport, sends) && wires[1].socket().handed.load(Ordering::SeqCst) == handed
}

#[test]
fn a_send_that_is_refused_is_a_lost_packet_or_a_fault(rt: HostRuntime) {
    for row in ROWS {
        let (numbers, sends, handed) = *row;
        assert!(rt; plays(numbers, sends, handed), "{numbers:?}");
    }
}

// A number of the system, and whether a receive that is refused with it gives nothing; else it is a
// fault. No route can be the reason of EINVAL there.
const OF_A_RECEIVE: &[(i32, bool)] = &[
    (1, true),
    (13, true),
    (11, true),
    (12, true),
    (90, true),
    (99, true),
    (100, true),
    (101, true),
    (102, true),
    (105, true),
    (111, true),
    (112, true),
    (113, true),
    (22, false),
    (9, false),
    (14, false),
    (88, false),
    (95, false),
    (97, false),
];

fn gives_nothing(number: i32) -> bool {
    judge_receive(Err(io::Error::from_raw_os_error(number))) == Ok(None)
}

fn is_a_fault(number: i32) -> bool {
    judge_receive(Err(io::Error::from_raw_os_error(number))).is_err()
}

#[test]
fn a_receive_that_is_refused_gives_nothing(rt: HostRuntime) {
    for row in OF_A_RECEIVE {
        let (number, is_passing) = *row;
        assert!(rt;
            gives_nothing(number) == is_passing && is_a_fault(number) != is_passing,
            "{number}"
        );
    }
    assert!(rt; judge_receive(Ok(44)) == Ok(Some(44)) && judge_send(Ok(44)) == Ok(true));
}
