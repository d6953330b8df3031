//! A router one of whose sockets fails. Nothing can be sent to UDP port 0, which no configuration
//! says.
use console::ConfiguredInterface;
use daemon::{StartError, operate};
use event_rules::{Config, Interface};
use log::Log;
use std::alloc::{AllocError, Global};
use std::io::{self, Cursor, Write};
use std::net::Net;
use std::process::Abort;
use std::rt::Files;
use std::sync::Wait;
use std::thread::{Threads, sleep};
use std::time::{Clock, Duration};
use words::{Address, RouterId, Second, Sequence};
use worker::{SocketError, Sockets, Wire, bind_each, listening};

// Whether the router has an interface, the UDP ports that the sockets of its worker and of the
// console send to, the seconds that the workers have, and the router's status at its end.
struct Row {
    name: &'static str,
    has_interface: bool,
    worker: Option<u16>,
    own: Option<u16>,
    seconds: u64,
    status: u8,
}

// Of the rows with a worker the console's own transport never fails, so a fault is the worker's.
const ROWS: &[Row] = &[
    Row {
        name: "a worker whose sends go out",
        has_interface: true,
        worker: Some(27106),
        own: Some(27108),
        seconds: 3,
        status: 0,
    },
    Row {
        name: "a worker whose sends fail",
        has_interface: true,
        worker: Some(0),
        own: Some(27108),
        seconds: 3,
        status: 3,
    },
    Row {
        name: "a console whose sends go out",
        has_interface: true,
        worker: None,
        own: Some(27108),
        seconds: 0,
        status: 0,
    },
    Row {
        name: "a console whose sends fail",
        has_interface: true,
        worker: None,
        own: Some(0),
        seconds: 0,
        status: 3,
    },
    // It is outside the profile, and refused before it prints.
    Row {
        name: "a router without an interface",
        has_interface: false,
        worker: None,
        own: None,
        seconds: 0,
        status: 1,
    },
];

// What the console writes is counted, and each time the workers get some seconds.
#[derive(Drop)]
struct Slow<'a, R> {
    rt: &'a R,
    seconds: u64,
    written: usize,
}

impl<'a, R: Clock> Write for Slow<'a, R> {
    fn write(&mut self, bytes: &[u8]) -> io::Result<usize> {
        sleep(self.rt, Duration::from_secs(self.seconds));
        self.written = self.written.saturating_add(bytes.len());
        Ok(bytes.len())
    }

    fn flush(&mut self) -> io::Result<()> {
        Ok(())
    }
}

// 10.0.1.1/24, where a Hello is sent each second.
fn interface() -> Interface {
    Interface {
        address: Address::new(0x0a00_0101),
        length: 24,
        cost: 10,
        hello_interval: 1,
        dead_interval: 4,
        retransmit_interval: 1,
        delay: 1,
    }
}

// 1.1.1.1 with this interface, or with none.
fn config(alloc: Global, has_interface: bool) -> Result<Config, AllocError> {
    let mut interfaces = Vec::new(alloc);
    if has_interface {
        interfaces.push(interface())?;
    }
    Ok(Config {
        router: RouterId::new(0x0101_0101),
        start: Second::new(0),
        interfaces: Sequence::from_vec(interfaces),
    })
}

// A socket at this UDP port, if there is one that it sends to.
fn wires<R: Net + AllocGlobal>(
    rt: &R,
    udp_port: u16,
    peer: Option<u16>,
) -> Result<Vec<Wire>, SocketError> {
    match peer {
        None => bind_each(rt, rt.alloc(), &[]),
        Some(peer) => {
            let interface = interface();
            let configured = [ConfiguredInterface {
                interface,
                udp_port,
                peer,
            }];
            bind_each(rt, rt.alloc(), &configured)
        }
    }
}

// The status of the row's router with these sockets: 1 if it is refused for line 1 of its
// configuration before it prints, 9 if `neighbors` isn't answered by the one line `end`.
fn run<R: Net + Threads + Wait + Clock + Log + Files + AllocGlobal + Sync + Drop>(
    rt: &R,
    row: &Row,
    wires: &[Wire],
    own: &[Wire],
) -> Result<u8, StartError> {
    let config = config(rt.alloc(), row.has_interface)?;
    let transports = listening(rt, rt.alloc(), wires)?;
    let mut input = Cursor::new(b"neighbors\nquit\n".as_slice());
    let mut output = Slow {
        rt,
        seconds: row.seconds,
        written: 0,
    };
    let own = Sockets::of_console(own);
    match operate(rt, &config, transports, own, &mut input, &mut output) {
        Ok(end) => Ok(if output.written == 4 { end.status() } else { 9 }),
        Err(StartError::Configuration(1)) => Ok(if output.written == 0 { 1 } else { 9 }),
        Err(fault) => Err(fault),
    }
}

// Whether the row's router has its status.
fn plays<R: Net + Threads + Wait + Clock + Log + Files + AllocGlobal + Sync + Drop>(
    rt: &R,
    row: &Row,
) -> bool {
    let Ok(wires_of_worker) = wires(rt, 27105, row.worker) else {
        return false;
    };
    let Ok(own) = wires(rt, 27107, row.own) else {
        return false;
    };
    match run(rt, row, &wires_of_worker, &own) {
        Ok(status) => status == row.status,
        Err(_) => false,
    }
}

// An allocation may be refused once: then a router doesn't run, or its first turn sends nothing.
#[test]
fn a_socket_that_fails_ends_it_with_status_3(rt: HostRuntime) {
    for row in ROWS {
        assert!(rt; plays(&rt, row) || plays(&rt, row), "{}", row.name);
    }
}
