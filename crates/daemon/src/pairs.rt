//! Ports and the transports that receive at their interfaces.
ghost use Rattle.std.specs.Prelude.{◌≡◌, ◌+◌, IfNone, IfSome, map, vec_len};

use worker::{Port, Site, Sockets};

/// The last port and the last transport, which receives at the interface of the port's number.
#[tactic(auto, using(crate::proofs::Alike::last_alike, crate::proofs::Alike::rest_alike))]
pub fn next_pair<'s, L: Site>(
    ports: &mut Vec<Port<L>>,
    transports: &mut Vec<Sockets<'s>>,
) -> Option<(Port<L>, Sockets<'s>)>
    requires { map (λ p. p.number) ports.old.items ≡ map (λ l. l.own) transports.old.items }
    ensures same { IfSome result (λ pair. pair.0.number ≡ pair.1.own) }
    ensures rest { map (λ p. p.number) ports.new.items ≡ map (λ l. l.own) transports.new.items }
    ensures some { IfSome result (λ _. vec_len ports.new + 1 ≡ vec_len ports.old) }
    ensures none { IfNone result (vec_len ports.old ≡ 0) }
{
    let port = ports.pop()?;
    let Some(transport) = transports.pop() else {
        unreachable!()
    };
    Some((port, transport))
}
