// Keys that need no memory.
ghost use Rattle.std.specs.Prelude.{◌≡◌};
ghost use Rattle.ref_counts.specs.Registered.{IsReadable};

use table_schema::Key;

/// A readable key once more; this takes no memory. Unreadable keys are not for it: `Key::copy` copies their text.
#[inline(always)]
pub fn copied(key: &Key) -> Key
    requires { IsReadable key.now }
    ensures { result ≡ key.now }
{
    match key {
        Key::Port(port) => Key::Port(*port),
        Key::Vlan(vlan) => Key::Vlan(*vlan),
        Key::Vrf(name) => Key::Vrf(*name),
        Key::Member(vlan, port) => Key::Member(*vlan, *port),
        Key::Intf(on) => Key::Intf(*on),
        Key::Addr(on, ip, len) => Key::Addr(*on, *ip, *len),
        Key::Neigh(on, ip) => Key::Neigh(*on, *ip),
        Key::Route(vrf, prefix) => Key::Route(*vrf, *prefix),
        Key::Other(_) => unreachable!(),
    }
}
