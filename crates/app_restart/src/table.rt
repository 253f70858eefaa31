// The tables of keys, and the keys of writes.
ghost use Rattle.std.specs.Prelude.{◌≡◌, ◌==◌};
ghost use Rattle.std.specs.List.{position};
ghost use Rattle.app_restart.specs.TableName.{before_colon, table_name, key_of_write};

use table_schema::{Key, Write};

/// The name of a key's table, as `PORT_TABLE`. Of a key that does not read it is the text before its first colon, and all of
/// it where it has none.
pub fn table_of(key: &Key) -> &[u8]
    ensures { result.now ≡ table_name key.now }
{
    match key {
        Key::Port(_) => b"PORT_TABLE",
        Key::Vlan(_) => b"VLAN_TABLE",
        Key::Vrf(_) => b"VRF_TABLE",
        Key::Member(_, _) => b"VLAN_MEMBER_TABLE",
        Key::Intf(_) | Key::Addr(_, _, _) => b"INTF_TABLE",
        Key::Neigh(_, _) => b"NEIGH_TABLE",
        Key::Route(_, _) => b"ROUTE_TABLE",
        Key::Other(text) => before_colon(text.bytes()),
    }
}

/// What stands before the first colon of a text, and all of it where it has none.
fn before_colon(text: &[u8]) -> &[u8]
    ensures { result.now ≡ before_colon text.now }
{
    match colon_in(text) {
        Some(at) => &text[..at],
        None => text,
    }
}

/// The place of the first colon.
fn colon_in(text: &[u8]) -> Option<usize>
    ensures { result ≡ position (λ byte. byte == 58) text.now }
{
    text.iter().position(|byte| *byte == b':')
}

/// The key of a write.
pub fn key_of_write(write: &Write) -> &Key
    ensures { result.now ≡ key_of_write write.now }
{
    match write {
        Write::Set(key, _) | Write::Del(key) => key,
    }
}
