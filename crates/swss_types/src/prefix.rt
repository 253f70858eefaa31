// The texts of prefixes and of interface addresses.
ghost use Rattle.std.specs.Prelude.{◌≡◌, false, true, ◌≤◌, ◌++◌, length, take, IfSome, OnOk, OnErr};
ghost use Rattle.swss_types.specs.Address.{width, IsPrefixOf, IsProperIp, IsProperPrefix};
ghost use Rattle.swss_types.specs.Prefix.{prefix_of, interface_address_of, has_host_bits, is_clean, prefix_text, interface_address_text, IsProperInterfaceAddress};

use crate::{Family, Ip, OutOfMemory, Prefix, V4_BITS, V6_BITS, cut_at, read_number, write_number};

impl Prefix {
    /// The prefix of an address's first bits. None where the address is not proper, the length is past its family's
    /// range, or a bit past the length is set.
    pub fn new(ip: Ip, len: u8) -> Option<Prefix>
        ensures { IsPrefixOf ip len result }
    {
        if !is_proper(ip) || len > ip.family.width() {
            return None;
        }
        if !is_clean(&ip, len) {
            return None;
        }
        Some(Prefix { ip, len })
    }

    /// The prefix that the text writes: an address, or an address, `/` and a length in its family's range, without bits
    /// past the length. Without `/` the length is that of the address. None where it is no such text.
    pub fn read(text: &[u8]) -> Option<Prefix>
        ensures value { result ≡ prefix_of text.now }
        ensures proper { IfSome result IsProperPrefix }
    {
        let (ip, len) = read_interface_address(text)?;
        if !is_clean(&ip, len) {
            return None;
        }
        Some(Prefix { ip, len })
    }

    /// Appends the written form: the address, `/` and the length.
    pub fn write(&self, out: &mut Vec<u8>) -> Result<(), OutOfMemory>
        ensures ok { OnOk result (out.new.items ≡ out.old.items ++ prefix_text self.now) }
        ensures err { OnErr result (out.new.items ≡ out.old.items) }
    {
        write_interface_address(out, self.ip, self.len)
    }
}

/// The address and the length that the text writes, in the form of a prefix; the bits past the length are free. None
/// where it is no such text.
pub fn read_interface_address(text: &[u8]) -> Option<(Ip, u8)>
    ensures value { result ≡ interface_address_of text.now }
    ensures proper { IfSome result IsProperInterfaceAddress }
{
    let (address, behind) = cut_at(text, b'/');
    let ip = Ip::read(address)?;
    let Some(number) = behind else {
        return Some((ip, ip.family.width()));
    };
    let (number, other) = cut_at(number, b'/');
    if let Some(_) = other {
        return None;
    }
    let len = read_number(number, u32::from(ip.family.width()))?;
    Some((ip, len as u8))
}

/// Appends the written form of an interface address: the address, `/` and the length.
pub fn write_interface_address(out: &mut Vec<u8>, ip: Ip, len: u8) -> Result<(), OutOfMemory>
    ensures ok { OnOk result (out.new.items ≡ out.old.items ++ interface_address_text ip len) }
    ensures err { OnErr result (out.new.items ≡ out.old.items) }
{
    let before = out.len();
    if let Err(error) = write_address(out, ip, len) {
        out.truncate(before);
        return Err(error);
    }
    Ok(())
}

/// Appends the address, `/` and the length. An Err may leave a part of it.
fn write_address(out: &mut Vec<u8>, ip: Ip, len: u8) -> Result<(), OutOfMemory>
    ensures ok { OnOk result (out.new.items ≡ out.old.items ++ interface_address_text ip len) }
    ensures err { OnErr result (take (length out.old.items) out.new.items ≡ out.old.items) }
{
    ip.write(out)?;
    out.push(b'/')?;
    write_number(out, u64::from(len))
}

/// Whether the text is a prefix but for bits past its length, which are not all zero.
pub fn has_host_bits(text: &[u8]) -> bool
    ensures { result ≡ has_host_bits text.now }
{
    match read_interface_address(text) {
        Some((ip, len)) => !is_clean(&ip, len),
        None => false,
    }
}

/// Whether the address is proper.
fn is_proper(ip: Ip) -> bool
    ensures yes { result ≡ true → IsProperIp ip }
    ensures no { result ≡ false → IsProperIp ip → ⊥ }
{
    match ip.family {
        Family::V4 => ip.bits.number() < 1 << V4_BITS,
        Family::V6 => true,
    }
}

/// Whether all bits of the address past the length are zero.
fn is_clean(ip: &Ip, len: u8) -> bool
    requires { len ≤ width ip.now.family }
    ensures { result ≡ is_clean ip.now len }
{
    let rest = ip.family.width() - len;
    if rest == V6_BITS {
        ip.bits.number() == 0
    } else {
        ip.bits.number() % (1 << rest) == 0
    }
}
