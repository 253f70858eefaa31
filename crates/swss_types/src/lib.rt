//! The words of the switch state service: addresses, names, lanes and texts, and the outside as traits.
#![tactic(auto)]

mod address;
mod bits;
mod hex;
mod interface;
mod ip;
mod ipv4;
mod lanes;
mod laws;
mod mac;
mod number;
mod out_of_memory;
mod outside;
mod outside_memory;
mod parts;
mod prefix;
mod rising;
mod tagging;
mod text;
mod vrf;

pub use address::{Family, Ip, Mac, Prefix, V4_BITS, V6_BITS};
pub use bits::Bits;
pub use interface::{IfName, MOST_PORT, MOST_VLAN};
pub use lanes::{LANE_BOUND, Lanes};
pub use laws::{
    addresses_read_back, interface_addresses_read_back, interface_names_read_back, lanes_read_back,
    macs_read_back, numbers_read_back, prefixes_read_back, taggings_read_back, vrf_names_read_back,
};
pub use number::{read_number, write_number};
pub use out_of_memory::OutOfMemory;
pub use outside::{Gate, Got, Sink, Source, Took};
pub use outside_memory::{MemSink, MemSource, Open};
pub use parts::cut_at;
pub use prefix::{has_host_bits, read_interface_address, write_interface_address};
pub use rising::insert_rising;
pub use tagging::Tagging;
pub use text::Text;
pub use vrf::{Packet, Vrf, VrfName};
