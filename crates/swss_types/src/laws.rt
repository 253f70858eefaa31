// Laws of the texts. A written form reads as the value again, so no two values share one, and what reads is proper. The
// functions do nothing; their contracts are the laws.
ghost use Rattle.std.specs.Prelude.{◌≡◌, ◌<◌, ◌^◌, ℕ, List, Some};
ghost use Rattle.std.specs.Fmt.{decimal};
ghost use Rattle.std.specs.Net.Text.{hex};
ghost use Rattle.swss_types.specs.Address.{IsProperIp, IsProperPrefix};
ghost use Rattle.swss_types.specs.Interface.{if_name_of, if_name_text, IsProperIfName};
ghost use Rattle.swss_types.specs.Ip.{ip_of, ip_text, text_in, groups_in, IsPlainGroup, IsRecommended};
ghost use Rattle.swss_types.specs.Lanes.{lanes_of, lanes_text, IsLaneList};
ghost use Rattle.swss_types.specs.Laws.{ReadsBack, IsWrittenOnce, ReadsProper};
ghost use Rattle.swss_types.specs.Mac.{mac_of, mac_text, IsProperMac};
ghost use Rattle.swss_types.specs.Number.{number_of};
ghost use Rattle.swss_types.specs.Prefix.{interface_address_of, interface_address_text, prefix_of, prefix_text, IsProperInterfaceAddress};
ghost use Rattle.swss_types.specs.Tagging.{tagging_of, tagging_text};
ghost use Rattle.swss_types.specs.VrfNames.{vrf_name_of, vrf_name_text, IsProperVrfName};
ghost use Rattle.swss_types.specs.declared.address.Family.{Family};
ghost use Rattle.swss_types.specs.declared.tagging.Tagging.{Tagging};

/// A number's decimal form reads as the number, and no other text does.
pub fn numbers_read_back()
    ensures back { ReadsBack (λ n. n < 2 ^ 64) decimal number_of }
    ensures once { IsWrittenOnce (λ n. n < 2 ^ 64) decimal }
    ensures only { (text : List ℕ) (n : ℕ) → n < 2 ^ 64 → number_of text ≡ Some n → text ≡ decimal n }
{}

/// A written name of an interface reads as the name.
pub fn interface_names_read_back()
    ensures back { ReadsBack IsProperIfName if_name_text if_name_of }
    ensures once { IsWrittenOnce IsProperIfName if_name_text }
    ensures proper { ReadsProper IsProperIfName if_name_of }
{}

/// A written name of a virtual router reads as the name.
pub fn vrf_names_read_back()
    ensures back { ReadsBack IsProperVrfName vrf_name_text vrf_name_of }
    ensures once { IsWrittenOnce IsProperVrfName vrf_name_text }
    ensures proper { ReadsProper IsProperVrfName vrf_name_of }
{}

/// Written lanes read as the lanes.
pub fn lanes_read_back()
    ensures back { ReadsBack IsLaneList lanes_text lanes_of }
    ensures once { IsWrittenOnce IsLaneList lanes_text }
    ensures proper { ReadsProper IsLaneList lanes_of }
{}

/// A written MAC reads as the MAC.
pub fn macs_read_back()
    ensures back { ReadsBack IsProperMac mac_text mac_of }
    ensures once { IsWrittenOnce IsProperMac mac_text }
    ensures proper { ReadsProper IsProperMac mac_of }
{}

/// A written tagging reads as the tagging.
pub fn taggings_read_back()
    ensures back { (tagging : Tagging) → tagging_of (tagging_text tagging) ≡ Some tagging }
    ensures once { (a b : Tagging) → tagging_text a ≡ tagging_text b → a ≡ b }
{}

/// A written address reads as the address, and one of version 6 has the recommended form (RFC 5952 section 4).
pub fn addresses_read_back()
    ensures back { ReadsBack IsProperIp ip_text ip_of }
    ensures once { IsWrittenOnce IsProperIp ip_text }
    ensures proper { ReadsProper IsProperIp ip_of }
    ensures groups { (group : ℕ) → group < 2 ^ 16 → IsPlainGroup group (hex group) }
    ensures recommended { (bits : ℕ) → IsRecommended (groups_in bits) (text_in Family.V6 bits) }
{}

/// A written interface address reads as the address with its length.
pub fn interface_addresses_read_back()
    ensures back { ReadsBack IsProperInterfaceAddress (λ a. interface_address_text a.0 a.1) interface_address_of }
    ensures once { IsWrittenOnce IsProperInterfaceAddress (λ a. interface_address_text a.0 a.1) }
    ensures proper { ReadsProper IsProperInterfaceAddress interface_address_of }
{}

/// A written prefix reads as the prefix.
pub fn prefixes_read_back()
    ensures back { ReadsBack IsProperPrefix prefix_text prefix_of }
    ensures once { IsWrittenOnce IsProperPrefix prefix_text }
    ensures proper { ReadsProper IsProperPrefix prefix_of }
{}
