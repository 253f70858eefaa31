// Images of drawn rows, loaded and saved with ample memory.
use std::alloc::Global;
use std::process::Abort;
use swss_image::{load, save};

/// Rows as an image has them, in byte order of their names: in key order the ports come first, port 9 before port 10.
const ROWS: [&str; 12] = [
    r#"":":{"":""}"#,
    r#""INTF_TABLE:Ethernet10":{"NULL":"NULL"}"#,
    r#""INTF_TABLE:Ethernet10:10.0.0.1/24":{"scope":"global"}"#,
    r#""INTF_TABLE:Ethernet9":{"mtu":"9100","vrf_name":""}"#,
    r#""NEIGH_TABLE:Ethernet10:10.0.0.2":{"neigh":"02:00:00:00:00:01"}"#,
    r#""PORT_TABLE:Ethernet10":{"admin_status":"up","lanes":"8,9"}"#,
    r#""PORT_TABLE:Ethernet9":{"lanes":"0"}"#,
    r#""ROUTE_TABLE:10.0.0.0/8":{"ifname":"Ethernet10","nexthop":"10.0.0.2"}"#,
    r#""ROUTE_TABLE:9.0.0.0/8":{"blackhole":"true"}"#,
    r#""VLAN_MEMBER_TABLE:Vlan10:Ethernet9":{"tagging_mode":"tagged"}"#,
    r#""VLAN_TABLE:Vlan10":{"admin_status":"up"}"#,
    r#""a \"table\":\n":{"é":"\\"}"#,
];

/// Appends a part of a text.
fn append(rt: &impl Abort, text: &mut Vec<u8>, part: &str) {
    let more = text.extend_from_slice(part.as_bytes());
    more.expect(rt, "memory");
}

/// The image of the rows that are drawn: each has a bit, the first the lowest.
fn image_of(rt: &impl Abort, alloc: Global, drawn: u32) -> Vec<u8> {
    let mut text = Vec::new(alloc);
    append(rt, &mut text, r#"{"rows":{"#);
    let mut left = drawn;
    let mut is_first = true;
    for row in ROWS {
        if left % 2 == 1 {
            append(rt, &mut text, if is_first { "" } else { "," });
            append(rt, &mut text, row);
            is_first = false;
        }
        left /= 2;
    }
    append(rt, &mut text, r#"},"version":2}"#);
    text
}

/// Loads the image of drawn rows and saves it: it is the same text again.
fn save_again(rt: &impl Abort, alloc: Global, drawn: u32) {
    let text = image_of(rt, alloc, drawn);
    let loaded = load(alloc, text.as_slice()).expect(rt, "memory");
    let rows = loaded.expect(rt, "an image");
    let again = save(alloc, &rows).expect(rt, "memory");
    assert!(rt; rows.len() == drawn.count_ones() as usize, "{rows:?}");
    assert!(rt; again.as_slice() == text.as_slice(), "{rows:?}");
}

#[test]
fn images_are_saved_as_they_were_loaded(rt: HostRuntime) {
    for drawn in [0, 1, 0x15, 0x3e, 0x60, 0x555, 0x9a3, 0xfff] {
        save_again(&rt, rt.alloc(), drawn);
    }
}
