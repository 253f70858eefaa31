// What the tests of the parts have in common: fields of numbers, and how a value is shown.
use std::alloc::Global;
use std::fmt::Debug;
use std::process::Abort;
use swss_types::{OutOfMemory, Text};
use table_schema::{Fields, Key};

/// The fields from one number to before another, both at most 99, with a value, at most 9.
pub type Run = (u8, u8, u8);

/// A short text, for which no memory is asked.
pub fn text(rt: &impl Abort, alloc: Global, bytes: &[u8]) -> Text {
    let text = Text::new(alloc, bytes).expect(rt, "no memory is asked");
    text.expect(rt, "UTF-8")
}

/// The name of the field of a number.
pub fn name_of(number: u8) -> [u8; 3] {
    let (tens, ones) = (number / 10, number % 10);
    [b'f', b'0'.wrapping_add(tens), b'0'.wrapping_add(ones)]
}

/// The bytes of a value.
pub fn value_of(value: u8) -> [u8; 1] {
    [b'0'.wrapping_add(value)]
}

/// Puts a value under the name of a number.
pub fn put(
    rt: &impl Abort,
    alloc: Global,
    fields: &mut Fields,
    number: u8,
    value: u8,
) -> Result<(), OutOfMemory> {
    let name = text(rt, alloc, name_of(number).as_slice());
    fields.put(name, text(rt, alloc, value_of(value).as_slice()))
}

/// The fields of a run. What is refused memory changes nothing, and is done at the next try.
pub fn fields_of(rt: &impl Abort, alloc: Global, run: Run) -> Fields {
    let mut fields = Fields::new(alloc);
    let (from, to, value) = run;
    for number in from..to {
        if put(rt, alloc, &mut fields, number, value).is_err() {
            assert!(rt; are_of(&fields, &[(from, number, value)]), "as before");
            let next = put(rt, alloc, &mut fields, number, value);
            assert!(rt; next.is_ok(), "the next try");
        }
    }
    fields
}

/// Whether fields are those of these runs, one after the other.
pub fn are_of(fields: &Fields, runs: &[Run]) -> bool {
    let mut items = fields.items();
    for (from, to, value) in runs {
        for number in *from..*to {
            let Some((name, held)) = items.next() else {
                return false;
            };
            if name.bytes() != name_of(number).as_slice()
                || held.bytes() != value_of(*value).as_slice()
            {
                return false;
            }
        }
    }
    items.next().is_none()
}

/// Whether it is the key of the VLAN of a number. No key is made for it, which would go at each way out.
pub fn is_vlan(key: &Key, number: u16) -> bool {
    match key {
        Key::Vlan(vlan) => *vlan == number,
        _ => false,
    }
}

/// How a value is shown to who looks for a fault. Where it is shown as before, it is as before.
pub fn shown<T: Debug>(rt: &impl Abort, alloc: Global, value: &T) -> String {
    match format!(in alloc; "{value:?}") {
        Ok(text) => text,
        Err(_) => format!(in alloc; "{value:?}").expect(rt, "the next try"),
    }
}

/// Sees to it that a value is shown as this text.
pub fn assert_shown<T: Debug>(rt: &impl Abort, alloc: Global, text: &str, value: &T) {
    let shown = shown(rt, alloc, value);
    assert!(rt; shown.as_str() == text, "{shown} and not {text}");
}
