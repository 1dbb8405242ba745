// 01, Target: whether a message's target names the device. The target is given as a part of the message, its element's octets.
ghost use Rattle.std.specs.Prelude.{◌≡◌};
ghost use Rattle.octets.specs.Lists.{any_of};
ghost use Rattle.octets.specs.Octets.{member};
ghost use Rattle.der.specs.Element.{contents as contentsOf, inside};
ghost use Rattle.store.specs.Contract.Parts.{hw_type_in, serial_in, names_from, communities_of};
ghost use Rattle.protocol.specs.Target.{block_names, entry_names, module_names, names_device, is_unsupported};

use der::{Element, Run};

// "a block whose low and high have the serial's length and bound it as big-endian numbers, ends included"
fn block_names(serial: &[u8], low: &[u8], high: &[u8]) -> bool
    ensures { result ≡ block_names serial.now low.now high.now }
{
    low.len() == serial.len()
        && high.len() == serial.len()
        && octets::in_order(low, serial)
        && octets::in_order(serial, high)
}

// A HardwareSerialEntry: "serial all, a single equal serial, or a block".
#[tactic(auto, unfolding(protocol::specs::Target::entry_names))]
fn entry_names(serial: &[u8], target: &[u8], e: Element) -> bool
    ensures { result ≡ entry_names serial.now target.now e }
{
    match e.tag {
        der::NULL => true,
        der::OCTET_STRING => octets::equal(der::contents(target, e), serial),
        _ => {
            let low = der::field(target, e, der::OCTET_STRING);
            let high = der::field_after(target, e, low, der::OCTET_STRING);
            block_names(
                serial,
                der::contents(target, low),
                der::contents(target, high),
            )
        }
    }
}

// (Target, serial and hwType are no struct: each test takes one more of them than the one above.)
// Whether one of the entries names the serial.
fn any_entry(serial: &[u8], target: &[u8], entries: Element) -> bool
    ensures { result ≡ any_of (entry_names serial.now target.now) (inside target.now entries) }
{
    Run::inside(target, entries).any(|e| entry_names(serial, target, e))
}

// A HardwareModules: "the same hwType with .."
#[tactic(auto, unfolding(protocol::specs::Target::module_names))]
fn module_names(hwtype: &[u8], serial: &[u8], target: &[u8], m: Element) -> bool
    ensures { result ≡ module_names hwtype.now serial.now target.now m }
{
    let type_octets = der::contents(target, der::field(target, m, der::OBJECT_IDENTIFIER));
    let entries = der::field(target, m, der::SEQUENCE);
    octets::equal(type_octets, hwtype) && any_entry(serial, target, entries)
}

// Whether one of the modules names the device.
fn any_module(hwtype: &[u8], serial: &[u8], target: &[u8], t: Element) -> bool
    ensures { result ≡ any_of (module_names hwtype.now serial.now target.now) (inside target.now t) }
{
    Run::inside(target, t).any(|m| module_names(hwtype, serial, target, m))
}

// Whether one of the target's communities is among the n names.
fn any_community(names: &[u8], n: usize, target: &[u8], t: Element) -> bool
    ensures { result ≡ any_of (λ c. member (contentsOf target.now c) (names_from n names.now)) (inside target.now t) }
{
    Run::inside(target, t).any(|c| store::has_name(names, 0, n, der::contents(target, c)))
}

// "allModules; a community in the store; or the same hwType with .."
#[tactic(auto, unfolding(protocol::specs::Target::names_device, store::specs::Contract::Parts::communities_of))]
pub fn names_device(image: &[u8], target: &[u8]) -> bool
    ensures { result ≡ names_device (hw_type_in image.now) (serial_in image.now) (communities_of image.now) target.now }
{
    let t = der::root(target);
    match t.tag {
        der::CONTEXT_3 => true,
        der::CONSTRUCTED_2 => {
            let communities = store::community_octets(image);
            any_community(communities, store::community_count(image), target, t)
        }
        _ => any_module(store::hw_type(image), store::serial(image), target, t),
    }
}

// 38: target is uri or otherName.
pub fn is_unsupported(target: &[u8]) -> bool
    ensures { result ≡ is_unsupported target.now }
{
    let t = der::root(target);
    matches!(t.tag, der::CONTEXT_4 | der::CONSTRUCTED_5)
}
