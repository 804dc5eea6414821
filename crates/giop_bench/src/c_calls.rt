//! The loops of `bench/c/calls.c` in Rattle: what a program in C does by libgiop's functions, with
//! the same octets, the same looks at entries and the same copies, and so the same checksums. What
//! both take more is what C's interface costs.
ghost use Rattle.std.specs.Prelude.{◌≡◌, ◌≤◌, length, IfSome};

mod answering;
mod asking;
mod both_ends;
mod row;
mod server_alone;

use giop_end::Limits;
use giop_json::interface_from_json;

const J: &[u8] =
    b"{\"operations\":{\"ping\":{},\"add\":{\"ins\":[[\"a\",\"long\"],[\"b\",\"long\"]],\"outs\":[[\"sum\",\"long\"]]},\"put\":{\"ins\":[[\"o\",\"octets\"]]}}}";

const LIMITS: Limits = Limits {
    calls: 1024,
    message: 1 << 20,
    gathered: 8 << 20,
};

fn mixed(sum: u64, value: u64) -> u64 {
    sum.wrapping_mul(1_099_511_628_211) ^ value
}

fn of_big(octets: [u8; 8]) -> (u32, u32) {
    let [a, b, c, d, e, f, g, h] = octets;
    (
        u32::from_be_bytes([a, b, c, d]),
        u32::from_be_bytes([e, f, g, h]),
    )
}

// Copies octets to the front of a buffer, where it has room for them. How many they are.
fn copied(octets: &[u8], buffer: &mut [u8]) -> Option<usize>
    ensures size { IfSome result (λ n. n ≡ length octets.now) }
    ensures room { IfSome result (λ n. n ≤ length buffer.new) }
{
    if octets.len() > buffer.len() {
        return None;
    }
    buffer[..octets.len()].copy_from_slice(octets);
    Some(octets.len())
}

/// Runs a loop of so many calls, and returns its checksum; `None` where there is no such loop, a
/// connection can't be made or breaks, or it is out of memory.
pub fn run(rt: &HostRuntime, name: &str, times: &str) -> Option<u64> {
    let calls = times.parse::<u32>().ok()?;
    let interface = interface_from_json(rt.alloc(), J).ok()?;
    match name {
        "server" => server_alone::run(rt.alloc(), &interface, calls),
        "memory-1" => both_ends::over_memory(rt.alloc(), &interface, calls, 1),
        "memory-16" => both_ends::over_memory(rt.alloc(), &interface, calls / 16, 16),
        "loopback-1" => both_ends::over_loopback(rt, &interface, calls, 1),
        "loopback-16" => both_ends::over_loopback(rt, &interface, calls / 16, 16),
        _ => None,
    }
}
