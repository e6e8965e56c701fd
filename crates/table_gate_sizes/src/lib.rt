// The sizes of a table and of its room. specs/Sizes.antt says what sizes within the limits tell.
#![tactic(auto)]

ghost use Rattle.std.specs.Prelude.{◌≡◌, ◌≤◌};
ghost use Rattle.channel.specs.Limits.{depth_most, packet_most};
ghost use Rattle.definition.specs.Table.{place_size, part_width, room_width, sizes_fit};
ghost use Rattle.table_gate_sizes.specs.Sizes.{Sized};

use channel::{DEPTH, JOB_HEAD, PACKET_LEAST, PACKET_MOST, SLOTS};

// N 1..=16, D 1..=4, M 29..=1,024.
pub fn sizes_fit(n: usize, d: usize, m: usize) -> bool
    ensures { result ≡ sizes_fit n d m }
{
    (1 <= n)
        & ((n <= SLOTS) & ((1 <= d) & ((d <= DEPTH) & ((PACKET_LEAST <= m) & (m <= PACKET_MOST)))))
}

// The octets of a place.
pub fn place_size(m: usize) -> usize
    ensures { result ≡ place_size m }
{
    if m < JOB_HEAD { 0 } else { m - JOB_HEAD }
}

// The octets of a slot's part of the room: a place for assembly, then D for finished jobs.
pub fn part_size(d: usize, m: usize) -> usize
    requires { (d ≤ depth_most) × (m ≤ packet_most) }
    ensures { result ≡ part_width d m }
{
    (d + 1) * place_size(m)
}

// The octets of the room.
pub fn room_size(n: usize, d: usize, m: usize) -> usize
    requires { Sized n d m }
    ensures { result ≡ room_width n d m }
{
    n * part_size(d, m)
}
