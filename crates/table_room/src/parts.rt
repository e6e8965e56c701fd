// A slot's part of the room: where it begins, and zeroed whole or in its assembly place. A part is lent as a slice, `&mut room[at..end]`;
// specs/Parts.antt says what that makes of the whole room, and specs/Placed.antt how a call has what is asked here from a passed gate.
ghost use Rattle.std.specs.Prelude.{◌≡◌, [], ◌∷◌, ◌*◌, ◌≤◌, ◌<◌, length};
ghost use Rattle.channel.specs.Limits.{slots_most, depth_most, packet_most};
ghost use Rattle.definition.specs.Mem.{wipe, parts};
ghost use Rattle.definition.specs.Table.{place_size, part_width};
ghost use Rattle.definition.specs.Outcome.{only, unassembled};
ghost use Rattle.table_room.specs.Placed.{Placed};

// Where slot s's part begins.
pub fn part_at(d: usize, m: usize, s: usize) -> usize
    requires { (d ≤ depth_most) × (m ≤ packet_most) × (s < slots_most) }
    ensures { result ≡ s * part_width d m }
{
    s * table_gate_sizes::part_size(d, m)
}

// Zeroes all that slot s holds.
pub fn wipe_part(room: &mut [u8], d: usize, m: usize, s: usize)
    requires { Placed d m s (length room.old) }
    ensures { room.new ≡ parts (λ x. x) [] (part_width d m) (only s (wipe ∷ [])) room.old }
{
    let w = table_gate_sizes::part_size(d, m);
    let at = part_at(d, m, s);
    let end = at + w;
    octets::zero(&mut room[at..end], 0, w);
}

// Zeroes slot s's place for assembly.
pub fn zero_assembly(room: &mut [u8], d: usize, m: usize, s: usize)
    requires { Placed d m s (length room.old) }
    ensures { room.new ≡ parts (λ x. x) [] (part_width d m) (only s (unassembled (place_size m) ∷ [])) room.old }
{
    let place = table_gate_sizes::place_size(m);
    let w = table_gate_sizes::part_size(d, m);
    let at = part_at(d, m, s);
    let end = at + w;
    octets::zero(&mut room[at..end], 0, place);
}
