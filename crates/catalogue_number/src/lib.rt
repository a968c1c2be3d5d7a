// Numbers in groups of seven bits, least first, in their shortest form: the first group, and those after it.
#![tactic(auto)]

ghost use Rattle.std.specs.Prelude.{◌≡◌, ◌+◌, ◌<◌, length, drop};
ghost use Rattle.catalogue.specs.Groups.{groups, further, within};
ghost use Rattle.catalogue.specs.NumberPlaces.{placed, reading_at};

// The number that begins at a place, with the place after it, if it is well formed and at most the limit, where the group there
// has its top bit set and holds `low` beside it. What the groups to come may hold at most is `room`, so neither the value nor the
// weight can pass the limit.
fn read_further(catalogue: &[u8], at: usize, low: u64, limit: u64) -> Option<(u64, usize)>
    requires { at < length catalogue.now }
    ensures { result ≡ placed at (within limit (further low (groups (drop (at + 1) catalogue.now)))) }
{
    let mut value = low;
    let mut weight: u64 = 128;
    let mut room = limit.checked_sub(low)? / 128;
    if room == 0 {
        return None;
    }
    for i in at + 1..catalogue.len() {
        let group = catalogue[i] as u64;
        if group < 128 {
            if group == 0 || room < group {
                return None;
            }
            return Some((value + weight * group, i + 1));
        }
        let bits = group - 128;
        let left = room.checked_sub(bits)? / 128;
        if left == 0 {
            return None;
        }
        value += weight * bits;
        weight *= 128;
        room = left;
    }
    None
}

// The number that begins at a place, with the place after it, if it is well formed and at most the limit.
pub fn read(catalogue: &[u8], at: usize, limit: u64) -> Option<(u64, usize)>
    ensures { result ≡ reading_at limit catalogue.now at }
{
    let first = *catalogue.get(at)? as u64;
    if first < 128 {
        return if limit < first {
            None
        } else {
            Some((first, at + 1))
        };
    }
    read_further(catalogue, at, first - 128, limit)
}
