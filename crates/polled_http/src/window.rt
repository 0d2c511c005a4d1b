// What stands from a place on in a text of several parts.
ghost use Rattle.std.specs.Prelude.{◌≡◌, ◌+◌, ◌<◌, ◌≤◌, ◌^◌, ◌++◌, ◌-◌, [], ℕ, List, length, map, min, take, drop, true};
ghost use Rattle.std.specs.List.{concat};
ghost use Rattle.arrayvec.specs.ArrayVec.{array_vec_len};
ghost use Rattle.polled_http.specs.Windows.{Shows, ShowsMore};

use arrayvec::ArrayVec;

// How many bytes are shown at most.
const MOST_SHOWN: usize = 16384;

// Where they are shown.
pub(crate) type Room = ArrayVec<u8, MOST_SHOWN>;

// Shows what stands from a place on in some parts, one after the other, as far as there is room for it. Whether that is all.
pub(crate) fn show(room: &mut Room, parts: &[&[u8]], place: u128) -> bool
    ensures shows { Shows (drop place (concat (map (λ part. part.now) parts.now))) room.new.items result }
    ensures fits { 0 < length room.new.items → place + length room.new.items < 2 ^ 128 }
{
    room.clear();
    let mut skip = place;
    for part in parts {
        let (rest, left) = behind(part, skip);
        if !push_front(room, rest) {
            return false;
        }
        skip = left;
    }
    true
}

// What stands in a part behind so many bytes, and how many of these are left for the parts behind it.
fn behind<'p>(part: &'p [u8], skip: u128) -> (&'p [u8], u128)
    ensures rest { result.0.now ≡ drop skip part.now }
    ensures left { result.1 ≡ skip - length part.now }
    ensures small { length part.now < 2 ^ 64 }
{
    let length = part.len() as u128;
    if length <= skip {
        return (&part[part.len()..], skip - length);
    }
    (&part[skip as usize..], 0)
}

// Puts as much of the bytes behind those in the room as there is room for. Whether that is all.
fn push_front(room: &mut Room, bytes: &[u8]) -> bool
    ensures { ShowsMore room.old.items room.new.items bytes.now result }
{
    let space = room.remaining_capacity();
    if bytes.len() <= space {
        push(room, bytes);
        return true;
    }
    push(room, &bytes[..space]);
    false
}

// Puts these bytes behind those in the room.
fn push(room: &mut Room, bytes: &[u8])
    requires { array_vec_len room.old + length bytes.now ≤ 16384 }
    ensures { room.new.items ≡ room.old.items ++ bytes.now }
{
    match room.try_extend_from_slice(bytes) {
        Ok(()) => {}
        Err(_) => unreachable!(),
    }
}
