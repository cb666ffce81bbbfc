// Inner: two travel maps joined by the sweep of report section 4, plane by plane, with both maps' planes at one number taken together. It relies on
// `lists` for travel maps, on `keys` for lists of keys and on `levels` for the sweep, and has the working room for it.
#![tactic(auto)]

ghost use Rattle.std.specs.Prelude.{◌*◌, ◌≤◌, length};
ghost use Rattle.meaning.specs.Lists.{vertices};
ghost use Rattle.sweep.specs.Room.{InRoom};

use lists::TravelMap;

// Joins two maps where there is room for most vertices, in working room of its own for so many vertices a list. Answers how many vertices the list
// has, or none where that is more than there is room for. The operation is a number, as `rows` takes it.
pub fn join_in_room<const ROOM: usize>(
    op: u32,
    a: TravelMap,
    b: TravelMap,
    most: usize,
    out: &mut [i16],
) -> Option<usize>
    requires room_bound { ROOM ≤ 1024 }
    requires a_in_bounds { (length (vertices a.list.now) ≤ ROOM) × (length (vertices b.list.now) ≤ ROOM) }
    requires most_bound { (most ≤ ROOM) × (3 * most ≤ length out.old) }
    ensures { InRoom op a.entry.list.now b.entry.list.now most out.old result out.new }
{
    let mut ka = [0u32; ROOM];
    let mut kb = [0u32; ROOM];
    let mut kr = [0u32; ROOM];
    let mut sa = [0u32; ROOM];
    let mut sb = [0u32; ROOM];
    let mut room = [0u32; ROOM];
    let na = keys::read(a.list, &mut ka);
    let nb = keys::read(b.list, &mut kb);
    let n = levels::join_planes(
        op,
        &ka[..na],
        &kb[..nb],
        &mut kr,
        &mut sa,
        &mut sb,
        &mut room,
    );
    if most < n {
        return None;
    }
    keys::write(&kr[..n], out);
    Some(n)
}
