// The four operations on two travel maps. The engine is the sweep of report section 4; exclusive or is one merge. It relies on `lists` for the check, on
// `keys` for lists of keys and on `sweep` for the engine.
#![tactic(auto)]

ghost use Rattle.std.specs.Prelude.{◌≡◌, ◌*◌, ◌/◌, ◌≤◌, min, length};
ghost use Rattle.meaning.specs.Lists.{vertices, most_vertices};
ghost use Rattle.meaning.specs.Outcomes.{per_vertex};
ghost use Rattle.meaning.specs.Operations.{exclusive, joined_list};
ghost use Rattle.sweep.specs.Room.{Filled, InRoom};
ghost use Rattle.joins.specs.Join.{JoinMade};

use lists::TravelMap;
use meaning::{MOST_VERTICES, NUMBERS, Refusal, SMALL};

// Why a join has no result.
#[derive(Clone, Copy, Debug, PartialEq, Eq)]
pub enum JoinError {
    // The operation is none of 1 to 4.
    BadOperation,
    // The first list is not valid.
    FirstRefused(Refusal),
    // The second list is not valid.
    SecondRefused(Refusal),
    // The correct list has more vertices than fit.
    NoRoom,
}

// The first and the last number of an operation; the last is exclusive or.
const UNION: u32 = 1;

const EXCLUSIVE: u32 = 4;

// Room for a merge of two lists.
const ROOM: usize = 2 * MOST_VERTICES;

// How many vertices a result of so many numbers has room for, at most as many as a list may have.
fn fitting(numbers: usize) -> usize
    ensures { result ≡ min most_vertices (numbers / per_vertex) }
{
    MOST_VERTICES.min(numbers / NUMBERS)
}

// Joins two maps of few vertices by the sweep where there is room for most vertices: in small room where the result fits there, else in the large one.
fn join_small(op: u32, a: TravelMap, b: TravelMap, most: usize, out: &mut [i16]) -> Option<usize>
    requires a_len_bound { (length (vertices a.list.now) ≤ 32) × (length (vertices b.list.now) ≤ 32) }
    requires most_bounds { (32 ≤ most) × (most ≤ most_vertices) × (per_vertex * most ≤ length out.old) }
    ensures { InRoom op a.entry.list.now b.entry.list.now most out.old result out.new }
{
    match sweep::join_in_room::<SMALL>(op, a, b, SMALL, out) {
        None => sweep::join_in_room::<MOST_VERTICES>(op, a, b, most, out),
        few => few,
    }
}

// Joins two maps by the sweep where there is room for most vertices.
fn join_by_sweep(op: u32, a: TravelMap, b: TravelMap, most: usize, out: &mut [i16]) -> Option<usize>
    requires most_bounds { (most ≤ most_vertices) × (per_vertex * most ≤ length out.old) }
    ensures { InRoom op a.entry.list.now b.entry.list.now most out.old result out.new }
{
    if NUMBERS * SMALL < a.list.len().max(b.list.len()) {
        return sweep::join_in_room::<MOST_VERTICES>(op, a, b, most, out);
    }
    if most < SMALL {
        return sweep::join_in_room::<SMALL>(op, a, b, most, out);
    }
    join_small(op, a, b, most, out)
}

// Joins two maps by exclusive or, one merge, where there is room for most vertices.
fn join_by_merge(a: TravelMap, b: TravelMap, most: usize, out: &mut [i16]) -> Option<usize>
    requires most_in_bounds { per_vertex * most ≤ length out.old }
    ensures { Filled (joined_list exclusive a.entry.list.now b.entry.list.now) most out.old result out.new }
{
    let mut ka = [0u32; MOST_VERTICES];
    let mut kb = [0u32; MOST_VERTICES];
    let mut room = [0u32; ROOM];
    let na = keys::read(a.list, &mut ka);
    let nb = keys::read(b.list, &mut kb);
    let n = rising::merge(&ka[..na], &kb[..nb], 0, &mut room);
    if most < n {
        return None;
    }
    keys::write(&room[..n], out);
    Some(n)
}

// Joins two maps where there is room for most vertices. Answers how many vertices the list has, or none where that is more than there is room for.
fn join_valid(op: u32, a: TravelMap, b: TravelMap, most: usize, out: &mut [i16]) -> Option<usize>
    requires most_bounds { (most ≤ most_vertices) × (per_vertex * most ≤ length out.old) }
    ensures { InRoom op a.entry.list.now b.entry.list.now most out.old result out.new }
{
    if op == EXCLUSIVE {
        return join_by_merge(a, b, most, out);
    }
    join_by_sweep(op, a, b, most, out)
}

// Joins two maps by operation 1 union, 2 overlap, 3 first without second or 4 exclusive or, into the front of out: how many vertices the list has.
// The operation is a number, since the wrong program operation_five must be able to hand on one that names none.
pub fn join(op: u32, a: &[i16], b: &[i16], out: &mut [i16]) -> Result<usize, JoinError>
    ensures { JoinMade op a.now b.now out.old result out.new }
{
    if op < UNION {
        return Err(JoinError::BadOperation);
    }
    if EXCLUSIVE < op {
        return Err(JoinError::BadOperation);
    }
    let first = TravelMap::of(a).map_err(JoinError::FirstRefused)?;
    let second = TravelMap::of(b).map_err(JoinError::SecondRefused)?;
    let most = fitting(out.len());
    join_valid(op, first, second, most, out).ok_or(JoinError::NoRoom)
}
