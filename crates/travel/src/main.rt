// The program `travel`: standard input is map text and wishes, standard output the answers. It only reads, calls and writes: what is written
// for each input is `respond`'s promise, in crate `text`. It has no status of its own: where the output takes nothing, it ends all the same.
#![tactic(auto)]

ghost use Rattle.std.specs.Prelude.{◌≡◌, ◌≤◌, ◌⊎◌, length, take, OnOk};
ghost use Rattle.std.specs.Io.KnownBytes.{Consumes, IsAtEnd};

use std::io;
use std::io::Read;
use text::{MOST_BYTES, MOST_WRITTEN};

// Room for one byte more than the most that input may have, which shows that there are too many.
const INPUT_ROOM: usize = MOST_BYTES + 1;

// Reads until the room is full, the input ends or a read fails; answers how many bytes stand at its front, and whether a read failed. They are the
// input's next bytes, and no others are taken from it.
fn read_full<R: Read>(input: &mut R, room: &mut [u8]) -> (usize, io::Result<()>)
    ensures bound { result.0 ≤ length room.new }
    ensures bytes { Consumes (R.remaining input.old) (R.remaining input.new) (take result.0 room.new) }
    ensures whole { OnOk result.1 ((result.0 ≡ length room.new) ⊎ IsAtEnd (R.remaining input.new)) }
{
    let mut done = 0;
    // A count that each turn moves by as many bytes as the reader gives: no iterator walks so.
    while done < room.len() {
        match input.read(&mut room[done..]) {
            Ok(0) => return (done, Ok(())),
            Ok(n) => done += n,
            Err(e) => return (done, Err(e)),
        }
    }
    (done, Ok(()))
}

// Reads standard input, to its end or to one byte past the limit, and writes what it comes to. A read that fails counts as the end.
fn main(rt: HostRuntime) {
    let mut input = [0u8; INPUT_ROOM];
    let (read, _) = read_full(&mut rt.stdin(), &mut input);
    let mut output = [0u8; MOST_WRITTEN];
    let written = text::respond(&input[..read], &mut output);
    let _ = rt.write_all(&output[..written]);
}
