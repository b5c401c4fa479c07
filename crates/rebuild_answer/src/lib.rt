// The small program of document 01 as a function: from the bytes of standard input to those of standard output.
#![tactic(auto)]

ghost use Rattle.std.specs.Prelude.{◌≡◌, ◌++◌, ◌+◌, ◌*◌, ◌<◌, ◌≤◌, length, drop, replicate};
ghost use Rattle.lists.specs.Put.{Wrote};
ghost use Rattle.document.specs.Refusals.{index_of};
ghost use Rattle.document.specs.Profile.{max_rows, max_strip};
ghost use Rattle.document.specs.Rebuild.{rebuild_of};
ghost use Rattle.document.specs.Program.{byte_in, program_head, wanted_numbers, wanted_node, wanted_recording};
ghost use Rattle.document.specs.Program.{decimal, refusal_line, program_of};
ghost use Rattle.rebuild_answer.specs.Room.{longest_input};

use document::{Numbers, Profile, Recording, Refusal};

// The bytes before the bundle: n, k, A, t, S in two, wanted node, wanted scenario in four, wanted run in two.
const WANTED: usize = 13;

// As much of the input as is needed: one byte more than the head and the longest bundle of any edition. A longer input
// answers as its first ROOM bytes do: LongerInput of specs/Room.antt.
pub const ROOM: usize = WANTED + bundle::LONGEST + 1;

// The longest column.
pub const COLUMN: usize = Profile::MAX_ROWS * Profile::MAX_STRIP;

// A buffer for the input.
pub fn input_buffer() -> [u8; ROOM]
    ensures { result ≡ replicate (longest_input + 1) 0 }
{
    [0; ROOM]
}

// Byte i of the input; 0 where it is missing.
fn byte_in(input: &[u8], i: usize) -> u8
    ensures { result ≡ byte_in input.now i }
{
    input.get(i).copied().unwrap_or(0)
}

// The numbers of the wanted profile, S high byte first; the program stays with edition 1.
#[tactic(auto, unfolding(document::specs::Program::wanted_numbers))]
fn numbers(input: &[u8]) -> Numbers
    ensures { (result ≡ wanted_numbers input.now) × (result.a ≤ 255) × (result.s ≤ 65535) }
{
    let s = [byte_in(input, 4), byte_in(input, 5)];
    Numbers {
        n: usize::from(byte_in(input, 0)),
        k: usize::from(byte_in(input, 1)),
        a: usize::from(byte_in(input, 2)),
        t: usize::from(byte_in(input, 3)),
        s: usize::from(u16::from_be_bytes(s)),
        edition: 1,
    }
}

// The wanted recording: the scenario, then the run, high byte first.
fn recording(input: &[u8]) -> Recording
    ensures { result ≡ wanted_recording input.now }
{
    let scenario = [
        byte_in(input, 7),
        byte_in(input, 8),
        byte_in(input, 9),
        byte_in(input, 10),
    ];
    let run = [byte_in(input, 11), byte_in(input, 12)];
    Recording {
        scenario: u32::from_be_bytes(scenario),
        run: u16::from_be_bytes(run),
    }
}

// Writes a number in decimal digits. By hand: of what `write!` puts into a buffer of fixed length a contract speaks only
// where it ends well, and no contract says that it does.
#[tactic(auto, unfolding(document::specs::Program::decimal))]
fn put_decimal(out: &mut [u8], at: usize, v: usize) -> usize
    requires { (at + 2 ≤ length out.old) × (v < 100) }
    ensures { Wrote out.old at (decimal v) result out.new }
{
    if v < 10 {
        return lists::put_bytes(out, at, &[b'0' + v as u8]);
    }
    let digits = [b'0' + (v / 10) as u8, b'0' + (v % 10) as u8];
    lists::put_bytes(out, at, &digits)
}

// Writes a text and the number after it.
fn put_number(out: &mut [u8], at: usize, text: &[u8], v: usize) -> usize
    requires { (at + length text.now + 2 ≤ length out.old) × (v < 100) }
    ensures { Wrote out.old at (text.now ++ decimal v) result out.new }
{
    let next = lists::put_bytes(out, at, text);
    put_decimal(out, next, v)
}

// Writes the line for a refusal.
fn put_line(out: &mut [u8], r: Refusal) -> usize
    requires { (17 ≤ length out.old) × (index_of r < 100) }
    ensures { Wrote out.old 0 (refusal_line r) result out.new }
{
    let number = put_number(out, 0, b"refused ", usize::from(r.number()));
    let index = put_number(out, number, b" at ", r.index());
    lists::put_bytes(out, index, b"\n")
}

// Rebuilds from the bundle that follows the head.
fn rebuild_input(input: &[u8], p: Numbers, column: &mut [u8]) -> Result<usize, Refusal>
    ensures { (result, column.new) ≡ rebuild_of p (wanted_node input.now)
        (wanted_recording input.now) (drop program_head input.now) column.old }
{
    let lost = byte_in(input, 6) as usize;
    let r = recording(input);
    let head = input.len().min(WANTED);
    rebuild::rebuild(p, lost, r, &input[head..], column)
}

// Writes what the program answers to this input, and returns the number of its bytes.
fn put_answer(out: &mut [u8], input: &[u8]) -> usize
    requires { max_rows * max_strip ≤ length out.old }
    ensures { Wrote out.old 0 (program_of input.now) result out.new }
{
    let p = numbers(input);
    let room = (p.a * p.s).min(COLUMN);
    match rebuild_input(input, p, &mut out[..room]) {
        Ok(_) => room,
        Err(r) => put_line(out, r),
    }
}

// Writes what the program writes to standard output for this standard input to the start of `output`, and returns the
// number of its bytes. The bytes past them stay.
pub fn answer(input: &[u8], output: &mut [u8; COLUMN]) -> usize
    ensures { Wrote output.old 0 (program_of input.now) result output.new }
{
    put_answer(output, input)
}
