// The small program of document 01, with K2's run: thirteen bytes and a bundle on standard input, the rebuilt column or
// the line of a refusal on standard output.
//
// A read or a write that fails ends the program with its error, and status 1: what was read by then is not answered as
// if the input ended there. A read that a signal interrupts is tried again.
#![tactic(auto)]

ghost use Rattle.std.specs.Prelude.{◌<◌, length, take, IfOk, IfSome, OnOk};
ghost use Rattle.std.specs.Io.{ReadsAtMost};
ghost use Rattle.std.specs.Io.KnownBytes.{Appends, Consumes, IsAtEnd, ReadConsumes};
ghost use Rattle.document.specs.Program.{program_of};

use std::io;
use std::io::{ErrorKind, Read, Write};

// One read, again where a signal interrupts it.
fn read_some<R: Read>(input: &mut R, buf: &mut [u8]) -> io::Result<usize>
    ensures bound { ReadsAtMost result buf.new }
    ensures bytes { ReadConsumes (R.remaining input.old) (R.remaining input.new) result buf.new }
{
    for _ in 0..u64::MAX {
        match input.read(buf) {
            Err(e) if e.kind() == ErrorKind::Interrupted => {}
            outcome => return outcome,
        }
    }
    input.read(buf)
}

// Reads until `buf` is full or the input ends, and answers how many bytes it put at the start of `buf`.
fn read_full<R: Read>(input: &mut R, buf: &mut [u8]) -> io::Result<usize>
    ensures bound { ReadsAtMost result buf.new }
    ensures bytes { IfOk result (λ n. Consumes (R.remaining input.old) (R.remaining input.new) (take n buf.new)) }
    ensures end { IfOk result (λ n. n < length buf.new → IsAtEnd (R.remaining input.new)) }
{
    let mut done = 0;
    // how far a turn comes is for the reader to say
    while done < buf.len() {
        let n = read_some(input, &mut buf[done..])?;
        if n == 0 {
            return Ok(done);
        }
        done += n;
    }
    Ok(done)
}

// Writes what the program answers to the whole input, of whatever length: what follows the part that is kept is read away,
// so that whoever writes it is not cut off. Said of any reader and writer whose bytes are known: of the standard streams no
// contract says which bytes they give or take.
fn answer_input<R: Read, W: Write>(from: &mut R, to: &mut W) -> io::Result<()>
    ensures { OnOk result (IfSome (R.remaining from.old)
        (λ xs. Appends (W.contents to.old) (W.contents to.new) (program_of xs))) }
{
    let mut input = rebuild_answer::input_buffer();
    let mut output = [0u8; rebuild_answer::COLUMN];
    let got = read_full(from, &mut input)?;
    io::copy(from, &mut io::sink())?;
    let n = rebuild_answer::answer(&input[..got], &mut output);
    to.write_all(&output[..n])
}

fn main(rt: HostRuntime) -> io::Result<()> {
    answer_input(&mut rt.stdin(), &mut rt.stdout())
}
