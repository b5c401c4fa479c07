// Runs document 01's samples and edges, and document 02's K2, K4, K6 and K10, and prints what each gives. The file
// `stdout` says what the documents say; the marked cases are shown in specs/Marked.antt besides, and K6's plans in
// specs/Editions.antt.
//
// The first write that fails ends the program, with its error.
#![tactic(auto)]

ghost use Rattle.std.specs.Prelude.{◌≤◌};

use document::{Numbers, Recording, Refusal, Surveyed};
use std::{fmt, io};

// Bytes as document 01 writes them, a space before each.
#[derive(Drop)]
struct Bytes<'a>(&'a [u8]);

impl fmt::Display for Bytes<'_> {
    fn fmt<W: fmt::Write>(&self, f: &mut fmt::Formatter<W>) -> fmt::Result {
        for b in self.0 {
            write!(f, " {b:02X}")?;
        }
        Ok(())
    }
}

// Places of two bytes each, as (node,row).
#[derive(Drop)]
struct Places<'a>(&'a [u8]);

impl fmt::Display for Places<'_> {
    fn fmt<W: fmt::Write>(&self, f: &mut fmt::Formatter<W>) -> fmt::Result {
        for place in self.0.chunks_exact(2) {
            write!(f, " ({},{})", place[0], place[1])?;
        }
        Ok(())
    }
}

// A refusal's number, and for 9 the index of its strip.
#[derive(Drop)]
struct Refused(Refusal);

impl fmt::Display for Refused {
    fn fmt<W: fmt::Write>(&self, f: &mut fmt::Formatter<W>) -> fmt::Result {
        write!(f, " is {}", self.0.number())?;
        match self.0 {
            Refusal::Stale(i) => write!(f, " at {i}"),
            _ => Ok(()),
        }
    }
}

// The inverse of a byte, or that it has none; K10: 0 has none.
fn print_inverse(rt: &impl Print, name: &str, a: u8) -> io::Result<()> {
    match gf256::inverse(a) {
        Some(b) => println!(rt; "{name} {b}"),
        None => println!(rt; "{name} none"),
    }
}

// The numbers of a profile, in document 01's order, of edition 1.
fn numbers(n: usize, k: usize, a: usize, t: usize, s: usize) -> Numbers {
    Numbers {
        n,
        k,
        a,
        t,
        s,
        edition: 1,
    }
}

// (4,2,2) with strips of one byte, in edition 1.
fn small(t: usize) -> Numbers {
    numbers(4, 2, 2, t, 1)
}

// The same with t = 2, in an edition.
fn small_in(edition: usize) -> Numbers {
    Numbers {
        edition,
        ..small(2)
    }
}

// The array of data of (4,2,2) with strips of one byte.
fn encoded(t: usize, input: &[u8]) -> [u8; 8] {
    let mut array = [0xFF; 8];
    let _ = encode::encode(small(t), input, &mut array);
    array
}

// M4: the array of 01 00 02 04 with t = 2.
fn sample_array() -> [u8; 8] {
    encoded(2, &[0x01, 0x00, 0x02, 0x04])
}

// M9: the columns of nodes 0 and 3 of the array of 00 05 01 06 with t = 5.
fn print_zero_columns(rt: &impl Print) -> io::Result<()> {
    let array = encoded(5, &[0x00, 0x05, 0x01, 0x06]);
    println!(rt; "M9{}{}", Bytes(&array[..2]), Bytes(&array[6..]))
}

// The bundle of M4's array for a lost node, scenario 7 and a run of it, in an edition.
fn cut(edition: usize, lost: usize, run: u16, bundle: &mut [u8]) {
    let array = sample_array();
    let r = Recording { scenario: 7, run };
    let _ = bundle::write_bundle(small_in(edition), lost, r, &array, bundle);
}

// What a rebuild of (4,2,2) gives in an edition from a bundle for scenario 7, run 0: the column or the refusal.
fn print_rebuilt(
    rt: &impl Print,
    name: &str,
    edition: usize,
    lost: usize,
    bundle: &[u8],
) -> io::Result<()> {
    let mut column = [0xFF; 2];
    let r = Recording {
        scenario: 7,
        run: 0,
    };
    match rebuild::rebuild(small_in(edition), lost, r, bundle, &mut column) {
        Ok(_) => println!(rt; "{name}{}", Bytes(&column)),
        Err(r) => println!(rt; "{name}{}", Refused(r)),
    }
}

// M7, M8: the column of a lost node, from the bundle of M4's array, which is of run 0.
fn print_column(rt: &impl Print, name: &str, lost: usize) -> io::Result<()> {
    let mut bundle = [0xFF; 67];
    cut(1, lost, 0, &mut bundle);
    print_rebuilt(rt, name, 1, lost, &bundle)
}

// M10: zeros read back from nodes 0 and 3 with t = 5.
fn print_reading(rt: &impl Print) -> io::Result<()> {
    let mut output = [0xFF; 4];
    match reading::read_back(small(5), &[0, 3], &[0; 4], &mut output) {
        Ok(_) => println!(rt; "M10{}", Bytes(&output)),
        Err(r) => println!(rt; "M10 refused with {}", r.number()),
    }
}

// M11, M12: a survey of (4,2,2), in document 01's words.
fn print_survey(
    rt: &impl Print,
    name: &str,
    t: usize,
    start: usize,
    most: usize,
) -> io::Result<()> {
    let mut set = [0xFF; 2];
    match survey::survey(small(t), start, most, &mut set) {
        Ok(Surveyed::Failing(position, looked)) => {
            let set = Bytes(&set);
            println!(rt; "{name} failing at position {position}, set{set}, looked at {looked}")
        }
        Ok(Surveyed::Done(looked)) => println!(rt; "{name} done, {looked}"),
        Ok(Surveyed::Open(looked)) => println!(rt; "{name} open, {looked}"),
        Err(r) => println!(rt; "{name}{}", Refused(r)),
    }
}

// The surveys of the marked samples.
fn print_surveys(rt: &impl Print) -> io::Result<()> {
    print_survey(rt, "M11", 5, 0, 6)?;
    print_survey(rt, "M12", 2, 0, 6)?;
    print_survey(rt, "M12, B = 2", 2, 0, 2)?;
    print_survey(rt, "M12, B = 0", 2, 0, 0)?;
    print_survey(rt, "M12, start 6, B = 0", 2, 6, 0)
}

// K2: the whole bundle of M4 for node 0, run 0, its first 66 bytes, and one byte more.
fn print_bundle(rt: &impl Print) -> io::Result<()> {
    let mut bundle = [0xFF; 67];
    cut(1, 0, 0, &mut bundle);
    println!(rt; "bundle, run 0{}", Bytes(&bundle))?;
    print_rebuilt(rt, "66 bytes of it", 1, 0, &bundle[0..66])?;
    let mut long = [0; 68];
    long[..67].copy_from_slice(&bundle);
    print_rebuilt(rt, "68 bytes", 1, 0, &long)
}

// K2: document 01's own bundle of M4, without a run.
fn print_old_bundle(rt: &impl Print) -> io::Result<()> {
    let old = b"\x01\x00\x06\x04\x02\x02\x02\x00\x01\x02\x00\x05\x00\x00\x00\x00\x07\
        \x03\x00\x07\x01\x00\x00\x00\x00\x07\x02\x03\x00\x07\x02\x00\x00\x00\x00\x07\x07\
        \x03\x00\x07\x03\x00\x00\x00\x00\x07\x0C\x03\x00\x07\x02\x01\x00\x00\x00\x07\x00";
    print_rebuilt(rt, "the old bundle", 1, 0, old)
}

// K2: the bundles of runs 0 and 1 mixed strip by strip, the second and the fourth of run 1.
fn print_mixed(rt: &impl Print) -> io::Result<()> {
    let mut bundle = [0xFF; 67];
    cut(1, 0, 0, &mut bundle);
    let mut other = [0xFF; 67];
    cut(1, 0, 1, &mut other);
    lists::put_bytes(&mut bundle, 31, &other[31..43]);
    lists::put_bytes(&mut bundle, 55, &other[55..67]);
    print_rebuilt(rt, "with strips of run 1", 1, 0, &bundle)?;
    print_rebuilt(rt, "the bundle of run 1", 1, 0, &other)
}

// The places of a plan, which fill N bytes.
fn print_plan<const N: usize>(
    rt: &impl Print,
    name: &str,
    p: Numbers,
    lost: usize,
) -> io::Result<()>
    requires { N ≤ 24 }
{
    let mut places = [0xFF; N];
    let _ = plan::plan(p, lost, &mut places);
    println!(rt; "{name}{}", Places(&places))
}

// K6: plans that tell the editions apart, t = 2 and S = 1.
fn print_walks(rt: &impl Print) -> io::Result<()> {
    let six = numbers(6, 2, 2, 2, 1);
    let nine = numbers(9, 6, 3, 2, 1);
    print_plan::<6>(rt, "(6,2,2) node 2, edition 1", six, 2)?;
    print_plan::<6>(
        rt,
        "(6,2,2) node 2, edition 2",
        Numbers { edition: 2, ..six },
        2,
    )?;
    print_plan::<24>(
        rt,
        "(9,6,3) node 4, edition 2",
        Numbers { edition: 2, ..nine },
        4,
    )
}

// K6: the bundle of M4 for node 0, run 0, in edition 2, read in both editions, and that of edition 1 read in edition 2.
fn print_editions(rt: &impl Print) -> io::Result<()> {
    let mut first = [0xFF; 67];
    cut(1, 0, 0, &mut first);
    let mut second = [0xFF; 68];
    cut(2, 0, 0, &mut second);
    println!(rt; "bundle, edition 2{}", Bytes(&second))?;
    print_rebuilt(rt, "read in edition 2", 2, 0, &second)?;
    print_rebuilt(rt, "read in edition 1", 1, 0, &second)?;
    print_rebuilt(rt, "that of edition 1 in edition 2", 2, 0, &first)
}

// The number of places of a plan.
fn print_price(rt: &impl Print, n: usize, k: usize, a: usize) -> io::Result<()> {
    let mut places = [0; 2 * plan::MAX_PLACES];
    match plan::plan(numbers(n, k, a, 2, 1), 0, &mut places) {
        Ok(v) => println!(rt; "({n},{k},{a}) {v}"),
        Err(_) => println!(rt; "({n},{k},{a}) refused"),
    }
}

// Encodes data of `size` bytes into an array of `room` bytes with a profile on its edge, and prints whether it passes.
fn print_edge(rt: &impl Print, name: &str, p: Numbers, size: usize, room: usize) -> io::Result<()>
    requires { (size ≤ 2052) × (room ≤ 4104) }
{
    let input = [0; 2052];
    let mut array = [0; 4104];
    match encode::encode(p, &input[..size], &mut array[..room]) {
        Ok(_) => println!(rt; "{name} passes"),
        Err(r) => println!(rt; "{name}{}", Refused(r)),
    }
}

// K4: 142 has the logarithm 254, so that the sums are 254, 255, 256 and 508, and that of the list 509.
fn print_products(rt: &impl Print) -> io::Result<()> {
    print!(rt; "142 times 1, 2, 4, 142 is")?;
    for b in [1, 2, 4, 142] {
        print!(rt; " {}", gf256::mul(142, b))?;
    }
    println!(rt; "")?;
    println!(rt;
        "product of 142, 142, 2 is {}",
        gf256::product_of(&[142, 142, 2])
    )
}

// The marked samples.
fn print_samples(rt: &impl Print) -> io::Result<()> {
    println!(rt; "M1 {}", gf256::mul(128, 128))?;
    print_inverse(rt, "M2", 2)?;
    println!(rt; "M3 {}", gf256::mul(3, 3))?;
    println!(rt; "M4{}", Bytes(&sample_array()))?;
    print_plan::<8>(rt, "M5", small(2), 0)?;
    print_plan::<8>(rt, "M6", small(2), 3)?;
    print_column(rt, "M7", 0)?;
    print_column(rt, "M8", 3)?;
    print_zero_columns(rt)?;
    print_reading(rt)
}

// The edges of a profile.
fn print_edges(rt: &impl Print) -> io::Result<()> {
    print_edge(rt, "t = 1", small(1), 4, 8)?;
    print_edge(rt, "t = 2", small(2), 4, 8)?;
    print_edge(rt, "S = 512", numbers(4, 2, 2, 2, 512), 2048, 4096)?;
    print_edge(rt, "S = 513", numbers(4, 2, 2, 2, 513), 2052, 4104)?;
    print_edge(rt, "A = 4 with n-k = 3", numbers(8, 5, 4, 2, 1), 20, 32)?;
    print_edge(rt, "n = 14 with A = 4", numbers(14, 10, 4, 2, 1), 40, 56)?;
    print_edge(rt, "k = 1 with (4,1,2)", numbers(4, 1, 2, 2, 1), 2, 8)
}

// K6: 13, after 3 and before 5.
fn print_edition_edges(rt: &impl Print) -> io::Result<()> {
    print_edge(rt, "edition 0", small_in(0), 4, 8)?;
    print_edge(rt, "edition 1", small_in(1), 4, 8)?;
    print_edge(rt, "edition 2", small_in(2), 4, 8)?;
    print_edge(rt, "edition 3", small_in(3), 4, 8)?;
    print_edge(rt, "edition 257", small_in(257), 4, 8)?;
    print_edge(
        rt,
        "edition 0, S = 513",
        Numbers {
            s: 513,
            ..small_in(0)
        },
        4,
        8,
    )?;
    print_edge(rt, "edition 0, an array of 7 bytes", small_in(0), 4, 7)
}

// The numbers of places of document 01's examples.
fn print_prices(rt: &impl Print) -> io::Result<()> {
    for (n, k, a) in [
        (4, 2, 2),
        (6, 2, 2),
        (9, 6, 3),
        (14, 10, 2),
        (12, 8, 4),
        (24, 20, 4),
    ] {
        print_price(rt, n, k, a)?;
    }
    Ok(())
}

fn main(rt: HostRuntime) -> io::Result<()> {
    print_samples(&rt)?;
    print_surveys(&rt)?;
    print_products(&rt)?;
    print_inverse(&rt, "inverse of 0", 0)?;
    print_bundle(&rt)?;
    print_old_bundle(&rt)?;
    print_mixed(&rt)?;
    print_walks(&rt)?;
    print_editions(&rt)?;
    print_edges(&rt)?;
    print_edition_edges(&rt)?;
    print_prices(&rt)
}
