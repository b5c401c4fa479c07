// The functions for a C host: plain numbers and byte slices over the entry points. include/whaupfield.h declares them.
// C needs each of them with six numbers, and numbers for the outcomes of a survey.
#![tactic(auto)]

ghost use Rattle.std.specs.Prelude.{◌≡◌, ◌*◌, ◌^◌, ◌<◌, Ok};
ghost use Rattle.gf256.specs.Field.{◌⊗◌, inverted_of};
ghost use Rattle.document.specs.Refusals.{answer_value};
ghost use Rattle.document.specs.Encoding.{encode_of};
ghost use Rattle.document.specs.Plan.{plan_of};
ghost use Rattle.document.specs.Bundle.{write_of};
ghost use Rattle.document.specs.Rebuild.{rebuild_of};
ghost use Rattle.document.specs.Reading.{read_of};
ghost use Rattle.document.specs.Survey.{survey_of, failing_position, looked_in};
ghost use Rattle.whaupfield.specs.Packed.{packed, packed_with, outcome_packed, packed_survey, packed_survey_with};
ghost use Rattle.whaupfield.specs.Packed.{packed_inverse};

use document::{Numbers, Recording, Refusal, Surveyed};

// The answer's number in the low byte, its value above it.
fn pack(answer: Result<usize, Refusal>) -> u64
    requires { answer_value answer < 2 ^ 55 }
    ensures { result ≡ packed answer }
{
    match answer {
        Ok(v) => 256 * (v as u64),
        Err(r) => (r.number() as u64) + 256 * (r.index() as u64),
    }
}

#[unsafe(no_mangle)]
pub extern "C" fn whaupfield_encode(
    n: usize,
    k: usize,
    a: usize,
    t: usize,
    s: usize,
    edition: usize,
    input: &[u8],
    array: &mut [u8],
) -> u64
    ensures { (result, array.new) ≡ packed_with (encode_of
        (record { n = n; k = k; a = a; t = t; s = s; edition = edition }) input.now array.old) }
{
    pack(encode::encode(
        Numbers {
            n,
            k,
            a,
            t,
            s,
            edition,
        },
        input,
        array,
    ))
}

#[unsafe(no_mangle)]
pub extern "C" fn whaupfield_plan(
    n: usize,
    k: usize,
    a: usize,
    t: usize,
    s: usize,
    edition: usize,
    lost: usize,
    places: &mut [u8],
) -> u64
    ensures { (result, places.new) ≡ packed_with (plan_of
        (record { n = n; k = k; a = a; t = t; s = s; edition = edition }) lost places.old) }
{
    pack(plan::plan(
        Numbers {
            n,
            k,
            a,
            t,
            s,
            edition,
        },
        lost,
        places,
    ))
}

#[unsafe(no_mangle)]
pub extern "C" fn whaupfield_write_bundle(
    n: usize,
    k: usize,
    a: usize,
    t: usize,
    s: usize,
    edition: usize,
    lost: usize,
    scenario: u32,
    run: u16,
    array: &[u8],
    bundle: &mut [u8],
) -> u64
    ensures { (result, bundle.new) ≡ packed_with (write_of
        (record { n = n; k = k; a = a; t = t; s = s; edition = edition }) lost
        (record { scenario = scenario; run = run }) array.now bundle.old) }
{
    let p = Numbers {
        n,
        k,
        a,
        t,
        s,
        edition,
    };
    pack(bundle::write_bundle(p, lost, Recording { scenario, run }, array, bundle))
}

#[unsafe(no_mangle)]
pub extern "C" fn whaupfield_rebuild(
    n: usize,
    k: usize,
    a: usize,
    t: usize,
    s: usize,
    edition: usize,
    lost: usize,
    scenario: u32,
    run: u16,
    bundle: &[u8],
    column: &mut [u8],
) -> u64
    ensures { (result, column.new) ≡ packed_with (rebuild_of
        (record { n = n; k = k; a = a; t = t; s = s; edition = edition }) lost
        (record { scenario = scenario; run = run }) bundle.now column.old) }
{
    let p = Numbers {
        n,
        k,
        a,
        t,
        s,
        edition,
    };
    pack(rebuild::rebuild(p, lost, Recording { scenario, run }, bundle, column))
}

#[unsafe(no_mangle)]
pub extern "C" fn whaupfield_read_back(
    n: usize,
    k: usize,
    a: usize,
    t: usize,
    s: usize,
    edition: usize,
    nodes: &[u8],
    columns: &[u8],
    output: &mut [u8],
) -> u64
    ensures { (result, output.new) ≡ packed_with (read_of
        (record { n = n; k = k; a = a; t = t; s = s; edition = edition }) nodes.now columns.now
        output.old) }
{
    pack(reading::read_back(
        Numbers {
            n,
            k,
            a,
            t,
            s,
            edition,
        },
        nodes,
        columns,
        output,
    ))
}

// The value of a survey's answer, above the low byte: the outcome in two bits, the position and the number of sets
// looked at in 22 bits each.
fn pack_outcome(outcome: u64, position: usize, looked: usize) -> u64
    requires { (outcome < 4) × (position < 2 ^ 22) × (looked < 2 ^ 22) }
    ensures { result ≡ 256 * outcome_packed outcome position looked }
{
    let sets = (position as u64) + 4194304 * (looked as u64);
    256 * (outcome + 4 * sets)
}

// What a survey finds.
fn pack_found(found: Surveyed) -> u64
    requires { (failing_position (Ok found) < 2 ^ 22) × (looked_in (Ok found) < 2 ^ 22) }
    ensures { result ≡ packed_survey (Ok found) }
{
    match found {
        Surveyed::Failing(position, looked) => pack_outcome(1, position, looked),
        Surveyed::Done(looked) => pack_outcome(2, 0, looked),
        Surveyed::Open(looked) => pack_outcome(3, 0, looked),
    }
}

// The answer of a survey.
fn pack_survey(answer: Result<Surveyed, Refusal>) -> u64
    requires { (failing_position answer < 2 ^ 22) × (looked_in answer < 2 ^ 22) }
    ensures { result ≡ packed_survey answer }
{
    match answer {
        Ok(found) => pack_found(found),
        Err(r) => r.number() as u64,
    }
}

#[unsafe(no_mangle)]
pub extern "C" fn whaupfield_survey(
    n: usize,
    k: usize,
    a: usize,
    t: usize,
    s: usize,
    edition: usize,
    start: usize,
    most: usize,
    set: &mut [u8],
) -> u64
    ensures { (result, set.new) ≡ packed_survey_with (survey_of
        (record { n = n; k = k; a = a; t = t; s = s; edition = edition }) start most set.old) }
{
    pack_survey(survey::survey(
        Numbers {
            n,
            k,
            a,
            t,
            s,
            edition,
        },
        start,
        most,
        set,
    ))
}

#[unsafe(no_mangle)]
pub extern "C" fn whaupfield_product(a: u8, b: u8) -> u8
    ensures { result ≡ a ⊗ b }
{
    gf256::mul(a, b)
}

// An inverse as one number: 0 in the low byte and the inverse above it, or 255 if there is none.
#[tactic(auto, unfolding(crate::specs::Packed::packed_inverse))]
fn pack_inverse(inverse: Option<u8>) -> u64
    ensures { result ≡ packed_inverse inverse }
{
    match inverse {
        Some(b) => 256 * u64::from(b),
        None => 255,
    }
}

#[unsafe(no_mangle)]
pub extern "C" fn whaupfield_inverse(a: u8) -> u64
    ensures { result ≡ packed_inverse (inverted_of a) }
{
    pack_inverse(gf256::inverse(a))
}
