// Encoding: plain rows by sums of weighted data columns, then the rows coupled pair by pair in place.
#![tactic(auto)]

ghost use Rattle.std.specs.Prelude.{◌≡◌, ◌*◌, ◌<◌, ◌≤◌, length};
ghost use Rattle.document.specs.Encoding.{base_at, column_of, plain, encode_with, encode_of};
ghost use Rattle.coefficients.specs.Data.{data_denominators};

use document::{Numbers, Profile, Refusal};

// The column of a parity node: the data columns, each times its weight, added up. Every row has the same weights, so a
// whole column is one strip to the row code.
fn put_parity(column: &mut [u8], p: Profile, input: &[u8], denominators: &[u8], j: usize)
    requires parity { (p.k ≤ j) × (j < p.n) }
    requires input_len { (length input.now ≡ p.k * p.a * p.s) × (length column.old ≡ p.a * p.s) }
    requires denominators_value { denominators.now ≡ data_denominators p.k }
    ensures { column.new ≡ column_of p (base_at p input.now) j }
{
    let k = p.k;
    let mut weights = [0u8; Profile::MAX_NODES];
    coefficients::parity_weights(denominators, j, &mut weights[..k]);
    strips::combine(column, input, 0, p.a * p.s, &weights[..k]);
}

// The rows of base symbols: the data's columns as they are, then the parity columns.
fn put_rows(array: &mut [u8], p: Profile, input: &[u8])
    requires { (length input.now ≡ p.k * p.a * p.s) × (length array.old ≡ p.n * p.a * p.s) }
    ensures { array.new ≡ plain p input.now }
{
    let k = p.k;
    let width = p.a * p.s;
    let mut denominators = [0u8; Profile::MAX_NODES];
    coefficients::data_denominators(&mut denominators[..k]);
    lists::put_bytes(array, 0, input);
    // A loop and no `each_part`: the nodes begin at k, in the column and in the number.
    for j in k..p.n {
        let at = j * width;
        put_parity(&mut array[at..at + width], p, input, &denominators[..k], j);
    }
}

// Encodes with an accepted profile.
fn encode_with(p: Profile, input: &[u8], array: &mut [u8]) -> Result<usize, Refusal>
    ensures { (result, array.new) ≡ encode_with p input.now array.old }
{
    if input.len() != p.k * p.a * p.s {
        return Err(Refusal::BufferLength);
    }
    if array.len() != p.n * p.a * p.s {
        return Err(Refusal::BufferLength);
    }
    put_rows(array, p, input);
    coupling::couple(array, p);
    Ok(0)
}

// Encodes the data into the array. After a refusal the array is what it was.
pub fn encode(p: Numbers, input: &[u8], array: &mut [u8]) -> Result<usize, Refusal>
    ensures { (result, array.new) ≡ encode_of p input.now array.old }
{
    let profile = Profile::new(p)?;
    encode_with(profile, input, array)
}
