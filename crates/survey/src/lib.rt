// The survey of a profile: the sets of k nodes one after the other, each decided by elimination alone.
#![tactic(auto)]

ghost use Rattle.std.specs.Prelude.{◌≡◌, ◌+◌, ◌≤◌, ◌<◌, length};
ghost use Rattle.ksets.specs.Sets.{sets, set_at, Rising};
ghost use Rattle.document.specs.Profile.{max_nodes};
ghost use Rattle.document.specs.Reading.{ambiguous};
ghost use Rattle.document.specs.Survey.{result_of, survey_with, survey_of};
ghost use Rattle.survey.specs.Steps.{Found};

use document::{Numbers, Profile, Refusal, Surveyed};

// Whether a set fails: whether the system of its half pairs is singular.
fn fails(p: Profile, set: &[u8]) -> bool
    requires { Rising p.n p.k set.now }
    ensures { result ≡ ambiguous p set.now }
{
    let h = half_pairs::of_nodes(p, set);
    let lines = half_pairs::small_system(p, set, &h);
    let count = h.count;
    square::judge(lines, count, count).is_some()
}

// The next set, if it is to be looked at.
fn go_on(set: &mut [u8], n: usize, at: usize, end: usize)
    requires n_le_max_nodes { (n ≤ max_nodes) × (end ≤ sets n (length set.old)) × (at < end) }
    requires set_value { set.old ≡ set_at 0 n (length set.old) at }
    ensures { at + 1 < end → set.new ≡ set_at 0 n (length set.old) (at + 1) }
{
    if at + 1 < end {
        ksets::step(set, n);
    }
}

// The first failing position from `start` on, before `end`, if there is one. The set goes from position to position and
// stays at the failing one.
fn look(p: Profile, set: &mut [u8], start: usize, end: usize) -> Option<usize>
    requires set_len { length set.old ≡ p.k }
    requires start_lt_end { (start < end) × (end ≤ sets p.n p.k) × (set.old ≡ set_at 0 p.n p.k start) }
    ensures { Found p start end result set.new }
{
    let n = p.n;
    for at in start..end {
        if fails(p, set) {
            return Some(at);
        }
        go_on(set, n, at, end);
    }
    None
}

// The same with the set at `start` written first.
fn first_failing(p: Profile, set: &mut [u8], start: usize, end: usize) -> Option<usize>
    requires { (length set.old ≡ p.k) × (start ≤ end) × (end ≤ sets p.n p.k) }
    ensures { Found p start end result set.new }
{
    if start == end {
        return None;
    }
    ksets::unrank(set, p.n, start);
    look(p, set, start, end)
}

// A survey that is not refused.
fn survey_from(
    p: Profile,
    start: usize,
    most: usize,
    total: usize,
    set: &mut [u8],
) -> Result<Surveyed, Refusal>
    requires { (total ≡ sets p.n p.k) × (start ≤ total) × (length set.old ≡ p.k) }
    ensures { (result, set.new) ≡ result_of p start most set.old }
{
    let k = p.k;
    let looked = most.min(total - start);
    let end = start + looked;
    let mut current = [0u8; Profile::MAX_NODES];
    if let Some(found) = first_failing(p, &mut current[..k], start, end) {
        set.copy_from_slice(&current[..k]);
        let passed = found - start;
        return Ok(Surveyed::Failing(found, passed + 1));
    }
    if end == total {
        return Ok(Surveyed::Done(looked));
    }
    Ok(Surveyed::Open(looked))
}

// Surveys with an accepted profile.
fn survey_with(p: Profile, start: usize, most: usize, set: &mut [u8]) -> Result<Surveyed, Refusal>
    ensures { (result, set.new) ≡ survey_with p start most set.old }
{
    let total = ksets::count(p.n, p.k);
    if total < start {
        return Err(Refusal::OutOfRange);
    }
    if set.len() != p.k {
        return Err(Refusal::BufferLength);
    }
    survey_from(p, start, most, total, set)
}

// Looks at the sets of k nodes from the position `start` on, at most `most` of them. The set is written where it fails,
// and stays as it was otherwise.
pub fn survey(p: Numbers, start: usize, most: usize, set: &mut [u8]) -> Result<Surveyed, Refusal>
    ensures { (result, set.new) ≡ survey_of p start most set.old }
{
    let profile = Profile::new(p)?;
    survey_with(profile, start, most, set)
}
