// A job's bytes: its pool and its steps, each after its count. A count or a field is four bytes, highest first; a step is nine.
ghost use Rattle.std.specs.Prelude.{◌≡◌, IfSome, is_some, map};
ghost use Rattle.units.specs.Numbers.{number};
ghost use Rattle.job_steps.specs.JobFormat.{pool, steps, step_of, is_whole};

pub(crate) const STEP_BYTES: usize = 9;

// A job's parts.
#[derive(Clone, Copy)]
pub(crate) struct Parts<'a> {
    pub(crate) pool: &'a [u8],
    pub(crate) steps: &'a [[u8; STEP_BYTES]],
}

// A kind and two numbers.
#[derive(Clone, Copy)]
pub(crate) struct Step {
    pub(crate) kind: u8,
    pub(crate) first: u32,
    pub(crate) second: u32,
}

// The number that four bytes are.
fn number(bytes: [u8; 4]) -> u32
    ensures { result ≡ number bytes }
{
    u32::from_be_bytes(bytes)
}

// The parts of a job whose counts, pool and steps are the whole of it.
pub(crate) fn whole_parts(job: &[u8]) -> Option<Parts<'_>>
    ensures whole { is_some result ≡ is_whole job.now }
    ensures parts { IfSome result (λ p. (p.pool.now ≡ pool job.now) × (map step_of p.steps.now ≡ steps job.now)) }
{
    let (pool_count, rest) = job.split_first_chunk::<4>()?;
    let (pool, rest) = rest.split_at_checked(number(*pool_count) as usize)?;
    let (step_count, rest) = rest.split_first_chunk::<4>()?;
    let (steps, left) = rest.as_chunks::<STEP_BYTES>();
    if left.len() != 0 || steps.len() != number(*step_count) as usize {
        return None;
    }
    Some(Parts { pool, steps })
}

// The step that nine bytes are.
pub(crate) fn step_of(bytes: &[u8; STEP_BYTES]) -> Step
    ensures { result ≡ step_of bytes.now }
{
    let [kind, a, b, c, d, e, f, g, h] = *bytes;
    Step {
        kind,
        first: number([a, b, c, d]),
        second: number([e, f, g, h]),
    }
}
