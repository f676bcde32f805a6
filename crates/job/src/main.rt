// Document 02, request 2: reads a job from standard input and prints its text, on slices as long as the request says. The exit code is 0
// for every input, unless a read or a write fails. `run` prints `printed` of all the input, at every reader and writer whose bytes are
// known: what the system's streams give and take is no part of a proof.
#![tactic(auto)]

ghost use Rattle.std.specs.Prelude.{◌≡◌, ◌+◌, ◌≤◌, ℕ, List, IfSome, OnErr, OnOk, length, take};
ghost use Rattle.std.specs.Io.KnownBytes.{Appends, Consumes};
ghost use Rattle.job_text.specs.Printed.{printed};

use job_steps::MAX_JOB;
use job_text::{TEXT_BYTES, write_text};
use reads::{filled, read_full};
use std::io;
use std::io::{Read, Write};

// Writes a job's text; with room for the longest one no buffer is too short (`prints`, job_text JobAlone).
fn print_job<W: Write>(out: &mut W, job: &[u8], text: &mut [u8]) -> io::Result<()>
    requires { 131078 ≤ length text.old }
    ensures written { OnOk result (Appends (W.contents out.old) (W.contents out.new) (printed job.now)) }

    // Also where a write fails, of which std doesn't say how much was taken.
    ensures held { take (length (printed job.now)) text.new ≡ printed job.now }
{
    let Ok(ran) = write_text(job, text) else {
        return Ok(());
    };
    out.write_all(&text[..ran.text_length])
}

// The text of the job that the whole input is. No more is read than shows that it is longer than any job.
fn run<R: Read, W: Write>(input: &mut R, out: &mut W) -> io::Result<()>
    ensures written { OnOk result (IfSome (R.remaining input.old)
        (λ bytes. Appends (W.contents out.old) (W.contents out.new) (printed bytes))) }

    // Where a read or a write fails: what was read is what the input begins with.
    ensures failed { OnErr result ((bytes : List ℕ) × Consumes (R.remaining input.old) (R.remaining input.new) bytes) }
{
    // One byte more than the longest job has, so that a longer one is seen.
    let mut job: [u8; MAX_JOB + 1] = filled(0);
    let n = read_full(input, &mut job)?;
    let mut text: [u8; TEXT_BYTES] = filled(0);
    print_job(out, &job[..n], &mut text)
}

fn main(rt: HostRuntime) -> io::Result<()> {
    run(&mut rt.stdin(), &mut rt.stdout())
}
