// What the benchmarks measure by itself: a part of an operation, exported for them alone. The product links none of it.
#![tactic(auto)]

ghost use Rattle.std.specs.Prelude.{◌≡◌};
ghost use Rattle.job.specs.Format.{records_of};
ghost use Rattle.job.specs.Job.{states_of};

// The number of states of a job, without the checks: whatever bytes are given.
#[unsafe(no_mangle)]
pub extern "C" fn ropeclover_benchmark_state_count(job: &[u8]) -> u64
    ensures states { result ≡ states_of (records_of job.now) }
{
    lookup::facts::state_count(job) as u64
}
