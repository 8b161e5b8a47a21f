// The bit table and the reasons as start writes them.
ghost use Rattle.std.specs.Prelude.{◌≡◌, true, ℕ, ◌+◌, ◌*◌, ◌<◌, ◌≤◌, length, get_or};
ghost use Rattle.job.specs.Accepted.{Accepted};
ghost use Rattle.job.specs.Format.{records_of};
ghost use Rattle.job.specs.Job.{job_of};
ghost use Rattle.job.specs.Format.{no_record};
ghost use Rattle.machine.specs.Table.{lent_of, reasons_size};
ghost use Rattle.job.specs.Inside.Keys.{KeyFits, rule_of_key, Keys, rules_of_keys};
ghost use Rattle.machine.specs.Inside.StartParts.{TransitionFits, giving, giving_all, looping_rule, looping_all};
ghost use Rattle.bit_machine.specs.BitTable.{bits_size, table_of_bits};
ghost use Rattle.bit_machine.specs.Machine.{started_bits};
ghost use Rattle.bit_machine.specs.Inside.Change.{Kept, NoneDone};

use bits::{BITS_BYTES, table};
use job::{Body, JobRecord};
use transitions::{GIVEN_REASON, STATE_PLACES, STATE_REASONS};

// Kept (5): `bits` and `reasons` are the two buffers that C lends. A struct of both, as `stepping::step::Memory`, would
// add a clause on its parts to each of the four functions here, and take no parameter but one from each.

// The transition of a T record is pending, and given if its label is a variable.
fn give(bits: &mut [u8], reasons: &mut [u32], given: JobRecord)
    requires long { (bits_size ≤ length bits.old) × (reasons_size ≤ length reasons.old) }
    requires fits { TransitionFits given × NoneDone bits.old }
    ensures given { lent_of (table_of_bits bits.new) reasons.new
        ≡ giving given (lent_of (table_of_bits bits.old) reasons.old) }
    ensures kept { Kept bits.old bits.new × NoneDone bits.new }
{
    if given.kind != b'T' {
        return;
    }
    let q = given.first as usize;
    let x = given.second as usize;
    let r = given.third as usize;
    table::make_pending(bits, q * STATE_PLACES + x * 32 + r);
    if grammar::is_variable(given.second) {
        reasons[q * STATE_REASONS + x * 32 + r] = u32::from(GIVEN_REASON);
    }
}

// The transitions of all T records.
fn give_all(job: &[u8], bits: &mut [u8], reasons: &mut [u32])
    requires long { (bits_size ≤ length bits.old) × (reasons_size ≤ length reasons.old) }
    requires fit { ((i : ℕ) → i < length (records_of job.now)
        → TransitionFits (get_or (records_of job.now) i no_record)) × NoneDone bits.old }
    ensures given { lent_of (table_of_bits bits.new) reasons.new
        ≡ giving_all (records_of job.now) (lent_of (table_of_bits bits.old) reasons.old) }
    ensures kept { Kept bits.old bits.new }
{
    for i in 0..job.len() / 4 {
        give(bits, reasons, records::format::record_at(job, i));
    }
}

// The ε transitions of a rule, where it is an E rule, at every state, unless they are there already.
fn loop_all(bits: &mut [u8], reasons: &mut [u32], states: usize, key: u32, rank: u16)
    requires long { (bits_size ≤ length bits.old) × (reasons_size ≤ length reasons.old) }
    requires fits { (states ≤ 32) × KeyFits key × (rank < 256) }
    ensures looped { lent_of (table_of_bits bits.new) reasons.new
        ≡ looping_rule states rank (rule_of_key key) (lent_of (table_of_bits bits.old) reasons.old) }
    ensures kept { Kept bits.old bits.new }
{
    let rule = records::rules::unpack(key);
    let Body::Empty = rule.body else {
        return;
    };
    let variable = rule.head as usize;
    let reason = 1 + 32 * u32::from(rank);
    for q in 0..states {
        let place = q * STATE_PLACES + variable * 32 + q;
        table::offer(
            bits,
            reasons,
            place,
            transitions::table::reason_place(place),
            reason,
        );
    }
}

// The ε transitions of the rules whose sort keys are given in the order of their ranks.
fn loop_rules(bits: &mut [u8], reasons: &mut [u32], states: usize, keys: &[u32])
    requires long { (bits_size ≤ length bits.old) × (reasons_size ≤ length reasons.old) × (states ≤ 32) }
    requires rules { Keys keys.now }
    ensures looped { lent_of (table_of_bits bits.new) reasons.new
        ≡ looping_all states 0 (rules_of_keys keys.now)
        (lent_of (table_of_bits bits.old) reasons.old) }
    ensures kept { Kept bits.old bits.new }
{
    for (k, key) in keys.iter().enumerate() {
        loop_all(bits, reasons, states, *key, k as u16);
    }
}

// Writes the bit table and the reasons of an accepted job, and returns its number of states.
pub fn begin(job: &[u8], bits: &mut [u8], reasons: &mut [u32]) -> usize
    requires able { (bits_size ≤ length bits.old) × (reasons_size ≤ length reasons.old)
        × Accepted true job.now }
    ensures states { result ≡ (job_of job.now).states }
    ensures written { lent_of bits.new reasons.new
        ≡ started_bits (job_of job.now) (lent_of bits.old reasons.old) }
{
    let states = lookup::facts::state_count(job);
    let keys = lookup::sorting::sorted_rules(job);
    records::clear::clear_front(bits, BITS_BYTES);
    transitions::clear::clear_reasons(reasons);
    give_all(job, bits, reasons);
    loop_rules(bits, reasons, states, keys.as_slice());
    states
}
