// From which states the rest of a form can finish, as a word for each of its positions, and the accepting state
// sequence that comes first.
ghost use Rattle.std.specs.Prelude.{◌≡◌, ℕ, ◌<◌, ◌≤◌, true, ◌&&◌, ◌||◌, length, get_or, take};
ghost use Rattle.grammar.specs.Counting.{some};
ghost use Rattle.job.specs.Accepted.{Accepted};
ghost use Rattle.job.specs.Format.{same};
ghost use Rattle.job.specs.Job.{final_record, job_of};
ghost use Rattle.machine.specs.Table.{done_in};
ghost use Rattle.bit_machine.specs.BitTable.{bits_size, bit_of, bit_statuses};
ghost use Rattle.forms.specs.Acceptance.{route};
ghost use Rattle.forms.specs.Operations.{accepts_by};
ghost use Rattle.forms.specs.Inside.AcceptanceParts.{FormFits, FinishWords, final_of, Filled};

use crate::FINISH_WORDS;
use job::{FORM_SYMBOLS, JobRecord};

// A word of states with the one that a record says is final, if it does.
#[tactic(auto, using(forms::proofs::FinalWord::other_kind, forms::proofs::FinalWord::other_second, forms::proofs::FinalWord::other_third, forms::proofs::FinalWord::no_state, forms::proofs::FinalWord::noted))]
fn with_final(word: u32, r: JobRecord) -> u32
    ensures states { (q : ℕ) → q < 32 → bit_of result q ≡ (bit_of word q || same r (final_record q)) }
{
    if r.kind == b'F' && r.second == 0 && r.third == 0 && r.first < 32 {
        word | (1 << r.first)
    } else {
        word
    }
}

// The final states of a job as a word, in one pass.
fn final_word(job: &[u8]) -> u32
    ensures word { (q : ℕ) → q < 32 → bit_of result q ≡ (job_of job.now).final q }
{
    let mut word = 0;
    for i in 0..job.len() / 4 {
        word = with_final(word, records::format::record_at(job, i));
    }
    word
}

// The states from which a done transition with a symbol leads to one of some states.
fn leading_to(bits: &[u8], symbol: usize, targets: u32) -> u32
    requires within { (symbol < 64) × (bits_size ≤ length bits.now) }
    ensures word { (q : ℕ) → q < 32
        → bit_of result q ≡ some (λ r. done_in (bit_statuses bits.now) q symbol r && bit_of targets r) 32 }
{
    let mut word = 0;
    for q in 0..32 {
        if bits::table::done_row(bits, q * 64 + symbol) & targets != 0 {
            word |= 1 << q;
        }
    }
    word
}

// A word for each position of the form: the states from which the form from there on leads to a final one.
fn finish_words(bits: &[u8], form: &[u8], finals: u32) -> [u32; FINISH_WORDS]
    requires fits { (bits_size ≤ length bits.now) × FormFits form.now }
    ensures words { FinishWords (bit_of finals) bits.now form.now result }
{
    let mut words = [0; FINISH_WORDS];
    words[form.len()] = finals;
    for i in (0..form.len()).rev() {
        words[i] = leading_to(bits, usize::from(form[i]), words[i + 1]);
    }
    words
}

// From which states a form can finish on a bit table: a word for each of its positions, and the state that it begins in.
#[derive(Drop)]
pub struct Finish<'a> {
    pub bits: &'a [u8],
    pub form: &'a [u8],
    pub words: [u32; FINISH_WORDS],
    pub initial: usize,
    pub ghost fits: { (bits_size ≤ length bits.now) × FormFits form.now × (initial < 32) },
    pub ghost right: { FinishWords (final_of form.now words) bits.now form.now words },
}

impl<'a> Finish<'a> {
    // By the final states and the initial state of a job.
    pub fn by_job(job: &[u8], bits: &'a [u8], form: &'a [u8]) -> Finish<'a>
        requires able { (bits_size ≤ length bits.now) × FormFits form.now × Accepted true job.now }
        ensures of { (result.bits.now ≡ bits.now) × (result.form.now ≡ form.now) }
        ensures filled { Filled job.now bits.now form.now result.words result.initial }
    {
        Finish {
            bits,
            form,
            words: finish_words(bits, form, final_word(job)),
            initial: usize::from(lookup::facts::field_of(job, b'I')),
        }
    }

    // Whether the whole form can finish.
    pub fn accepts(&self) -> bool
        ensures says { result ≡ bit_of (get_or self.now.words 0 0) self.now.initial }
    {
        bits::word::has_bit(self.words[0], self.initial)
    }

    // The places of the transitions of the accepting state sequence that comes first, where the form can finish. The
    // final states are those of the word of the form's end.
    pub fn route(&self) -> [u16; FORM_SYMBOLS]
        requires accepted { bit_of (get_or self.now.words 0 0) self.now.initial ≡ true }
        ensures route { take (length self.now.form.now) result
            ≡ route (final_of self.now.form.now self.now.words) (done_in (bit_statuses self.now.bits.now))
            self.now.form.now self.now.initial }
    {
        let mut places = [0; FORM_SYMBOLS];
        let mut at = self.initial;
        for (i, symbol) in self.form.iter().enumerate() {
            let row = at * 64 + usize::from(*symbol);
            at = bits::word::first_one(bits::table::done_row(self.bits, row) & self.words[i + 1]);
            places[i] = (row * 32 + at) as u16;
        }
        places
    }
}

// Whether a form is accepted by a job on a bit table.
#[tactic(auto, using(forms::proofs::AskAnswers::initial_bit))]
pub fn is_accepted(job: &[u8], bits: &[u8], form: &[u8]) -> bool
    requires able { (bits_size ≤ length bits.now) × FormFits form.now × Accepted true job.now }
    ensures accepted { result
        ≡ accepts_by (job_of job.now) (bit_statuses bits.now) form.now }
{
    Finish::by_job(job, bits, form).accepts()
}
