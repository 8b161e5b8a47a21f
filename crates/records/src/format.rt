// The record format: the table of kinds and fields, reading a record and writing one.
ghost use Rattle.std.specs.Prelude.{◌≡◌, [], ◌∷◌, ◌++◌, ◌+◌, ◌*◌, ◌<◌, ◌≤◌, length, get_or, take, drop};
ghost use Rattle.job.specs.Format.{field_classes, row_of, class_at, in_class_lem, bad_field_lem, same, has, is_rule_lem};
ghost use Rattle.job.specs.Kinds.{kind_row, field_number};
ghost use Rattle.job.specs.Format.{records_of, no_record, bytes_of};

use job::{FieldClass, JobRecord, Kind};

// The classes of the three fields, a row for each kind: E, U, P, T, I, F, S.
const FIELD_CLASSES: [[FieldClass; 3]; 7] = [
    [FieldClass::Variable, FieldClass::Zero, FieldClass::Zero],
    [FieldClass::Variable, FieldClass::Symbol, FieldClass::Zero],
    [FieldClass::Variable, FieldClass::Symbol, FieldClass::Symbol],
    [FieldClass::State, FieldClass::Symbol, FieldClass::State],
    [FieldClass::State, FieldClass::Zero, FieldClass::Zero],
    [FieldClass::State, FieldClass::Zero, FieldClass::Zero],
    [FieldClass::Variable, FieldClass::Zero, FieldClass::Zero],
];

// The class of a field of a kind.
pub fn field_class(kind: Kind, field: usize) -> FieldClass
    requires within { field < 3 }
    ensures class { result ≡ class_at field_classes (kind_row kind) field }
{
    FIELD_CLASSES[kind as usize][field]
}

// Whether a byte is of a class.
pub fn in_class(class: FieldClass, value: u8) -> bool
    ensures says { result ≡ in_class_lem class value }
{
    match class {
        FieldClass::Zero => value == 0,
        FieldClass::Variable => grammar::is_variable(value),
        FieldClass::Symbol => grammar::is_symbol(value),
        FieldClass::State => value < 32,
    }
}

// Whether a byte is of the class of a field of a kind.
fn field_fits(kind: Kind, field: usize, value: u8) -> bool
    requires within { field < 3 }
    ensures says { result ≡ in_class_lem (class_at field_classes (kind_row kind) field) value }
{
    in_class(field_class(kind, field), value)
}

// Which of the three fields of a record of a kind is the first that is not of its class. Inlined, so that the classes
// of each kind are known where the kind is read.
#[inline(always)]
pub fn bad_field(kind: Kind, r: JobRecord) -> Option<usize>
    requires kind { row_of r.kind ≡ kind_row kind }
    ensures field { field_number result ≡ bad_field_lem field_classes r }
{
    if !field_fits(kind, 0, r.first) {
        return Some(0);
    }
    if !field_fits(kind, 1, r.second) {
        return Some(1);
    }
    if !field_fits(kind, 2, r.third) {
        return Some(2);
    }
    None
}

// Whether a kind byte is that of a rule.
pub fn is_rule(r: JobRecord) -> bool
    ensures says { result ≡ is_rule_lem r }
{
    matches!(r.kind, b'E' | b'U' | b'P')
}

// Record i of a job.
pub fn record_at(job: &[u8], i: usize) -> JobRecord
    requires within { 4 * i + 4 ≤ length job.now }
    ensures record { result ≡ get_or (records_of job.now) i no_record }
{
    let at = 4 * i;
    JobRecord {
        kind: job[at],
        first: job[at + 1],
        second: job[at + 2],
        third: job[at + 3],
    }
}

// Whether record i of a job is the four bytes of r. Field 2 takes the most values, so it is compared first.
pub fn alike(job: &[u8], i: usize, r: JobRecord) -> bool
    requires within { 4 * i + 4 ≤ length job.now }
    ensures says { result ≡ same (get_or (records_of job.now) i no_record) r }
{
    let at = 4 * i;
    job[at + 2] == r.second && job[at + 3] == r.third && job[at + 1] == r.first && job[at] == r.kind
}

// Whether a record stands among the first n of a job.
pub fn is_among(job: &[u8], n: usize, r: JobRecord) -> bool
    requires within { n ≤ length (records_of job.now) }
    ensures says { result ≡ has (take n (records_of job.now)) r }
{
    for i in 0..n {
        if alike(job, i, r) {
            return true;
        }
    }
    false
}

// Writes a record as record i of a buffer.
pub fn put_record(out: &mut [u8], i: usize, r: JobRecord)
    requires within { 4 * i + 4 ≤ length out.old }
    ensures put { out.new ≡ take (4 * i) out.old
        ++ (bytes_of (r ∷ []) ++ drop (4 * i + 4) out.old) }
{
    let at = 4 * i;
    out[at] = r.kind;
    out[at + 1] = r.first;
    out[at + 2] = r.second;
    out[at + 3] = r.third;
}
