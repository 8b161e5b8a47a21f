// The variables that no record names.
ghost use Rattle.std.specs.Prelude.{◌≡◌, ◌<◌};
ghost use Rattle.job.specs.Format.{field_classes, class_at};
ghost use Rattle.job.specs.Kinds.{kind_row};
ghost use Rattle.long_jobs.specs.Dialect.{long_records_lem};
ghost use Rattle.long_jobs.specs.Fresh.{holds_symbol_lem, field_names_lem, short_names_lem, names, is_named_lem, free_in};
ghost use Rattle.long_jobs.specs.Inside.Parts.{InFront};

use job::{FieldClass, JobRecord, Kind, SYMBOLS};
use long_records::{LongRecord, dialect};
use records::format;

// The variables that are free to be taken, lowest first: how many they are, and zeros behind them.
#[derive(Clone, Copy)]
pub struct Free {
    pub variables: [u8; SYMBOLS],
    pub count: usize,
}

// Whether fields of a class name symbols.
fn holds_symbol(class: FieldClass) -> bool
    ensures says { result ≡ holds_symbol_lem class }
{
    matches!(class, FieldClass::Variable | FieldClass::Symbol)
}

// Whether a field of a kind, that holds a value, names v.
fn field_names(kind: Kind, field: usize, value: u8, v: u8) -> bool
    requires within { field < 3 }
    ensures says { result ≡ field_names_lem (class_at field_classes (kind_row kind) field) value v }
{
    holds_symbol(format::field_class(kind, field)) && value == v
}

// Whether a record of a job names v. One of no kind names nothing.
#[tactic(auto, unfolding(long_jobs::specs::Fresh::short_names_lem))]
fn short_names(r: JobRecord, v: u8) -> bool
    ensures says { result ≡ short_names_lem r v }
{
    let Ok(kind) = Kind::try_from(r.kind) else {
        return false;
    };
    field_names(kind, 0, r.first, v)
        || field_names(kind, 1, r.second, v)
        || field_names(kind, 2, r.third, v)
}

// Whether a record names v.
#[tactic(auto, unfolding(long_jobs::specs::Fresh::names, long_jobs::specs::Fresh::holds), using(long_jobs::proofs::Tests::held))]
fn names(bytes: &LongRecord, v: u8) -> bool
    ensures says { result ≡ names bytes.now v }
{
    if dialect::is_long(bytes) {
        bytes[1] == v || dialect::body(bytes).contains(&v)
    } else {
        short_names(dialect::short_record(bytes), v)
    }
}

// Whether some record names v.
fn is_named(source: &[u8], v: u8) -> bool
    ensures says { result ≡ is_named_lem (long_records_lem source.now) v }
{
    dialect::records(source).iter().any(|bytes| names(bytes, v))
}

// The variables that no record names.
#[tactic(auto, using(long_jobs::proofs::Front::unnamed_few))]
pub fn free_in(source: &[u8]) -> Free
    ensures front { InFront result.variables result.count (free_in (long_records_lem source.now)) }
{
    let mut free = Free {
        variables: [0; SYMBOLS],
        count: 0,
    };
    for v in 0..32 {
        if !is_named(source, v) {
            free.variables[free.count] = v;
            free.count += 1;
        }
    }
    free
}
