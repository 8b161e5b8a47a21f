// The job: its record format, its checks, and what its records say once their order is gone.
#![tactic(auto)]

ghost use Rattle.std.specs.Prelude.{◌≡◌};
ghost use Rattle.job.specs.Kinds.{KindRead};
ghost use Rattle.job.specs.Refusals.{number_of, refused_or_none};
ghost use Rattle.job.specs.declared.Cause.TheVariants.{UnknownKind};

pub mod theorems;

// The most bytes that a job may have.
pub const JOB_BYTES: usize = 16384;

// The most rules that a job may have.
pub const RULES: usize = 256;

// How many symbols there are: 32 variables and 32 terminals.
pub const SYMBOLS: usize = 64;

// How many states there are.
pub const STATES: usize = 32;

// How many marks a job's check keeps for the records that it met.
pub const MARKS: usize = 8192;

// The most symbols that a form may have.
pub const FORM_SYMBOLS: usize = 64;

// The length of a lent table.
pub const TABLE_BYTES: usize = 65536;

// The length of the lent reasons.
pub const REASON_NUMBERS: usize = 32768;

// The length of the lent codes of the verdicts.
pub const CODE_BYTES: usize = 64;

// The four bytes of a record.
#[derive(Clone, Copy, PartialEq, Eq)]
pub struct JobRecord {
    pub kind: u8,
    pub first: u8,
    pub second: u8,
    pub third: u8,
}

// The body of a rule.
#[derive(Clone, Copy)]
pub enum Body {
    Empty,
    Unit(u8),
    Pair(u8, u8),
}

// A rule as its sort key has it.
#[derive(Clone, Copy)]
pub struct RuleFields {
    pub head: u8,
    pub body: Body,
}

// What a record is, by its kind byte: a rule E, U or P, a transition T, an initial state I, a final state F, a start
// symbol S.
#[derive(Clone, Copy)]
pub enum Kind {
    Empty,
    Unit,
    Pair,
    Transition,
    Initial,
    Final,
    Start,
}

// The error of a byte that is no kind byte.
#[derive(Clone, Copy)]
pub struct NoKind;

impl TryFrom<u8> for Kind {
    type Error = NoKind;

    ghost try_from_gives = { KindRead };

    fn try_from(byte: u8) -> Result<Self, NoKind> {
        match byte {
            b'E' => Ok(Kind::Empty),
            b'U' => Ok(Kind::Unit),
            b'P' => Ok(Kind::Pair),
            b'T' => Ok(Kind::Transition),
            b'I' => Ok(Kind::Initial),
            b'F' => Ok(Kind::Final),
            b'S' => Ok(Kind::Start),
            _ => Err(NoKind),
        }
    }
}

// What a field may hold.
#[derive(Clone, Copy)]
pub enum FieldClass {
    Zero,
    Variable,
    Symbol,
    State,
}

// How many rules a job may have.
#[derive(Clone, Copy)]
pub struct Limits {
    pub rules: usize,
}

// What a key is sold with, which says what the limits of a call are. Today every key has the full limits.
#[derive(Clone, Copy)]
pub enum Level {
    Full,
}

// Why a call is refused, in the order of the refusals' numbers, which `number` gives.
#[derive(Clone, Copy)]
pub enum Cause {
    PartialRecord,
    TooLong,
    UnknownKind,
    FieldOutsideClass,
    Repeated,
    Second,
    TooManyRules,
    NoStart,
    NoInitial,
    ShortBuffer,
    NoSymbol,
    FormTooLong,
    NoRoom,
    TooFewVariables,
    IllPadded,
    OutsideAbnf,
    NameOutOfPlace,
    TooFewNumbers,
}

impl Cause {
    // The number of a refusal, 1 to 18.
    pub fn number(self) -> u64
        ensures number { result ≡ number_of self }
    {
        match self {
            Cause::PartialRecord => 1,
            Cause::TooLong => 2,
            Cause::UnknownKind => 3,
            Cause::FieldOutsideClass => 4,
            Cause::Repeated => 5,
            Cause::Second => 6,
            Cause::TooManyRules => 7,
            Cause::NoStart => 8,
            Cause::NoInitial => 9,
            Cause::ShortBuffer => 10,
            Cause::NoSymbol => 11,
            Cause::FormTooLong => 12,
            Cause::NoRoom => 13,
            Cause::TooFewVariables => 14,
            Cause::IllPadded => 15,
            Cause::OutsideAbnf => 16,
            Cause::NameOutOfPlace => 17,
            Cause::TooFewNumbers => 18,
        }
    }
}

impl From<NoKind> for Cause {
    ghost from_gives = { λ _ cause. cause ≡ UnknownKind };

    fn from(_none: NoKind) -> Cause {
        Cause::UnknownKind
    }
}

// A refused call: why, and where.
#[derive(Clone, Copy)]
pub struct Refusal {
    pub cause: Cause,
    pub place: usize,
}

// A refusal's number and place as the programs print them, 0 and 0 for none.
pub fn numbers_of(refusal: Option<Refusal>) -> (usize, usize)
    ensures numbers { record { number = result.0; place = result.1 } ≡ refused_or_none refusal }
{
    match refusal {
        Some(refusal) => (refusal.cause.number() as usize, refusal.place),
        None => (0, 0),
    }
}

// What checks answer.
pub type Checked = Result<(), Refusal>;

// A part of a job's bytes.
#[derive(Clone, Copy)]
pub struct Part {
    pub offset: usize,
    pub length: usize,
}

// How many rules, S records and I records were seen.
#[derive(Clone, Copy)]
pub struct Tally {
    pub rules: usize,
    pub starts: usize,
    pub initials: usize,
}
