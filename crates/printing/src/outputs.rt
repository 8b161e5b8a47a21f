// The outputs of the programs, each a text that is put on a page.
ghost use Rattle.std.specs.Prelude.{◌≡◌, ℕ, ◌≤◌, List, min, length, get_or};
ghost use Rattle.spelling.specs.Lines.{code_line_lem, lines as lines_of};
ghost use Rattle.spelling.specs.Records.{record_line_lem};
ghost use Rattle.spelling.specs.Inside.Placed.{Placed};
ghost use Rattle.printing.specs.Outputs.{report_output_lem, codes_output_lem, shown_records_lem, explain_output_lem};

use crate::Report;
use spelling::page::Page;

// A listing has each of the 32 × 64 × 32 transitions at most once.
const MOST_RECORDS: usize = 65536;

// What a program prints.
pub trait Output {
    ghost text: { Self → List ℕ };

    fn put(&self, page: &mut Page)
        requires front { page.old.at ≡ 0 }
        ensures placed { Placed (text self.now) (length (text self.now)) page.old page.new };
}

impl Output for Report {
    ghost text = { report_output_lem };

    fn put(&self, page: &mut Page) {
        if self.number != 0 {
            return page.refused_line(self.number, self.place);
        }
        page.number_line(b"states", self.states as u64);
        page.number_line(b"examined", self.examined);
        page.number_line(b"joins", self.joins);
        page.answer_line(b"start", self.start);
        page.answer_line(b"empty", self.empty);
        page.answer_line(b"growing", self.growing);
    }
}

// The codes of the symbols, or a refusal's number and place.
#[derive(Clone, Copy)]
pub struct Codes<'a> {
    pub number: usize,
    pub place: usize,
    pub codes: &'a [u8],
}

impl Output for Codes<'_> {
    ghost text = { λ c. codes_output_lem c.number c.place c.codes.now };

    fn put(&self, page: &mut Page) {
        if self.number != 0 {
            return page.refused_line(self.number, self.place);
        }
        code_lines(page, self.codes);
    }
}

// Why a form is accepted, or a refusal's number and place.
#[derive(Clone, Copy)]
pub struct Explanation<'a> {
    pub number: usize,
    pub place: usize,
    pub accepted: bool,
    pub records: usize,
    pub listing: &'a [u8],
}

impl Output for Explanation<'_> {
    ghost text = { λ e. explain_output_lem e.number e.place e.accepted e.records e.listing.now };

    fn put(&self, page: &mut Page) {
        if self.number != 0 {
            return page.refused_line(self.number, self.place);
        }
        page.answer_line(b"accepted", self.accepted);
        page.number_line(b"records", self.records as u64);
        record_lines(page, self.records, self.listing);
    }
}

// A line for each symbol 0 to 63 that has a code.
fn code_lines(page: &mut Page, codes: &[u8])
    requires front { page.old.at ≡ 0 }
    ensures placed { Placed (lines_of (λ X. code_line_lem X (get_or codes.now X 0)) (min 64 (length codes.now))) 2688
        page.old page.new }
{
    let shown = codes.len().min(64);
    for (x, code) in codes[..shown].iter().enumerate() {
        page.code_line(x as u64, *code);
    }
}

// The lines of the records that are said to be there and that a listing holds whole.
fn record_lines(page: &mut Page, records: usize, listing: &[u8])
    requires early { page.old.at ≤ 42 }
    ensures placed { Placed (lines_of (record_line_lem listing.now) (shown_records_lem records listing.now)) 10223616
        page.old page.new }
{
    let shown = records.min(MOST_RECORDS).min(listing.len() / 8);
    for k in 0..shown {
        page.record_line(listing, k);
    }
}
