// The outputs of the programs, written into a lent buffer, for every input.
ghost use Rattle.std.specs.Prelude.{◌≡◌, length};
ghost use Rattle.std.proofs.lemmas.List.Edits.{sets};
ghost use Rattle.printing.specs.Outputs.{report_output_lem, codes_output_lem, explain_output_lem};
ghost use Rattle.printing.specs.Written.{written_of};

use crate::outputs::{Codes, Explanation, Output};
use crate::{Report, Written};
use spelling::page::Page;

// How many bytes an output puts into a buffer, or would put there if it had room.
fn put<O: Output>(output: &O, out: &mut [u8]) -> usize
    ensures count { result ≡ length (O.text output.now) }
    ensures bytes { out.new ≡ sets out.old 0 (O.text output.now) }
{
    let mut page = Page::new(out);
    output.put(&mut page);
    page.count()
}

// Writes an output. It is counted first, in a part of the buffer that has no bytes, so that a buffer that is too short
// for it is left as it was.
fn written<O: Output>(output: &O, out: &mut [u8]) -> Written
    ensures written { record { answer = result; out = out.new } ≡ written_of (O.text output.now) out.old }
{
    let needed = put(output, &mut out[..0]);
    if out.len() < needed {
        return Written {
            number: 13,
            place: needed,
            bytes: 0,
        };
    }
    Written {
        number: 0,
        place: 0,
        bytes: put(output, out),
    }
}

// Writes the report's output.
pub fn report_output(report: Report, out: &mut [u8]) -> Written
    ensures written { record { answer = result; out = out.new }
        ≡ written_of (report_output_lem report) out.old }
{
    written(&report, out)
}

// Writes the output of the codes.
// Kept (1, 5): the programs `codes` and `explain` call these two by these clauses, which give a refusal's number and place,
// and an explanation, as single values; within, they are the fields of an `Output`.
pub fn codes_output(number: usize, place: usize, codes: &[u8], out: &mut [u8]) -> Written
    ensures written { record { answer = result; out = out.new }
        ≡ written_of (codes_output_lem number place codes.now) out.old }
{
    let codes = Codes {
        number,
        place,
        codes,
    };
    written(&codes, out)
}

// Writes the output of an explanation.
pub fn explain_output(
    number: usize,
    place: usize,
    accepted: bool,
    records: usize,
    listing: &[u8],
    out: &mut [u8],
) -> Written
    ensures written { record { answer = result; out = out.new }
        ≡ written_of (explain_output_lem number place accepted records listing.now) out.old }
{
    let explanation = Explanation {
        number,
        place,
        accepted,
        records,
        listing,
    };
    written(&explanation, out)
}
