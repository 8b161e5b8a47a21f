// The line of a record of a listing: its transition and why it is there.
ghost use Rattle.std.specs.Prelude.{◌≡◌, ◌+◌, ◌*◌, ◌≤◌, length, get_or};
ghost use Rattle.spelling.specs.Records.{transition_output, body_output, reason_output, record_line_lem};
ghost use Rattle.spelling.specs.Inside.Placed.{Placed, Room};

use crate::page::Page;

impl Page<'_> {
    // The line of record k.
    pub fn record_line(&mut self, listing: &[u8], k: usize)
        requires room { Room self.old 156 }
        requires whole { 8 * k + 8 ≤ length listing.now }
        ensures placed { Placed (record_line_lem listing.now k) 156 self.old self.new }
    {
        let bytes = &listing[8 * k..8 * k + 8];
        self.put_transition(bytes[0], bytes[1], bytes[2]);
        self.put_reason(bytes);
    }

    // The transition, 'q X r'.
    fn put_transition(&mut self, from: u8, symbol: u8, to: u8)
        requires room { Room self.old 62 }
        ensures placed { Placed (transition_output from symbol to) 62 self.old self.new }
    {
        self.put_decimal(u64::from(from));
        self.put_spaced(u64::from(symbol));
        self.put_spaced(u64::from(to));
    }

    // Why the transition of a record is there.
    fn put_reason(&mut self, bytes: &[u8])
        requires room { Room self.old 94 }
        requires whole { length bytes.now ≡ 8 }
        ensures placed { Placed (reason_output (get_or bytes.now 1 0) (get_or bytes.now 3 0) (get_or bytes.now 4 0)
            (get_or bytes.now 5 0) (get_or bytes.now 6 0)) 94 self.old self.new }
    {
        if bytes[3] == b'G' {
            return self.put_word(b" given\n");
        }
        self.put_number(b" by", u64::from(bytes[1]));
        self.put_body(bytes);
    }

    // The body of the rule of a record.
    fn put_body(&mut self, bytes: &[u8])
        requires room { Room self.old 70 }
        requires whole { length bytes.now ≡ 8 }
        ensures placed { Placed (body_output (get_or bytes.now 3 0) (get_or bytes.now 4 0) (get_or bytes.now 5 0)
            (get_or bytes.now 6 0)) 70 self.old self.new }
    {
        let first = u64::from(bytes[4]);
        // Kept (1): the kind is a byte of the listing and is read here and in `put_reason` alone: an enum of kinds would
        // be matched once to make it and once more to print it.
        match bytes[3] {
            b'E' => self.put_word(b" -> empty\n"),
            b'P' => {
                self.put_number(b" ->", first);
                self.put_spaced(u64::from(bytes[5]));
                self.number_line(b" at", u64::from(bytes[6]));
            }
            _ => self.number_line(b" ->", first),
        }
    }
}
