// The listing: depth first down the reasons, premises before what they explain, each transition once. The path is
// kept in a local array, as a chain of reasons can be tens of thousands long. Rules are read from their sort keys, at
// their ranks.
#![tactic(auto)]

ghost use Rattle.std.specs.Prelude.{◌≡◌, MatchOption, cond, [], ◌∷◌, ◌+◌, ◌<◌, ◌≤◌, eqb, leb, length, take, slice_index};
ghost use Rattle.std.proofs.lemmas.List.Edits.{sets};
ghost use Rattle.job.specs.Inside.Keys.{rule_of_key};
ghost use Rattle.machine.specs.Table.{table_size, reasons_size, symbol_at, each};
ghost use Rattle.forms.specs.Listing.{reason_at_lem, premises, rule_bytes_lem, reason_bytes_lem, listing_record, unmarked};
ghost use Rattle.forms.specs.Grounded.{DonePlace};
ghost use Rattle.forms.specs.Inside.ListingParts.{five_bytes, HasReason, CanList, RoomFor, CanMove};
ghost use Rattle.job.specs.Inside.Keys.{rules_of_keys};
ghost use Rattle.forms.specs.Inside.ListingParts.{CanVisit, CanListAll, pass_of, walking_of, first_unlisted_lem};
ghost use Rattle.forms.specs.Inside.ListingParts.{list_one_lem, visit_one, moved, pass_over};

use forms::Reason;
use job::Body;
use transitions::{GIVEN_REASON, STATE_PLACES, STATE_REASONS, TURN};

// The entries of the reasons, and the sort keys of the rules whose ranks they hold.
#[derive(Clone, Copy)]
struct Reasons<'a> {
    entries: &'a [u32],
    keys: &'a [u32],
}

// A walk down the reasons: how long its path is, and how many transitions are listed.
#[derive(Clone, Copy)]
pub struct PathWalk {
    pub depth: usize,
    pub count: usize,
}

// Whether the label of the transition at a place is a terminal.
fn terminal_at(p: usize) -> bool
    ensures terminal { result ≡ leb 32 (symbol_at p) }
{
    grammar::is_terminal((p / 32 % 64) as u8)
}

// The reason that a rule with a middle state is.
fn rule_reason(key: u32, middle: u8) -> Reason
    ensures bytes { five_bytes result ≡ rule_bytes_lem middle (rule_of_key key) }
{
    let rule = records::rules::unpack(key);
    match rule.body {
        Body::Empty => Reason::Empty,
        Body::Unit(x) => Reason::Unit(x),
        Body::Pair(y, z) => Reason::Pair(y, z, middle),
    }
}

// The first of two places that is not listed.
fn first_unlisted(table: &[u8], a: usize, b: usize) -> Option<usize>
    requires long { table_size ≤ length table.now }
    requires within { (a < table_size) × (b < table_size) }
    ensures first { MatchOption result (table_size ≡ first_unlisted_lem table.now (a ∷ b ∷ []))
        (λ p. (p ≡ first_unlisted_lem table.now (a ∷ b ∷ [])) × (p < table_size)) }
{
    if table[a] != 3 {
        Some(a)
    } else if table[b] != 3 {
        Some(b)
    } else {
        None
    }
}

// The four bytes that say a reason in a record, with no fifth: its kind, the symbols of the body and the middle state.
fn bytes_of(why: Reason) -> [u8; 4]
    ensures bytes { slice_index result 0 ∷ slice_index result 1 ∷ slice_index result 2 ∷ slice_index result 3 ∷ 0 ∷ []
        ≡ five_bytes why }
{
    match why {
        Reason::Given => [b'G', 0, 0, 0],
        Reason::Empty => [b'E', 0, 0, 0],
        Reason::Unit(x) => [b'U', x, 0, 0],
        Reason::Pair(y, z, m) => [b'P', y, z, m],
    }
}

impl<'a> Reasons<'a> {
    // The reason of the transition at a place; a terminal's is given.
    fn reason_at(&self, p: usize) -> u16
        requires within { (p < table_size) × (reasons_size ≤ length self.now.entries.now) }
        ensures reason { result ≡ reason_at_lem self.now.entries.now p }
    {
        if terminal_at(p) {
            return GIVEN_REASON;
        }
        let entry = self.entries[p / STATE_PLACES * STATE_REASONS + p / 32 % 64 * 32 + p % 32];
        (entry % TURN) as u16
    }

    // The reason of a done transition, with its rule.
    fn reason_of(&self, p: usize) -> Reason
        requires fits { HasReason (rules_of_keys self.now.keys.now) self.now.entries.now p }
        ensures bytes { five_bytes result ≡ reason_bytes_lem (rules_of_keys self.now.keys.now) self.now.entries.now p }
    {
        let reason = self.reason_at(p);
        if reason == GIVEN_REASON {
            return Reason::Given;
        }
        let n = reason - 1;
        let rank = (n / 32) as usize;
        rule_reason(self.keys[rank], (n % 32) as u8)
    }

    // The first premise of a done transition that is not listed.
    fn next_premise(&self, table: &[u8], p: usize) -> Option<usize>
        requires able { CanList (rules_of_keys self.now.keys.now) self.now.entries.now table.now × DonePlace table.now p }
        ensures next { MatchOption result
            (table_size ≡ first_unlisted_lem table.now (premises (rules_of_keys self.now.keys.now) self.now.entries.now p))
            (λ q. (q ≡ first_unlisted_lem table.now (premises (rules_of_keys self.now.keys.now) self.now.entries.now p))
            × (q < table_size)) }
    {
        let from = p / STATE_PLACES;
        let to = p % 32;
        match self.reason_of(p) {
            Reason::Given | Reason::Empty => None,
            Reason::Unit(x) => {
                let a = from * STATE_PLACES + x as usize * 32 + to;
                first_unlisted(table, a, a)
            }
            Reason::Pair(y, z, m) => {
                let middle = m as usize;
                first_unlisted(
                    table,
                    from * STATE_PLACES + y as usize * 32 + middle,
                    middle * STATE_PLACES + z as usize * 32 + to,
                )
            }
        }
    }

    // Writes the record of a done transition.
    fn write_record(&self, p: usize, listing: &mut [u8], at: usize)
        requires fits { HasReason (rules_of_keys self.now.keys.now) self.now.entries.now p }
        requires room { at + 8 ≤ length listing.old }
        ensures written { listing.new
            ≡ sets listing.old at (listing_record (rules_of_keys self.now.keys.now) self.now.entries.now p) }
    {
        let [kind, second, third, middle] = bytes_of(self.reason_of(p));
        listing[at] = (p / STATE_PLACES) as u8;
        listing[at + 1] = (p / 32 % 64) as u8;
        listing[at + 2] = (p % 32) as u8;
        listing[at + 3] = kind;
        listing[at + 4] = second;
        listing[at + 5] = third;
        listing[at + 6] = middle;
        listing[at + 7] = 0;
    }

    // Lists a done transition: its table byte becomes 3, and its record is written where that is wanted. Returns how many
    // are listed then.
    fn list_one(
        &self,
        table: &mut [u8],
        listing: &mut [u8],
        write: bool,
        count: usize,
        p: usize,
    ) -> usize
        requires fits { (p < length table.old) × (count < table_size)
            × HasReason (rules_of_keys self.now.keys.now) self.now.entries.now p }
        requires room { RoomFor write (count + 1) listing.old }
        ensures listed { pass_of table.new result listing.new
            ≡ list_one_lem write (rules_of_keys self.now.keys.now) self.now.entries.now p
            (pass_of table.old count listing.old) }
    {
        table[p] = 3;
        if write {
            self.write_record(p, listing, 8 * count);
        }
        count + 1
    }

    // One move of the walk: down to a premise that is not listed, or the end of the path is listed.
    fn walk_step(
        &self,
        table: &mut [u8],
        path: &mut [u16; job::REASON_NUMBERS],
        listing: &mut [u8],
        write: bool,
        w: PathWalk,
    ) -> PathWalk
        requires able { CanMove write (rules_of_keys self.now.keys.now) self.now.entries.now
            (walking_of table.old w.count listing.old path.old w.depth) }
        ensures moved { walking_of table.new result.count listing.new path.new result.depth
            ≡ moved write (rules_of_keys self.now.keys.now) self.now.entries.now
            (walking_of table.old w.count listing.old path.old w.depth) }
    {
        let depth = w.depth;
        let p = path[depth - 1] as usize;
        match self.next_premise(table, p) {
            None => {
                let count = self.list_one(table, listing, write, w.count, p);
                PathWalk {
                    depth: depth - 1,
                    count,
                }
            }
            Some(next) => {
                if terminal_at(next) {
                    let count = self.list_one(table, listing, write, w.count, next);
                    return PathWalk { depth, count };
                }
                path[depth] = next as u16;
                PathWalk {
                    depth: depth + 1,
                    count: w.count,
                }
            }
        }
    }

    // Lists a transition after its premises, unless it is listed. Returns how many are listed then.
    fn visit(
        &self,
        table: &mut [u8],
        path: &mut [u16; job::REASON_NUMBERS],
        listing: &mut [u8],
        write: bool,
        count: usize,
        p: usize,
    ) -> usize
        requires able { CanVisit write (rules_of_keys self.now.keys.now) self.now.entries.now path.old p
            (pass_of table.old count listing.old) }
        ensures pass { pass_of table.new result listing.new
            ≡ visit_one write (rules_of_keys self.now.keys.now) self.now.entries.now p
            (pass_of table.old count listing.old) }
        ensures path { length path.new ≡ reasons_size }
    {
        if table[p] == 3 {
            return count;
        }
        if terminal_at(p) {
            return self.list_one(table, listing, write, count, p);
        }
        path[0] = p as u16;
        let mut w = PathWalk { depth: 1, count };
        while 0 < w.depth {
            w = self.walk_step(table, path, listing, write, w);
        }
        w.count
    }
}

// Lists the transitions of a sequence in turn. Returns how many are listed.
// Kept (7): `write` is a switch, since the clauses here speak of `pass_over write`, and crate explaining calls it so.
pub fn list_all(
    table: &mut [u8],
    reasons: &[u32],
    keys: &[u32],
    route: &[u16; job::FORM_SYMBOLS],
    n: usize,
    listing: &mut [u8],
    write: bool,
) -> usize
    requires sequence { (n ≤ 64) × (n ≤ length route.now) }
    requires able { CanListAll write (rules_of_keys keys.now) reasons.now table.old (take n route.now)
        listing.old }
    ensures listed { pass_of table.new result listing.new
        ≡ pass_over write (rules_of_keys keys.now) reasons.now table.old
        (take n route.now) listing.old }
{
    let mut path = [0u16; job::REASON_NUMBERS];
    let by = Reasons {
        entries: reasons,
        keys,
    };
    let mut count = 0;
    for i in 0..n {
        let p = route[i] as usize;
        count = by.visit(table, &mut path, listing, write, count, p);
    }
    count
}

// Takes the mark of a listing from a table byte.
fn without_mark(b: u8) -> u8
    ensures byte { result ≡ cond (eqb b 3) 2 b }
{
    if b == 3 { 2 } else { b }
}

// Takes the marks of a listing back.
pub fn unmark(table: &mut [u8])
    requires long { table_size ≤ length table.old }
    ensures unmarked { table.new ≡ each unmarked 0 table.old }
{
    for i in 0..job::TABLE_BYTES {
        table[i] = without_mark(table[i]);
    }
}
