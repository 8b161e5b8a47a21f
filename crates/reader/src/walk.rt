// The two walks over the bodies of a text: the first counts what they need, the second puts their rules in order.
ghost use Rattle.std.specs.Prelude.{◌≡◌, false, ◌≤◌, length};
ghost use Rattle.abnf.specs.Reading.{lines_of};
ghost use Rattle.abnf_jobs.specs.Bodies.{bodies_of};
ghost use Rattle.abnf_jobs.specs.Characters.{used_in};
ghost use Rattle.text_symbols.specs.Letters.{LettersFit};
ghost use Rattle.text_symbols.specs.Marks.{Marked, Numbered};
ghost use Rattle.text_symbols.specs.Keys.{ItemsFit};
ghost use Rattle.reader.specs.Walk.{TextReady, ItemsCounted, Needs, Fits, ItemsPut, RulesKept};

use bodies::items::Kept;
use bodies::{ITEMS, items, places};
use naming::table::NamedText;
use text_symbols::BYTES;
use text_symbols::characters::Used;
use text_symbols::letters::Variables;
use text_symbols::rules::RulesRead;
use text_symbols::symbols::Symbols;

// Takes variables for the letters and the tails of a body, and marks its characters.
fn count_items(items: &[u16], variables: &mut Variables, used: &mut Used)
    requires fit { LettersFit items.now }
    requires short { length items.now ≤ 34 }
    requires few { variables.old.taken ≤ 32 }
    ensures counted { ItemsCounted items.now variables.old used.old variables.new used.new }
{
    variables.take_letters(items);
    used.mark_items(items);
    variables.take_tails(items.len());
}

// Counts the variables that a text needs, up to more than 32, and marks the characters used.
pub fn count_bodies(named: &NamedText, used: &mut Used) -> usize
    requires ready { TextReady named.now }
    requires few { length named.now.names ≤ 32 }
    requires none { Marked (λ c. false) used.old }
    ensures needs { Needs (lines_of named.now.edition named.now.text) result used.new }
{
    let mut kept = Kept::new();
    let mut variables = Variables::of_names(named.count());
    let mut place = places::line_place(named, 0);
    while let Some(p) = place {
        let rest = items::read_body(named, p.at, &mut kept);
        let items = kept.items();
        if items.len() == ITEMS {
            return 33;
        }
        count_items(items, &mut variables, used);
        if 32 < variables.taken {
            return 33;
        }
        place = places::next_place(named, p.head, rest);
    }
    variables.taken
}

// Puts the rules of a body among others, after the letters that it takes variables for.
fn put_items(
    items: &[u16],
    head: u8,
    variables: &mut Variables,
    numbers: &[u8; BYTES],
    rules: &mut RulesRead,
)
    requires fit { ItemsFit items.now }
    requires short { length items.now ≤ 34 }
    requires few { variables.old.taken ≤ 32 }
    ensures put { ItemsPut items.now head numbers.now variables.old rules.old variables.new rules.new }
{
    variables.take_letters(items);
    rules.put_items(head, items, Symbols { variables, numbers });
    variables.take_tails(items.len());
}

// The rules of a text.
pub fn put_rules(named: &NamedText, numbers: &[u8; BYTES]) -> RulesRead
    requires ready { TextReady named.now }
    requires fits { Fits (lines_of named.now.edition named.now.text) }
    requires numbered { Numbered (used_in (bodies_of (lines_of named.now.edition named.now.text))) numbers.now }
    ensures rules { RulesKept (lines_of named.now.edition named.now.text) result }
{
    let mut kept = Kept::new();
    let mut variables = Variables::of_names(named.count());
    let mut rules = RulesRead::new();
    let mut place = places::line_place(named, 0);
    while let Some(p) = place {
        let rest = items::read_body(named, p.at, &mut kept);
        let head = p.head as u8;
        put_items(kept.items(), head, &mut variables, numbers, &mut rules);
        place = places::next_place(named, p.head, rest);
    }
    rules.put_letters(Symbols {
        variables: &variables,
        numbers,
    });
    rules
}
